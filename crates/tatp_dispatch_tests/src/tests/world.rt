//! A population that is opened, and gathered with a parcel in hand.

use std::test::Fail;
use tatp_dispatch::{Event, World};
use tatp_settle_tests::rows::clean_rows;
use tatp_settle_tests::sites::module;
use tatp_tables::Rows;

/// The s_id of the Subscriber row in a place.
fn s_id_at(rows: &Rows, place: usize) -> Option<u64> {
    let row = rows.subscribers.as_slice().get(place)?;
    Some(row[0])
}

/// The s_ids of the first three Subscriber rows, of the 65th, and of the last.
fn s_ids(rows: &Rows) -> [Option<u64>; 5] {
    [
        s_id_at(rows, 0),
        s_id_at(rows, 1),
        s_id_at(rows, 2),
        s_id_at(rows, 64),
        s_id_at(rows, 129),
    ]
}

#[test]
fn a_population_is_opened_and_gathered(rt: HostRuntime) -> Result<(), Fail> {
    let loaded = module(rt.alloc())?;
    let mut world = World::open(rt.alloc(), &loaded, clean_rows(rt.alloc(), 130, &[])?, 2, 4)?;
    let opened = world.gather(rt.alloc());
    let parted = world.apply(Event::Take(0, 1)).is_ok();
    let carried = world.gather(rt.alloc());
    let completed = world.completions().len();
    world.close();
    assert!(rt; parted && completed == 0);
    assert_eq!(rt;
        s_ids(&opened?),
        [Some(1), Some(2), Some(3), Some(129), Some(128)]
    );
    assert_eq!(rt;
        s_ids(&carried?),
        [Some(129), Some(130), Some(65), Some(127), Some(64)]
    );
    Ok(())
}
