//! Extents of clean rows, opened and pinned, and the log of calls without a home.

use std::alloc::{AllocError, Global};
use std::test::Fail;
use tatp_extents::{Extent, Homeless, discard_all, open};
use tatp_tables::{Row, Rows};

/// Rows of this many subscribers, the last first, each with one row in Access_Info and one in
/// Special_Facility.
pub fn clean_rows(alloc: Global, count: u64) -> Result<Rows, AllocError> {
    let mut rows = Rows::new(alloc);
    for s_id in (1..count.saturating_add(1)).rev() {
        let mut subscriber = [0; 34];
        subscriber[0] = s_id;
        subscriber[1] = s_id;
        subscriber[32] = 1;
        subscriber[33] = 1;
        rows.push(Row::S(subscriber))?;
        rows.push(Row::A([s_id, 1, 0, 0, 4276545, 280267669825]))?;
        rows.push(Row::F([s_id, 1, 1, 0, 0, 280267669825]))?;
    }
    Ok(rows)
}

/// The number of the last extent, its first subscriber, how many subscribers it has, and how many
/// extents there are.
fn last_shape(extents: &[Extent]) -> Option<(u32, u64, usize, usize)> {
    let last = extents.last()?;
    let first = last.homes().first()?;
    Some((
        last.number(),
        first.s_id(),
        last.opening().len(),
        extents.len(),
    ))
}

#[test]
fn last_extents(rt: HostRuntime) -> Result<(), Fail> {
    for (count, shape) in [
        (1, (1, 1, 1, 1)),
        (63, (1, 1, 63, 1)),
        (64, (1, 1, 64, 1)),
        (65, (2, 65, 1, 2)),
        (128, (2, 65, 64, 2)),
        (130, (3, 129, 2, 3)),
    ] {
        let (extents, _directory) = open(rt.alloc(), clean_rows(rt.alloc(), count)?, 16)?;
        let last = last_shape(&extents);
        discard_all(extents);
        assert_eq!(rt; last, Some(shape));
    }
    Ok(())
}

/// Whether the extent is one that was just opened, with the home of subscriber 65 alone.
fn is_just_opened(extent: &Extent) -> bool {
    extent.number() == 2
        && extent.moves() == 0
        && !extent.is_mixed()
        && extent.last_stamp() == 0
        && extent.log().is_empty()
        && extent.opening().len() == 1
        && extent.homes().len() == 1
        && extent.home(64).is_none()
        && extent
            .home(65)
            .is_some_and(|home| home.has_number(65) && home.has_access(65, 1))
        && extent.home(66).is_none()
        && extent.home(0).is_none()
        && extent.home(u64::MAX).is_none()
}

/// The extent after calls on the home of a subscriber: one that is set back, and one that is no
/// standard transaction. None where the subscriber doesn't lie in it, or memory ran out.
fn after_two_calls(alloc: Global, extent: Extent, s_id: u64) -> Option<Extent> {
    if extent.home(s_id).is_none() {
        let _ = extent.close();
        return None;
    }
    match extent.pin(alloc, s_id) {
        Ok(pinned) => match pinned.set_free().pin(alloc, s_id) {
            Ok(pinned) => Some(pinned.end_mixed()),
            Err(extent) => {
                let _ = extent.close();
                None
            }
        },
        Err(extent) => {
            let _ = extent.close();
            None
        }
    }
}

#[test]
fn an_extent_and_calls_on_it(rt: HostRuntime) -> Result<(), Fail> {
    let (mut extents, _directory) = open(rt.alloc(), clean_rows(rt.alloc(), 65)?, 1)?;
    let mut just_opened = false;
    let mut mixed = false;
    if let Some(extent) = extents.pop() {
        just_opened = is_just_opened(&extent);
        if let Some(extent) = after_two_calls(rt.alloc(), extent, 65) {
            mixed = extent.is_mixed() && extent.log().is_empty();
            let _ = extent.close();
        }
    }
    discard_all(extents);
    assert!(rt; just_opened && mixed);
    Ok(())
}

#[test]
fn calls_without_a_home(rt: HostRuntime) -> Result<(), Fail> {
    let mut homeless = Homeless::new(rt.alloc());
    homeless.reserve()?;
    assert!(rt; !homeless.is_mixed() && homeless.log().is_empty() && homeless.last_stamp() == 0);
    homeless.end_mixed();
    assert!(rt; homeless.is_mixed());
    let parts = homeless.close();
    assert!(rt; parts.mixed && parts.log.is_empty());
    Ok(())
}
