//! Updates of one subscriber's data, of which another one overwrites some.
use super::forwardings::{EXPLAINED, SUCCESS, UNEXPLAINED, answered, ends, facility, fresh};
use super::to_rows::leads_with;
use rand_pcg::Pcg64;
use std::alloc::{AllocError, Global};
use std::test::Fail;
use tatp_calls::Call;
use tatp_homes::{Home, homes};
use tatp_population::generate;

/// Columns of a Subscriber row and of a Special_Facility row.
const BIT_1: u8 = 2;

const DATA_A: u8 = 44;

fn update(sf_type: u64, bit_1: u64, data_a: u64) -> Call {
    Call::UpdateSubscriberData {
        s_id: 1,
        bit_1,
        sf_type,
        data_a,
    }
}

/// The home with these values.
fn with_data(home: &Home, sf_type: u64, bit_1: u64, data_a: u64) -> Home {
    let mut rows = home.copy();
    let _ = rows.put(BIT_1, [1, 0, 0], bit_1);
    let _ = rows.put(DATA_A, [1, sf_type, 0], data_a);
    rows
}

/// A home of subscriber 1 with several facilities.
fn with_facilities(alloc: Global) -> Result<Option<Home>, AllocError> {
    let rows = generate(alloc, 1, &mut Pcg64::new(9, 0))?;
    let mut all = homes(alloc, &rows)?;
    Ok(all.pop())
}

/// The last facility of subscriber 1.
fn last_facility(home: &Home) -> u64 {
    let mut last = 0;
    for sf_type in 1..5 {
        if home.has_facility(1, sf_type) {
            last = sf_type;
        }
    }
    last
}

#[test]
fn updates_that_may_be_left_out(rt: HostRuntime) -> Result<(), Fail> {
    let alloc = rt.alloc();
    let home = fresh(alloc)?.expect(&rt, "a home");
    let t = facility(&home);
    // the last may follow on each of the first three, or they may follow on it: with four
    // configurations all of that is decided
    let events = [
        answered(1, update(t, 0, 7), 6, SUCCESS),
        answered(2, update(t, 0, 8), 7, SUCCESS),
        answered(3, update(t, 0, 9), 8, SUCCESS),
        answered(4, update(t, 1, 5), 5, SUCCESS),
        ends(4, 5),
        ends(1, 6),
        ends(2, 7),
        ends(3, 8),
    ];
    let last = leads_with(alloc, &home, &events, &with_data(&home, t, 1, 5), 4)?;
    let second = leads_with(alloc, &home, &events, &with_data(&home, t, 0, 8), 4)?;
    let mixed = leads_with(alloc, &home, &events, &with_data(&home, t, 1, 8), 4)?;
    assert_eq!(rt; (last, second, mixed), (EXPLAINED, EXPLAINED, UNEXPLAINED));
    Ok(())
}

#[test]
fn data_of_another_facility(rt: HostRuntime) -> Result<(), Fail> {
    let alloc = rt.alloc();
    let home = with_facilities(alloc)?.expect(&rt, "a home");
    let t = facility(&home);
    let other = last_facility(&home);
    let before = with_data(&home, other, 0, 3);
    let events = [
        answered(1, update(other, 0, 9), 4, SUCCESS),
        answered(2, update(t, 1, 5), 3, SUCCESS),
        ends(2, 3),
        ends(1, 4),
    ];
    let both = with_data(&with_data(&before, other, 0, 9), t, 1, 5);
    let one = with_data(&before, t, 1, 5);
    let there = leads_with(alloc, &before, &events, &both, 8)?;
    let left_out = leads_with(alloc, &before, &events, &one, 8)?;
    assert_eq!(rt;
        (t == other, there, left_out),
        (false, EXPLAINED, UNEXPLAINED)
    );
    Ok(())
}
