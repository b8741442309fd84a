//! Rows that calls on one forwarding leave.
use super::forwardings::{
    EXPLAINED, SUCCESS, UNDECIDED, UNEXPLAINED, answered, are_accepted, asks, delete, ends,
    facility, fresh, insert,
};
use std::alloc::{AllocError, Global};
use std::test::Fail;
use tatp_calls::Call;
use tatp_history::{Event, Outcome};
use tatp_homes::Home;
use tatp_linearization::{Explanations, Standing};

/// Whether an order that explains the events on a home results in these rows of it, where at most
/// `most` configurations may be kept; `None` where no order explains the events.
pub(super) fn leads_with(
    alloc: Global,
    home: &Home,
    events: &[Event],
    rows: &Home,
    most: usize,
) -> Result<Option<Standing>, AllocError> {
    if events.is_empty() || !are_accepted(events) || home.s_id() != rows.s_id() {
        return Ok(None);
    }
    let mut explanations = Explanations::new(alloc, home, most, true)?;
    match explanations.follow(alloc, events)? {
        Standing::Explained => Ok(Some(explanations.leads_to(alloc, rows)?)),
        _ => Ok(None),
    }
}

/// The same with as many configurations as these tests need.
fn leads(
    alloc: Global,
    home: &Home,
    events: &[Event],
    rows: &Home,
) -> Result<Option<Standing>, AllocError> {
    leads_with(alloc, home, events, rows, 8)
}

/// The home with a forwarding at 8 to this number.
fn with_forwarding(home: &Home, numberx: u64) -> Home {
    let sf_type = facility(home);
    let mut rows = home.copy();
    let _ = rows.insert_cf([1, sf_type, 8, 9, numberx]);
    rows
}

/// An insert of a forwarding at 8 to this number.
fn insert_to(sf_type: u64, numberx: u64) -> Call {
    Call::InsertCallForwarding {
        sub_nbr: 1,
        sf_type,
        start_time: 8,
        end_time: 9,
        numberx,
    }
}

#[test]
fn an_answered_call(rt: HostRuntime) -> Result<(), Fail> {
    let alloc = rt.alloc();
    let home = fresh(alloc)?.expect(&rt, "a home");
    let events = [answered(1, insert(facility(&home)), 2, SUCCESS), ends(1, 2)];
    let there = leads(alloc, &home, &events, &with_forwarding(&home, 7))?;
    let other = leads(alloc, &home, &events, &with_forwarding(&home, 6))?;
    let none = leads(alloc, &home, &events, &home)?;
    assert_eq!(rt; (there, other, none), (EXPLAINED, UNEXPLAINED, UNEXPLAINED));
    Ok(())
}

#[test]
fn calls_of_unknown_outcome(rt: HostRuntime) -> Result<(), Fail> {
    let alloc = rt.alloc();
    let home = fresh(alloc)?.expect(&rt, "a home");
    let sf_type = facility(&home);
    let events = [
        asks(1, delete(sf_type), Outcome::Unknown),
        asks(2, insert_to(sf_type, 5), Outcome::Unknown),
        answered(3, insert(sf_type), 4, SUCCESS),
        ends(3, 4),
    ];
    let never = leads(alloc, &home, &events, &with_forwarding(&home, 7))?;
    let one = leads(alloc, &home, &events, &home)?;
    let both = leads(alloc, &home, &events, &with_forwarding(&home, 5))?;
    let other = leads(alloc, &home, &events, &with_forwarding(&home, 6))?;
    assert_eq!(rt;
        (never, one, both, other),
        (EXPLAINED, EXPLAINED, EXPLAINED, UNEXPLAINED)
    );
    Ok(())
}

#[test]
fn too_many_rows(rt: HostRuntime) -> Result<(), Fail> {
    let alloc = rt.alloc();
    let home = fresh(alloc)?.expect(&rt, "a home");
    let sf_type = facility(&home);
    let events = [
        asks(1, delete(sf_type), Outcome::Unknown),
        asks(2, insert(sf_type), Outcome::Unknown),
    ];
    let other = with_forwarding(&home, 6);
    let one = leads_with(alloc, &home, &events, &other, 1)?;
    let some = leads_with(alloc, &home, &events, &other, 2)?;
    let unmoved = leads_with(alloc, &home, &events, &home, 1)?;
    assert_eq!(rt; (one, some, unmoved), (UNDECIDED, UNEXPLAINED, EXPLAINED));
    Ok(())
}
