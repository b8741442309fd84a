//! Calls that insert and delete one forwarding, which isn't there at first: an insert succeeds
//! where it isn't there, a delete where it is.
ghost use Rattle.std.specs.Prelude.{◌≡◌, ◌↔◌, ◌<◌, IsTrue, length};
ghost use Rattle.std.specs.List.{AllByRecursion};
ghost use Rattle.tatp_history.specs.Events.{AreAfter, time_of as time_then};
ghost use Rattle.tatp_linearization.specs.Held.{IsAcceptedEvent};

use rand_pcg::Pcg64;
use std::alloc::{AllocError, Global};
use std::test::Fail;
use tatp_calls::{Call, Reply, args_ok};
use tatp_history::{Event, Observed, Outcome, Recorded};
use tatp_homes::{Home, homes};
use tatp_linearization::{Explanations, First, Standing};
use tatp_population::generate;

pub(super) const SUCCESS: Recorded = Recorded::Success;

const FAILURE: Recorded = Recorded::Failure;

pub(super) const EXPLAINED: Option<Standing> = Some(Standing::Explained);

pub(super) const UNEXPLAINED: Option<Standing> = Some(Standing::Unexplained);

pub(super) const UNDECIDED: Option<Standing> = Some(Standing::Undecided);

/// The facility of subscriber 1 that the calls are on.
pub(super) fn facility(home: &Home) -> u64 {
    for sf_type in 1..5 {
        if home.has_facility(1, sf_type) {
            return sf_type;
        }
    }
    0
}

pub(super) fn insert(sf_type: u64) -> Call {
    Call::InsertCallForwarding {
        sub_nbr: 1,
        sf_type,
        start_time: 8,
        end_time: 9,
        numberx: 7,
    }
}

pub(super) fn delete(sf_type: u64) -> Call {
    Call::DeleteCallForwarding {
        sub_nbr: 1,
        sf_type,
        start_time: 8,
    }
}

pub(super) fn asks(asked: u64, call: Call, outcome: Outcome) -> Event {
    Event::Asks(Observed {
        asked,
        call,
        outcome,
    })
}

pub(super) fn answered(asked: u64, call: Call, at: u64, recorded: Recorded) -> Event {
    asks(asked, call, Outcome::Answered { at, recorded })
}

pub(super) fn ends(asked: u64, at: u64) -> Event {
    Event::Ends { asked, at }
}

fn is_accepted(event: &Event) -> bool
    ensures { IsTrue result ↔ IsAcceptedEvent event.now }
{
    match event {
        Event::Asks(x) => args_ok(&x.call).is_ok(),
        Event::Ends { .. } => true,
    }
}

/// Whether all events are accepted.
pub(super) fn are_accepted(events: &[Event]) -> bool
    ensures { IsTrue result → AllByRecursion IsAcceptedEvent events.now }
{
    for i in 0..events.len() {
        if !is_accepted(&events[i]) {
            return false;
        }
    }
    true
}

/// Whether the events are explained on a home, where at most `most` configurations may be kept;
/// none where what is asked isn't accepted.
fn are_explained_with(
    alloc: Global,
    home: &Home,
    events: &[Event],
    most: usize,
) -> Result<Option<Standing>, AllocError>
    requires { 0 < length events.now }
{
    if !are_accepted(events) {
        return Ok(None);
    }
    let mut explanations = Explanations::new(alloc, home, most, false)?;
    Ok(Some(explanations.follow(alloc, events)?))
}

/// The same with as many configurations as these tests need.
fn are_explained(
    alloc: Global,
    home: &Home,
    events: &[Event],
) -> Result<Option<Standing>, AllocError>
    requires { 0 < length events.now }
{
    are_explained_with(alloc, home, events, 8)
}

/// A home of subscriber 1 with no forwarding at 8 of its facility.
pub(super) fn fresh(alloc: Global) -> Result<Option<Home>, AllocError> {
    let rows = generate(alloc, 1, &mut Pcg64::new(1, 0))?;
    let mut all = homes(alloc, &rows)?;
    let Some(mut home) = all.pop() else {
        return Ok(None);
    };
    let sf_type = facility(&home);
    let _ = home.delete_cf([1, sf_type, 8]);
    Ok(Some(home))
}

#[test]
fn inserts_that_overlap(rt: HostRuntime) -> Result<(), Fail> {
    let alloc = rt.alloc();
    let home = fresh(alloc)?.expect(&rt, "a home");
    let call = insert(facility(&home));
    let both = are_explained(
        alloc,
        &home,
        &[
            answered(1, call, 3, SUCCESS),
            answered(2, call, 4, SUCCESS),
            ends(1, 3),
            ends(2, 4),
        ],
    )?;
    let either = are_explained(
        alloc,
        &home,
        &[
            answered(1, call, 3, FAILURE),
            answered(2, call, 4, SUCCESS),
            ends(1, 3),
            ends(2, 4),
        ],
    )?;
    assert_eq!(rt; (both, either), (UNEXPLAINED, EXPLAINED));
    Ok(())
}

#[test]
fn real_time(rt: HostRuntime) -> Result<(), Fail> {
    let alloc = rt.alloc();
    let home = fresh(alloc)?.expect(&rt, "a home");
    let sf_type = facility(&home);
    let after = are_explained(
        alloc,
        &home,
        &[
            answered(1, insert(sf_type), 2, SUCCESS),
            ends(1, 2),
            answered(3, delete(sf_type), 4, FAILURE),
            ends(3, 4),
        ],
    )?;
    let during = are_explained(
        alloc,
        &home,
        &[
            answered(1, insert(sf_type), 4, SUCCESS),
            answered(2, delete(sf_type), 3, FAILURE),
            ends(2, 3),
            ends(1, 4),
        ],
    )?;
    assert_eq!(rt; (after, during), (UNEXPLAINED, EXPLAINED));
    Ok(())
}

/// Two inserts one after another, and a delete before them that ended so.
fn with_delete(
    alloc: Global,
    home: &Home,
    outcome: Outcome,
) -> Result<Option<Standing>, AllocError> {
    let sf_type = facility(home);
    are_explained(
        alloc,
        home,
        &[
            asks(1, delete(sf_type), outcome),
            answered(2, insert(sf_type), 3, SUCCESS),
            ends(2, 3),
            answered(4, insert(sf_type), 5, SUCCESS),
            ends(4, 5),
        ],
    )
}

#[test]
fn a_delete_between_inserts(rt: HostRuntime) -> Result<(), Fail> {
    let alloc = rt.alloc();
    let home = fresh(alloc)?.expect(&rt, "a home");
    let unknown = with_delete(alloc, &home, Outcome::Unknown)?;
    let aborted = with_delete(alloc, &home, Outcome::Aborted { at: 6 })?;
    assert_eq!(rt; (unknown, aborted), (EXPLAINED, UNEXPLAINED));
    Ok(())
}

/// A read of the forwarding, and its answer.
fn reads(sf_type: u64) -> Call {
    Call::GetNewDestination {
        s_id: 1,
        sf_type,
        start_time: 8,
        end_time: 8,
    }
}

#[test]
fn a_bound(rt: HostRuntime) -> Result<(), Fail> {
    let alloc = rt.alloc();
    let home = fresh(alloc)?.expect(&rt, "a home");
    let sf_type = facility(&home);
    let events = [
        asks(1, insert(sf_type), Outcome::Unknown),
        asks(2, delete(sf_type), Outcome::Unknown),
        answered(3, insert(sf_type), 4, SUCCESS),
        ends(3, 4),
    ];
    let one = are_explained_with(alloc, &home, &events, 1)?;
    let some = are_explained_with(alloc, &home, &events, 8)?;
    assert_eq!(rt; (one, some), (UNDECIDED, EXPLAINED));
    Ok(())
}

#[test]
fn reads_that_overlap(rt: HostRuntime) -> Result<(), Fail> {
    let alloc = rt.alloc();
    let home = fresh(alloc)?.expect(&rt, "a home");
    let sf_type = facility(&home);
    let events = [
        answered(1, reads(sf_type), 6, FAILURE),
        answered(2, reads(sf_type), 7, FAILURE),
        answered(3, reads(sf_type), 8, FAILURE),
        answered(4, insert(sf_type), 5, SUCCESS),
        ends(4, 5),
        ends(1, 6),
        ends(2, 7),
        ends(3, 8),
    ];
    let before = are_explained_with(alloc, &home, &events, 1)?;
    assert_eq!(rt; before, EXPLAINED);
    Ok(())
}

/// When an event is.
fn time_of(event: &Event) -> u64
    ensures { result ≡ time_then event.now }
{
    match event {
        Event::Asks(x) => x.asked,
        Event::Ends { at, .. } => *at,
    }
}

/// Whether all events are after a time.
fn are_after(events: &[Event], time: u64) -> bool
    ensures { IsTrue result → AreAfter time events.now }
{
    for i in 0..events.len() {
        if time_of(&events[i]) <= time {
            return false;
        }
    }
    true
}

/// The first time up to 9 by which the events aren't explained.
fn first(alloc: Global, home: &Home, events: &[Event]) -> Result<Option<First>, AllocError> {
    if !are_accepted(events) {
        return Ok(None);
    }
    if !are_after(events, 0) {
        return Ok(None);
    }
    let explanations = Explanations::new(alloc, home, 8, false)?;
    Ok(Some(explanations.first_unexplained(alloc, events, 0, 9)?))
}

#[test]
fn the_first_time(rt: HostRuntime) -> Result<(), Fail> {
    let alloc = rt.alloc();
    let home = fresh(alloc)?.expect(&rt, "a home");
    let call = insert(facility(&home));
    let twice = first(
        alloc,
        &home,
        &[
            answered(1, call, 3, SUCCESS),
            answered(2, call, 5, SUCCESS),
            ends(1, 3),
            ends(2, 5),
        ],
    )?;
    let seen = first(
        alloc,
        &home,
        &[
            asks(1, call, Outcome::Aborted { at: 7 }),
            answered(2, call, 5, FAILURE),
            ends(2, 5),
        ],
    )?;
    let once = first(alloc, &home, &[answered(1, call, 3, SUCCESS), ends(1, 3)])?;
    assert_eq!(rt;
        (twice, seen, once),
        (Some(First::At(5)), Some(First::At(7)), Some(First::Never))
    );
    Ok(())
}

/// Whether a call alone is explained; none where it isn't accepted, or more than a home is kept.
fn follow(explanations: &mut Explanations, x: &Observed, reply: &mut Reply) -> Option<bool> {
    if !is_accepted(&Event::Asks(*x)) {
        return None;
    }
    if !explanations.is_single() {
        return None;
    }
    Some(explanations.follow_alone(x, reply))
}

#[test]
fn a_call_alone(rt: HostRuntime) -> Result<(), Fail> {
    let alloc = rt.alloc();
    let home = fresh(alloc)?.expect(&rt, "a home");
    let mut explanations = Explanations::new(alloc, &home, 1, false)?;
    let x = Observed {
        asked: 1,
        call: insert(facility(&home)),
        outcome: Outcome::Answered {
            at: 2,
            recorded: SUCCESS,
        },
    };
    let mut reply = Reply::Refused;
    let first = follow(&mut explanations, &x, &mut reply);
    let second = follow(&mut explanations, &x, &mut reply);
    assert_eq!(rt;
        (first, second, reply),
        (Some(true), Some(false), Reply::Failed(2))
    );
    Ok(())
}

/// The replies with which a call that overlaps another could have been answered; none where they
/// aren't accepted or known.
fn legal(
    alloc: Global,
    home: &Home,
    other: Call,
    call: Call,
) -> Result<Option<Vec<Reply>>, AllocError> {
    let first = Observed {
        asked: 1,
        call: other,
        outcome: Outcome::Answered {
            at: 3,
            recorded: SUCCESS,
        },
    };
    let x = Observed {
        asked: 2,
        call,
        outcome: Outcome::Answered {
            at: 5,
            recorded: SUCCESS,
        },
    };
    let events = [Event::Asks(first), Event::Asks(x), ends(1, 3), ends(2, 5)];
    if !are_accepted(&events) {
        return Ok(None);
    }
    let explanations = Explanations::new(alloc, home, 8, false)?;
    explanations.legal_replies(alloc, &events, &x, 5, 100)
}

#[test]
fn legal_replies(rt: HostRuntime) -> Result<(), Fail> {
    let alloc = rt.alloc();
    let home = fresh(alloc)?.expect(&rt, "a home");
    let call = insert(facility(&home));
    let insert = legal(alloc, &home, call, call)?.expect(&rt, "replies");
    assert_eq!(rt; insert.as_slice(), [Reply::Failed(2)].as_slice());
    let moves = Call::UpdateLocation {
        sub_nbr: 1,
        vlr_location: 7,
    };
    let read = legal(alloc, &home, moves, Call::GetSubscriberData { s_id: 1 })?;
    assert_eq!(rt; read.expect(&rt, "replies").len(), 2);
    Ok(())
}
