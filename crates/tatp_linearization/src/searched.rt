//! What is searched in the place of what clients saw: unless the rows at the end may be asked for,
//! the history with data_a cleared.
ghost use Rattle.std.specs.Prelude.{◌≡◌, false, IfOk, Ok};
ghost use Rattle.tatp_calls.specs.Arguments.{arguments_accepted};
ghost use Rattle.tatp_history.specs.Cleared.{bit_alone as alone, cleared_call as call_cleared, cleared_event as event_cleared, cleared_events as all_cleared, first_type as first_of};
ghost use Rattle.tatp_linearization.specs.Searched.{IsSearchedFrom, searched_call as call_searched, searched_events as all_searched};

use std::alloc::{AllocError, Global};
use tatp_calls::Call;
use tatp_history::{Event, Observed};
use tatp_homes::{Home, what_holds_of_every_home};

/// The column of a Special_Facility row that no transaction reads.
const DATA_A: u8 = 44;

/// The least type of which the subscriber has a facility.
fn first_type(home: &Home, s_id: u64) -> Option<u64>
    ensures { result ≡ first_of home.now.tables.facilities s_id }
{
    if home.has_facility(s_id, 1) {
        return Some(1);
    }
    if home.has_facility(s_id, 2) {
        return Some(2);
    }
    if home.has_facility(s_id, 3) {
        return Some(3);
    }
    if home.has_facility(s_id, 4) {
        return Some(4);
    }
    None
}

/// The call that sets bit_1 alone, in the place of this one, where the subscriber has a facility.
fn bit_alone(home: &Home, call: &Call, s_id: u64, bit_1: u64) -> Call
    ensures { result
        ≡ alone call.now s_id bit_1 (first_of home.now.tables.facilities s_id) }
{
    match first_type(home, s_id) {
        Some(first) => Call::UpdateSubscriberData {
            s_id,
            bit_1,
            sf_type: first,
            data_a: 0,
        },
        None => *call,
    }
}

/// A call that sets bit_1 and data_a of a facility that is there sets bit_1 alone.
fn cleared_call(home: &Home, call: &Call) -> Call
    ensures { result ≡ call_cleared home.now.tables.facilities call.now }
{
    match *call {
        Call::UpdateSubscriberData {
            s_id,
            bit_1,
            sf_type,
            ..
        } => {
            if !home.has_facility(s_id, sf_type) {
                return *call;
            }
            bit_alone(home, call, s_id, bit_1)
        }
        _ => *call,
    }
}

fn cleared_event(home: &Home, event: &Event) -> Event
    ensures { result ≡ event_cleared home.now.tables.facilities event.now }
{
    match event {
        Event::Asks(x) => Event::Asks(Observed {
            asked: x.asked,
            call: cleared_call(home, &x.call),
            outcome: x.outcome,
        }),
        Event::Ends { asked, at } => Event::Ends {
            asked: *asked,
            at: *at,
        },
    }
}

fn cleared_events(alloc: Global, home: &Home, events: &[Event]) -> Result<Vec<Event>, AllocError>
    ensures { IfOk result (λ told. told.items
        ≡ all_cleared home.now.tables.facilities events.now) }
{
    let mut told = Vec::with_capacity(alloc, events.len())?;
    'events: for i in 0..events.len() {
        told.push(cleared_event(home, &events[i]))?;
    }
    Ok(told)
}

/// The call as it is searched where the subscriber has these facilities.
pub(crate) fn searched_call(exact: bool, home: &Home, call: &Call) -> Call
    ensures searched { result ≡ call_searched exact home.now.tables.facilities call.now }
    ensures accepted { arguments_accepted call.now ≡ Ok tt → arguments_accepted result ≡ Ok tt }
{
    if exact {
        *call
    } else {
        cleared_call(home, call)
    }
}

/// The events as they are searched where the subscriber has these facilities.
pub(crate) fn searched_events(
    alloc: Global,
    exact: bool,
    home: &Home,
    events: &[Event],
) -> Result<Vec<Event>, AllocError>
    ensures { IfOk result (λ told. told.items
        ≡ all_searched exact home.now.tables.facilities events.now) }
{
    if exact {
        Vec::from_slice(alloc, events)
    } else {
        cleared_events(alloc, home, events)
    }
}

/// The home with data_a of its first facility set to 0.
fn cleared_home(home: &Home) -> Home
    ensures from { IsSearchedFrom false home.now.tables result.tables }
    ensures own { result.s_id ≡ home.now.s_id }
{
    what_holds_of_every_home(home);
    let mut cleared = home.copy();
    let s_id = home.s_id();
    match first_type(home, s_id) {
        Some(first) => {
            let _ = cleared.put(DATA_A, [s_id, first, 0], 0);
            cleared
        }
        None => cleared,
    }
}

/// The home with which the search begins.
pub(crate) fn searched_home(exact: bool, home: &Home) -> Home
    ensures from { IsSearchedFrom exact home.now.tables result.tables }
    ensures own { result.s_id ≡ home.now.s_id }
{
    if exact {
        home.copy()
    } else {
        cleared_home(home)
    }
}
