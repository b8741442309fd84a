//! What is known of a window's events before the search follows them.
ghost use Rattle.std.specs.Prelude.{◌≡◌, ◌≤◌, ◌↔◌, ℕ, ◌⊎◌, ◌++◌, ◌∷◌, [], IsTrue, IfOk, OnOk, Some, false, List, nat_eq};
ghost use Rattle.indexmap.specs.IndexMap.{get};
ghost use Rattle.tatp_history.specs.declared.event.Event.{Event as AnEvent};
ghost use Rattle.tatp_history.specs.declared.event.Event.TheVariants.{Asks};
ghost use Rattle.tatp_history.specs.Events.{time_of as time_then};
ghost use Rattle.tatp_linearization.specs.Unseen.{HasSetLocation, location_in, location_of as location_then};
ghost use Rattle.tatp_linearization.specs.Doomed.{sets_location as sets};
ghost use Rattle.tatp_linearization.specs.Ahead.{IsAheadOf, IsAnsweredBy, IsReplacedAfter, NotesRead, RaisesTimes, SawOtherAfter, Tells, TellsNothing, times_in};

use crate::locations::{has_set_location, location_of, location_seen};
use indexmap::IndexMap;
use std::alloc::{AllocError, Global};
use tatp_history::{Event, Observed, Outcome};

/// A window with at most this many events is searched in less time than noting its locations takes.
const FEW: usize = 24;

const NO_READ: LastRead = LastRead {
    location: 0,
    asked: 0,
};

/// The last times at which calls of a window are asked, of three kinds; 0 where there is none.
#[derive(Clone, Copy, Debug)]
pub(crate) struct Times {
    /// Reads that saw the location.
    pub(crate) read: u64,
    /// Those of them that end in the window.
    pub(crate) ended: u64,
    /// Updates that set the location.
    pub(crate) set: u64,
}

/// A read of the subscriber; both fields are 0 where there is none.
#[derive(Clone, Copy, Debug)]
pub(crate) struct LastRead {
    /// The location that it saw.
    pub(crate) location: u64,
    /// The time at which it is asked.
    pub(crate) asked: u64,
}

/// What is known in advance of a window's events.
#[derive(Drop)]
pub(crate) struct Ahead {
    /// Of each location that is seen or set.
    pub(crate) locations: IndexMap<u64, Times>,
    /// When the last update of the location is asked that ends in the window, and doesn't fail.
    pub(crate) last_update: u64,
    /// The last read that saw a location, and ends in the window.
    pub(crate) last_read: LastRead,
    /// One before it, that saw another location.
    pub(crate) other_read: LastRead,
    /// The time of the window's last event.
    pub(crate) last: u64,
}

/// Nothing is known of a window whose last event has this time.
fn nothing(alloc: Global, last: u64) -> Ahead
    ensures last { result.last ≡ last }
    ensures nothing { last ≡ 0 → TellsNothing result }
    ensures none { Tells [] result }
{
    Ahead {
        locations: IndexMap::new(alloc),
        last_update: 0,
        last_read: NO_READ,
        other_read: NO_READ,
        last,
    }
}

/// The times of a location.
pub(crate) fn times_of(ahead: &Ahead, location: u64) -> Times
    ensures { result ≡ times_in ahead.now location }
{
    match ahead.locations.get(&location) {
        Some(times) => *times,
        None => Times {
            read: 0,
            ended: 0,
            set: 0,
        },
    }
}

/// The later of two times.
fn later(time: u64, other: u64) -> u64
    ensures first { time ≤ result }
    ensures second { other ≤ result }
    ensures one { (result ≡ time) ⊎ (result ≡ other) }
{
    if time < other { other } else { time }
}

/// Whether a read saw another location, and is asked after a time.
fn saw_other_after(read: &LastRead, location: u64, time: u64) -> bool
    ensures { IsTrue result → SawOtherAfter location time read.now }
{
    read.location != location && time < read.asked
}

/// Whether the location has been replaced by the time that some call asked later takes effect.
pub(crate) fn is_replaced_after(ahead: &Ahead, location: u64, time: u64) -> bool
    ensures { IsTrue result → IsReplacedAfter ahead.now location time }
{
    time < ahead.last_update
        || saw_other_after(&ahead.last_read, location, time)
        || saw_other_after(&ahead.other_read, location, time)
}

/// Whether a call was answered by this time.
pub(crate) fn is_answered_by(outcome: &Outcome, time: u64) -> bool
    ensures { IsTrue result ↔ IsAnsweredBy time outcome.now }
{
    match outcome {
        Outcome::Answered { at, .. } => *at <= time,
        _ => false,
    }
}

/// The times of a location once a read is asked that saw it.
fn with_read(times: Times, x: &Observed, last: u64) -> Times
    requires saw { (location : ℕ) × (location_in x.now ≡ Some location) }
    requires reads { (location : ℕ) → sets location x.now.call ≡ false }
    ensures { RaisesTimes last x.now times result }
{
    let ended = if is_answered_by(&x.outcome, last) {
        later(times.ended, x.asked)
    } else {
        times.ended
    };
    Times {
        read: later(times.read, x.asked),
        ended,
        set: times.set,
    }
}

/// The times of a location once a call is asked that saw or sets it.
fn with_call(times: Times, x: &Observed, last: u64) -> Times
    ensures { RaisesTimes last x.now times result }
{
    if location_seen(x).is_some() {
        return with_read(times, x, last);
    }
    Times {
        read: times.read,
        ended: times.ended,
        set: later(times.set, x.asked),
    }
}

/// Notes the times of the location that a call saw, or sets.
fn add_times(ahead: &mut Ahead, x: &Observed) -> Result<(), AllocError>
    ensures own { OnOk result ((location : ℕ) → location_then x.now ≡ Some location
        → RaisesTimes ahead.old.last x.now (times_in ahead.old location)
        (times_in ahead.new location)) }
    ensures others { OnOk result ((location : ℕ) → (location_then x.now ≡ Some location → ⊥)
        → times_in ahead.new location ≡ times_in ahead.old location) }
    ensures same { OnOk result (ahead.new ≡ record ahead.old { locations = ahead.new.locations }) }
{
    match location_of(x) {
        Some(location) => {
            let times = with_call(times_of(ahead, location), x, ahead.last);
            ahead.locations.insert(location, times)?;
            Ok(())
        }
        None => Ok(()),
    }
}

/// Notes a read of the subscriber as the last. The one before stays, if it saw another location.
fn add_read(ahead: &mut Ahead, x: &Observed)
    requires ended { IsAnsweredBy ahead.old.last x.now.outcome }
    ensures read { NotesRead x.now ahead.old ahead.new }
    ensures same { ahead.new ≡ record ahead.old {
      last_read = ahead.new.last_read;
      other_read = ahead.new.other_read;
    } }
{
    match location_seen(x) {
        Some(location) => {
            if ahead.last_read.location != location {
                ahead.other_read = ahead.last_read;
            }
            ahead.last_read = LastRead {
                location,
                asked: x.asked,
            };
        }
        None => {}
    }
}

/// Notes a call that ends in the window as the last update of the location, or the last read.
fn add_last(ahead: &mut Ahead, x: &Observed)
    ensures same { ahead.new.locations ≡ ahead.old.locations }
    ensures last { ahead.new.last ≡ ahead.old.last }
    ensures update { (ahead.new.last_update ≡ ahead.old.last_update)
        ⊎ ((ahead.new.last_update ≡ x.now.asked) × HasSetLocation x.now
        × IsAnsweredBy ahead.old.last x.now.outcome) }
    ensures read { NotesRead x.now ahead.old ahead.new }
{
    if !is_answered_by(&x.outcome, ahead.last) {
        return;
    }
    if has_set_location(x) {
        ahead.last_update = later(ahead.last_update, x.asked);
    } else {
        add_read(ahead, x);
    }
}

/// Notes an event of the window.
fn add_event(ahead: &mut Ahead, event: &Event) -> Result<(), AllocError>
    ensures more { OnOk result ((past : List AnEvent) → Tells past ahead.old
        → Tells (past ++ event.now ∷ []) ahead.new) }
    ensures last { OnOk result (ahead.new.last ≡ ahead.old.last) }
{
    match event {
        Event::Asks(x) => {
            add_times(ahead, x)?;
            add_last(ahead, x);
            Ok(())
        }
        Event::Ends { .. } => Ok(()),
    }
}

/// The time of an event.
fn time_of(event: &Event) -> u64
    ensures { result ≡ time_then event.now }
{
    match event {
        Event::Asks(x) => x.asked,
        Event::Ends { at, .. } => *at,
    }
}

/// What is known in advance of the events of a window: nothing, where they are few.
pub(crate) fn look_ahead(alloc: Global, events: &[Event]) -> Result<Ahead, AllocError>
    ensures { IfOk result (IsAheadOf events.now) }
{
    if events.len() <= FEW {
        return Ok(nothing(alloc, 0));
    }
    let mut ahead = nothing(alloc, time_of(&events[events.len() - 1]));
    'events: for i in 0..events.len() {
        add_event(&mut ahead, &events[i])?;
    }
    Ok(ahead)
}
