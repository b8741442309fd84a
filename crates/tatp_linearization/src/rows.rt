//! Rows that may result from calls, in any order, each any number of times.
ghost use Rattle.std.specs.Prelude.{◌≡◌, ℕ, ◌<◌, ◌≤◌, OnOk, IfOk, IsErrOf, List, ◌∷◌, [], ◌++◌, length, slice_get, Ok, Some};
ghost use Rattle.tatp_calls.specs.declared.call.Call.{Call as Asked};
ghost use Rattle.tatp_calls.specs.Arguments.{arguments_accepted};
ghost use Rattle.tatp_history.specs.Configurations.{Configuration as Seen};
ghost use Rattle.tatp_history.specs.Events.{asked_in};
ghost use Rattle.tatp_linearization.specs.declared.configuration.Configuration.{Configuration as Held};
ghost use Rattle.tatp_linearization.specs.Possible.{AreMoreThan};
ghost use Rattle.tatp_linearization.specs.Held.{AreApart, Has, HoldsOfOne, StandFirst, seen};
ghost use Rattle.tatp_linearization.specs.Legal.{IsAmong, MayLeave, all_calls, calls_in};
ghost use Rattle.tatp_linearization.specs.Leaving.{AreAcceptedCalls, AreClosed, AreFrom, left_by as left, without_calls as bare};

use crate::configuration::{Configuration, add_once};
use crate::stopped::Stopped;
use std::alloc::{AllocError, Global};
use tatp_calls::{Call, Reply};
use tatp_evaluation::evaluate;
use tatp_history::{Event, Observed};

/// Adds the calls of these, in their order.
fn add_calls(calls: &mut Vec<Call>, opened: &[Observed]) -> Result<(), AllocError>
    ensures { OnOk result (calls.new.items ≡ calls.old.items ++ calls_in opened.now) }
{
    'calls: for i in 0..opened.len() {
        calls.push(opened[i].call)?;
    }
    Ok(())
}

fn add_event(calls: &mut Vec<Call>, event: &Event) -> Result<(), AllocError>
    ensures { OnOk result (calls.new.items
        ≡ calls.old.items ++ calls_in (asked_in (event.now ∷ []))) }
{
    match event {
        Event::Asks(x) => {
            calls.push(x.call)?;
            Ok(())
        }
        Event::Ends { .. } => Ok(()),
    }
}

/// The calls that are open in the configurations, and then those of a window.
pub(crate) fn calls_of(
    alloc: Global,
    set: &[Configuration],
    events: &[Event],
) -> Result<Vec<Call>, AllocError>
    ensures { IfOk result (λ calls. calls.items ≡ all_calls set.now events.now) }
{
    let mut calls = Vec::new(alloc);
    'configurations: for i in 0..set.len() {
        add_calls(&mut calls, set[i].opened.as_slice())?;
    }
    'events: for i in 0..events.len() {
        add_event(&mut calls, &events[i])?;
    }
    Ok(calls)
}

/// The configuration's rows, with no call open.
fn without_calls(alloc: Global, c: &Configuration) -> Configuration
    ensures bare { seen result ≡ bare (seen c.now) }
    ensures own { result.home.s_id ≡ c.now.home.s_id }
{
    Configuration {
        home: c.home.copy(),
        opened: Vec::new(alloc),
        overwritten: 0,
    }
}

/// The rows after a call runs on a configuration's rows, with no call open.
fn left_by(alloc: Global, c: &Configuration, call: &Call) -> Configuration
    requires { arguments_accepted call.now ≡ Ok tt }
    ensures left { seen result ≡ left call.now (seen c.now) }
    ensures own { result.home.s_id ≡ c.now.home.s_id }
{
    let mut home = c.home.copy();
    let mut reply = Reply::Refused;
    evaluate(&mut home, call, &mut reply);
    Configuration {
        home,
        opened: Vec::new(alloc),
        overwritten: 0,
    }
}

/// Adds the rows that each of the calls makes of those at a place of the set.
fn add_left(
    alloc: Global,
    set: &mut Vec<Configuration>,
    place: usize,
    calls: &[Call],
    most: usize,
) -> Result<(), Stopped>
    requires inside { place < length set.old.items }
    requires accepted { AreAcceptedCalls calls.now }
    ensures first { OnOk result (StandFirst set.old.items set.new.items) }
    ensures left { OnOk result ((c : Held) → slice_get set.old.items place ≡ Some c
        → (call : Asked) → IsAmong call calls.now → Has set.new.items (left call (seen c))) }
    ensures from { OnOk result ((first : List Held)
        → AreFrom calls.now first set.old.items → AreFrom calls.now first set.new.items) }
    ensures apart { OnOk result ((s : ℕ) → AreApart s set.old.items → AreApart s set.new.items) }
    ensures room { OnOk result (length set.old.items ≤ most → length set.new.items ≤ most) }
    ensures many { IsErrOf result Stopped.MoreThanMost → (s : ℕ) → AreApart s set.old.items
        → (first : List Held) → AreFrom calls.now first set.old.items
        → AreMoreThan most (HoldsOfOne (MayLeave calls.now) first) }
{
    'calls: for i in 0..calls.len() {
        let d = left_by(alloc, &set[place], &calls[i]);
        add_once(set, d, most)?;
    }
    Ok(())
}

/// The rows of configurations, each once.
fn all_without_calls(
    alloc: Global,
    set: &[Configuration],
    most: usize,
) -> Result<Vec<Configuration>, Stopped>
    ensures starts { IfOk result (λ rows. (c : Seen) → Has set.now c
        → Has rows.items (bare c)) }
    ensures from { IfOk result (λ rows. (calls : List Asked) → AreFrom calls set.now rows.items) }
    ensures apart { IfOk result (λ rows. (s : ℕ) → AreApart s set.now → AreApart s rows.items) }
    ensures room { IfOk result (λ rows. length rows.items ≤ most) }
    ensures many { IsErrOf result Stopped.MoreThanMost → (s : ℕ) → AreApart s set.now
        → (calls : List Asked) → AreMoreThan most (HoldsOfOne (MayLeave calls) set.now) }
{
    let mut rows = Vec::new(alloc);
    'configurations: for i in 0..set.len() {
        let d = without_calls(alloc, &set[i]);
        add_once(&mut rows, d, most)?;
    }
    Ok(rows)
}

/// The rows that the calls may make of those of the configurations, each once. `Err` means that
/// there are more than `most`, or that memory was refused.
pub(crate) fn rows_left(
    alloc: Global,
    set: &[Configuration],
    calls: &[Call],
    most: usize,
) -> Result<Vec<Configuration>, Stopped>
    requires accepted { AreAcceptedCalls calls.now }
    ensures starts { IfOk result (λ rows. (c : Seen) → Has set.now c
        → Has rows.items (bare c)) }
    ensures closed { IfOk result (λ rows. AreClosed calls.now rows.items) }
    ensures many { IsErrOf result Stopped.MoreThanMost → (s : ℕ) → AreApart s set.now
        → AreMoreThan most (HoldsOfOne (MayLeave calls.now) set.now) }
{
    let mut rows = all_without_calls(alloc, set, most)?;
    'rows: for i in 0..most {
        if i >= rows.len() {
            return Ok(rows);
        }
        add_left(alloc, &mut rows, i, calls, most)?;
    }
    Ok(rows)
}
