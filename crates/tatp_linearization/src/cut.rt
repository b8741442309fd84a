//! A window's events up to a time.
ghost use Rattle.std.specs.Prelude.{◌≡◌, IfOk, OnOk, [], ◌∷◌, ◌++◌};
ghost use Rattle.tatp_history.specs.Prefixes.{outcome_by as outcome_then, call_by as call_then};
ghost use Rattle.tatp_linearization.specs.Cut.{events_by as events_then};

use std::alloc::{AllocError, Global};
use tatp_history::{Event, Observed, Outcome};

/// An outcome as it was known at a time: an end that came later wasn't.
fn outcome_by(outcome: &Outcome, time: u64) -> Outcome
    ensures { result ≡ outcome_then time outcome.now }
{
    match *outcome {
        Outcome::Answered { at, recorded } => {
            if at <= time {
                Outcome::Answered { at, recorded }
            } else {
                Outcome::Unknown
            }
        }
        Outcome::Aborted { at } => {
            if at <= time {
                Outcome::Aborted { at }
            } else {
                Outcome::Unknown
            }
        }
        Outcome::Unknown => Outcome::Unknown,
    }
}

fn call_by(x: &Observed, time: u64) -> Observed
    ensures { result ≡ call_then time x.now }
{
    Observed {
        asked: x.asked,
        call: x.call,
        outcome: outcome_by(&x.outcome, time),
    }
}

/// Adds an event, if it had happened by this time.
fn add_by(cut: &mut Vec<Event>, event: &Event, time: u64) -> Result<(), AllocError>
    ensures { OnOk result (cut.new.items ≡ cut.old.items ++ events_then time (event.now ∷ [])) }
{
    match event {
        Event::Asks(x) => {
            if x.asked <= time {
                cut.push(Event::Asks(call_by(x, time)))?;
            }
            Ok(())
        }
        Event::Ends { asked, at } => {
            if *at <= time {
                cut.push(Event::Ends {
                    asked: *asked,
                    at: *at,
                })?;
            }
            Ok(())
        }
    }
}

/// The events that had happened by this time.
pub(crate) fn events_by(
    alloc: Global,
    events: &[Event],
    time: u64,
) -> Result<Vec<Event>, AllocError>
    ensures { IfOk result (λ cut. cut.items ≡ events_then time events.now) }
{
    let mut cut = Vec::new(alloc);
    'events: for i in 0..events.len() {
        add_by(&mut cut, &events[i], time)?;
    }
    Ok(cut)
}
