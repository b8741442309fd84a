//! The first time by which no order explains calls any more.
ghost use Rattle.std.specs.Prelude.{◌≡◌, ℕ, ◌+◌, ◌<◌, ◌≤◌, Ok, List, ◌++◌};
ghost use Rattle.std.specs.List.{AllByRecursion};
ghost use Rattle.tatp_tables.specs.Database.{Database};
ghost use Rattle.tatp_history.specs.declared.event.Event.{Event};
ghost use Rattle.tatp_history.specs.Histories.{IsStrictlySerializable};
ghost use Rattle.tatp_history.specs.Prefixes.{calls_by};
ghost use Rattle.tatp_history.specs.Events.{AreAfter, TimesRise, HaveEnds, asked_in};
ghost use Rattle.tatp_linearization.specs.Possible.{NeedMore};
ghost use Rattle.tatp_linearization.specs.Held.{IsAcceptedEvent};
ghost use Rattle.tatp_linearization.specs.Reached.{AreReached};
ghost use Rattle.tatp_linearization.specs.Cut.{events_by as events_then, AreWindow};

use crate::cut::events_by;
use crate::explanations::{Explanations, Standing};
use std::alloc::{AllocError, Global};
use tatp_history::Event;

/// When calls are first unexplained.
#[derive(Clone, Copy, Debug, PartialEq, Eq)]
pub enum First {
    /// They are explained up to the time that was asked for.
    Never,
    /// At this time: they are explained up to the time before.
    At(u64),
    /// It isn't known, since more configurations are possible than may be kept.
    Undecided,
}

impl Explanations {
    /// Whether an order explains the calls up to a time within a window.
    fn explain_by(&self, alloc: Global, events: &[Event], time: u64) -> Result<Standing, AllocError>
        requires reached { (u : Database) × (past : List Event) × AreReached u past self.now }
        requires accepted { AllByRecursion IsAcceptedEvent events.now }
        ensures explained { result ≡ Ok Standing.Explained → (u : Database) (past : List Event)
            → AreReached u past self.now → AreWindow past events.now
            → IsStrictlySerializable u (asked_in past ++ calls_by time (asked_in events.now)) }
        ensures unexplained { result ≡ Ok Standing.Unexplained → (u : Database)
            (past : List Event) → AreReached u past self.now → AreWindow past events.now
            → IsStrictlySerializable u (asked_in past ++ calls_by time (asked_in events.now)) → ⊥ }
        ensures undecided { result ≡ Ok Standing.Undecided → (u : Database) (past : List Event)
            → AreReached u past self.now
            → NeedMore self.now.most u (past ++ events_then time events.now) }
    {
        let cut = events_by(alloc, events, time)?;
        self.explain(alloc, cut.as_slice())
    }

    /// The first time, after one before the window and up to another, by which no order explains
    /// the calls.
    pub fn first_unexplained(
        &self,
        alloc: Global,
        events: &[Event],
        from: u64,
        by: u64,
    ) -> Result<First, AllocError>
        requires reached { (u : Database) × (past : List Event) × AreReached u past self.now }
        requires accepted { AllByRecursion IsAcceptedEvent events.now }
        requires after { AreAfter from events.now }
        requires times { from < by }
        ensures never { result ≡ Ok First.Never → (u : Database) (past : List Event)
            → AreReached u past self.now → AreWindow past events.now
            → IsStrictlySerializable u (asked_in past ++ calls_by by (asked_in events.now)) }
        ensures explained { (before : ℕ) → result ≡ Ok (First.At (before + 1)) → (u : Database)
            (past : List Event) → AreReached u past self.now → AreWindow past events.now
            → IsStrictlySerializable u (asked_in past ++ calls_by before (asked_in events.now)) }
        ensures unexplained { (time : ℕ) → result ≡ Ok (First.At time) → (u : Database)
            (past : List Event) → AreReached u past self.now → AreWindow past events.now
            → IsStrictlySerializable u (asked_in past ++ calls_by time (asked_in events.now)) → ⊥ }
        ensures within { (time : ℕ) → result ≡ Ok (First.At time) → (from < time) × (time ≤ by) }
        ensures undecided { result ≡ Ok First.Undecided → (u : Database) (past : List Event)
            → AreReached u past self.now
            → (time : ℕ) × NeedMore self.now.most u (past ++ events_then time events.now) }
    {
        match self.explain_by(alloc, events, by)? {
            Standing::Explained => return Ok(First::Never),
            Standing::Undecided => return Ok(First::Undecided),
            Standing::Unexplained => {}
        }
        let mut explained = from;
        let mut unexplained = by;
        'halves: for i in from..by {
            if unexplained - explained == 1 {
                return Ok(First::At(unexplained));
            }
            let middle = explained + (unexplained - explained) / 2;
            match self.explain_by(alloc, events, middle)? {
                Standing::Explained => explained = middle,
                Standing::Unexplained => unexplained = middle,
                Standing::Undecided => return Ok(First::Undecided),
            }
        }
        Ok(First::At(unexplained))
    }
}
