//! What explains the calls of one subscriber, window by window.
ghost use Rattle.std.specs.Prelude.{◌≡◌, ◌↔◌, ℕ, IsTrue, IfOk, OnOk, OnErr, IsErrOf, Ok, List, [], ◌∷◌, ◌++◌, ◌<◌, length};
ghost use Rattle.std.specs.List.{AllByRecursion};
ghost use Rattle.tatp_tables.specs.Database.{Database};
ghost use Rattle.tatp_calls.specs.Arguments.{arguments_accepted};
ghost use Rattle.tatp_history.specs.declared.event.Event.{Event};
ghost use Rattle.tatp_history.specs.Histories.{IsStrictlySerializable};
ghost use Rattle.tatp_history.specs.Events.{TimesRise, HaveEnds, asked_in};
ghost use Rattle.tatp_linearization.specs.Possible.{NeedMore};
ghost use Rattle.tatp_linearization.specs.Held.{IsAcceptedEvent, AreApart, AreReady};
ghost use Rattle.tatp_linearization.specs.Reached.{AreKept, AreOfSubscriber, AreReached};
ghost use Rattle.tatp_linearization.specs.Searched.{searched_call as call_searched, searched_events as all_searched};

use crate::ahead::look_ahead;
use crate::configuration::Configuration;
use crate::doomed::drop_doomed;
use crate::following::{after_event, leaves_all};
use crate::searched::{searched_call, searched_events, searched_home};
use crate::stopped::Stopped;
use std::alloc::{AllocError, Global};
use tatp_calls::Call;
use tatp_history::Event;
use tatp_homes::Home;

/// Whether a serial order explains calls.
#[derive(Clone, Copy, Debug, PartialEq, Eq)]
pub enum Standing {
    /// A serial order explains them.
    Explained,
    /// No serial order explains them.
    Unexplained,
    /// It isn't known, since more configurations are possible than may be kept.
    Undecided,
}

/// The configurations that explain a subscriber's events so far: in each of them all calls that
/// were answered have taken effect.
#[derive(Drop)]
pub struct Explanations {
    pub(crate) configurations: Vec<Configuration>,
    /// The most configurations that may be kept.
    pub(crate) most: usize,
    /// Whether the rows at the end may be asked for. Else data_a is cleared, which no transaction
    /// reads: all updates of data that set one bit are the same call then.
    pub(crate) exact: bool,
}

/// The configurations to which events lead.
fn after_events(
    alloc: Global,
    set: &[Configuration],
    events: &[Event],
    most: usize,
) -> Result<Vec<Configuration>, Stopped>
    requires some { 0 < length events.now }
    requires accepted { AllByRecursion IsAcceptedEvent events.now }
    requires ready { AreReady set.now }
    ensures kept { IfOk result (λ after. (u : Database) (past : List Event)
        → AreKept u past set.now → AreKept u (past ++ events.now) after.items) }
    ensures apart { IfOk result (λ after. (s : ℕ) → AreApart s set.now
        → AreApart s after.items) }
    ensures many { IsErrOf result Stopped.MoreThanMost → (u : Database) (past : List Event)
        → AreKept u past set.now → NeedMore most u (past ++ events.now) }
{
    let ahead = look_ahead(alloc, events)?;
    let mut after = after_event(alloc, set, &events[0], &ahead, most)?;
    'events: for i in 1..events.len() {
        let event = &events[i];
        if !leaves_all(after.as_slice(), event) {
            let next = after_event(alloc, after.as_slice(), event, &ahead, most)?;
            after = next;
            drop_doomed(&mut after, event, events, i + 1);
        }
    }
    Ok(after)
}

impl Explanations {
    /// What explains no event: this home alone. At most `most` configurations will be kept.
    /// `exact` says whether the rows at the end may be asked for.
    pub fn new(
        alloc: Global,
        home: &Home,
        most: usize,
        exact: bool,
    ) -> Result<Explanations, AllocError>
        ensures reached { IfOk result (AreReached home.now.tables []) }
        ensures own { IfOk result (AreOfSubscriber home.now.s_id) }
        ensures most { IfOk result (λ explanations. explanations.most ≡ most) }
        ensures exact { IfOk result (λ explanations. explanations.exact ≡ exact) }
    {
        let mut configurations = Vec::new(alloc);
        configurations.push(Configuration {
            home: searched_home(exact, home),
            opened: Vec::new(alloc),
            overwritten: 0,
        })?;
        Ok(Explanations {
            configurations,
            most,
            exact,
        })
    }

    /// The call as it is searched.
    pub(crate) fn searched_call(&self, call: &Call) -> Call
        requires some { 0 < length self.now.configurations.items }
        ensures searched { (u : Database) (past : List Event) (reached : AreReached u past self.now)
            → result ≡ call_searched self.now.exact reached.from.facilities call.now }
        ensures accepted { arguments_accepted call.now ≡ Ok tt
            → arguments_accepted result ≡ Ok tt }
    {
        searched_call(self.exact, &self.configurations[0].home, call)
    }

    /// The events as they are searched.
    pub(crate) fn searched(&self, alloc: Global, events: &[Event]) -> Result<Vec<Event>, AllocError>
        requires some { 0 < length self.now.configurations.items }
        ensures searched { IfOk result (λ told. (u : Database) (past : List Event)
            (reached : AreReached u past self.now) → told.items
            ≡ all_searched self.now.exact reached.from.facilities events.now) }
        ensures accepted { IfOk result (λ told. AllByRecursion IsAcceptedEvent events.now
            → AllByRecursion IsAcceptedEvent told.items) }
        ensures count { IfOk result (λ told. length told.items ≡ length events.now) }
    {
        searched_events(alloc, self.exact, &self.configurations[0].home, events)
    }

    /// No configuration is kept any more.
    pub fn release(&mut self, alloc: Global)
        ensures { self.new.configurations.items ≡ [] }
    {
        self.configurations = Vec::new(alloc);
    }

    /// Whether an order explains all calls up to the end of a window of events.
    pub fn explain(&self, alloc: Global, events: &[Event]) -> Result<Standing, AllocError>
        requires reached { (u : Database) × (past : List Event) × AreReached u past self.now }
        requires accepted { AllByRecursion IsAcceptedEvent events.now }
        ensures explained { result ≡ Ok Standing.Explained → (u : Database) (past : List Event)
            → AreReached u past self.now
            → TimesRise (past ++ events.now) → HaveEnds (past ++ events.now)
            → IsStrictlySerializable u (asked_in (past ++ events.now)) }
        ensures unexplained { result ≡ Ok Standing.Unexplained → (u : Database)
            (past : List Event) → AreReached u past self.now
            → TimesRise (past ++ events.now) → HaveEnds (past ++ events.now)
            → IsStrictlySerializable u (asked_in (past ++ events.now)) → ⊥ }
        ensures undecided { result ≡ Ok Standing.Undecided → (u : Database) (past : List Event)
            → AreReached u past self.now → NeedMore self.now.most u (past ++ events.now) }
    {
        if events.is_empty() {
            return Ok(Standing::Explained);
        }
        let told = self.searched(alloc, events)?;
        match after_events(
            alloc,
            self.configurations.as_slice(),
            told.as_slice(),
            self.most,
        ) {
            Ok(after) => {
                if after.is_empty() {
                    return Ok(Standing::Unexplained);
                }
                Ok(Standing::Explained)
            }
            Err(Stopped::MoreThanMost) => Ok(Standing::Undecided),
            Err(Stopped::NoMemory) => Err(AllocError),
        }
    }

    /// Follows a window of events, if an order explains all calls up to its end.
    pub fn follow(&mut self, alloc: Global, events: &[Event]) -> Result<Standing, AllocError>
        requires reached { (u : Database) × (past : List Event) × AreReached u past self.old }
        requires some { 0 < length events.now }
        requires accepted { AllByRecursion IsAcceptedEvent events.now }
        ensures reached { result ≡ Ok Standing.Explained → (u : Database) (past : List Event)
            → AreReached u past self.old → AreReached u (past ++ events.now) self.new }
        ensures explained { result ≡ Ok Standing.Explained → (u : Database) (past : List Event)
            → AreReached u past self.old
            → TimesRise (past ++ events.now) → HaveEnds (past ++ events.now)
            → IsStrictlySerializable u (asked_in (past ++ events.now)) }
        ensures unexplained { result ≡ Ok Standing.Unexplained → (u : Database)
            (past : List Event) → AreReached u past self.old
            → TimesRise (past ++ events.now) → HaveEnds (past ++ events.now)
            → IsStrictlySerializable u (asked_in (past ++ events.now)) → ⊥ }
        ensures undecided { result ≡ Ok Standing.Undecided → (u : Database) (past : List Event)
            → AreReached u past self.old → NeedMore self.old.most u (past ++ events.now) }
        ensures own { (s : ℕ) → AreOfSubscriber s self.old → AreOfSubscriber s self.new }
        ensures same { (result ≡ Ok Standing.Explained → ⊥) → self.new ≡ self.old }
        ensures most { self.new.most ≡ self.old.most }
        ensures exact { self.new.exact ≡ self.old.exact }
    {
        let told = self.searched(alloc, events)?;
        match after_events(
            alloc,
            self.configurations.as_slice(),
            told.as_slice(),
            self.most,
        ) {
            Ok(after) => {
                if after.is_empty() {
                    return Ok(Standing::Unexplained);
                }
                self.configurations = after;
                Ok(Standing::Explained)
            }
            Err(Stopped::MoreThanMost) => Ok(Standing::Undecided),
            Err(Stopped::NoMemory) => Err(AllocError),
        }
    }
}
