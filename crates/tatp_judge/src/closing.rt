//! Whether a window's calls are explained, and up to which line.
ghost use Rattle.std.specs.Prelude.{◌≡◌, ◌⊎◌, ℕ, ◌<◌, [], ◌∷◌, IfOk, IfSome, OnOk, Ok, List, length};
ghost use Rattle.tatp_tables.specs.Database.{Database};
ghost use Rattle.tatp_calls.specs.Arguments.{arguments_accepted};
ghost use Rattle.tatp_history.specs.declared.line.Line.{Line as ALine};
ghost use Rattle.tatp_linearization.specs.Single.{IsSingle, events_alone};
ghost use Rattle.tatp_judge.specs.Steps.{Closes};
ghost use Rattle.tatp_judge.specs.Windows.{IsForgotten, IsWindowAfter, IsFirstOf, only_reply};

use crate::legal::OnlyReply;
use crate::window::Window;
use std::alloc::{AllocError, Global};
use tatp_calls::Reply;
use tatp_history::{Event, Observed};
use tatp_linearization::{First, Standing};

/// The call, where the events are its ask and, in the line of this number, its answer.
fn alone(events: &[Event], number: u64) -> Option<Observed>
    ensures { IfSome result (λ x. events.now ≡ events_alone x number) }
{
    if events.len() == 2 {
        if let Event::Asks(x) = &events[0] {
            if let Event::Ends { asked, at } = &events[1] {
                if *asked == x.asked && *at == number {
                    return Some(*x);
                }
            }
        }
    }
    None
}

impl Window {
    /// The line of this number is the last before the next window.
    fn forget(&mut self, alloc: Global, number: u64)
        ensures forgotten { IsForgotten self.new }
        ensures from { self.new.from ≡ number }
        ensures waiting { self.new.waiting ≡ self.old.waiting }
        ensures explanations { self.new.explanations ≡ self.old.explanations }
        ensures aside { self.new.aside ≡ self.old.aside }
    {
        self.events = Vec::new(alloc);
        self.numbers = Vec::new(alloc);
        self.from = number;
    }

    /// Of the events nothing is kept but the call and the only reply that it could have got.
    fn keep_only(&mut self, alloc: Global, x: &Observed, reply: &Reply) -> Result<(), AllocError>
        ensures events { self.new.events.items ≡ [] }
        ensures only { OnOk result (self.new.only.items ≡ only_reply x.now reply.now ∷ []) }
        ensures from { self.new.from ≡ self.old.from }
        ensures numbers { self.new.numbers.items ≡ self.old.numbers.items }
        ensures explanations { self.new.explanations ≡ self.old.explanations }
        ensures aside { self.new.aside ≡ self.old.aside }
        ensures waiting { self.new.waiting ≡ self.old.waiting }
    {
        self.events = Vec::new(alloc);
        let mut only = Vec::new(alloc);
        only.push(OnlyReply {
            call: x.call,
            reply: *reply,
        })?;
        self.only = only;
        Ok(())
    }

    /// Follows a call that overlaps no other, and is answered in the line of this number. It does
    /// so in place.
    fn follow_one(
        &mut self,
        alloc: Global,
        x: &Observed,
        number: u64,
    ) -> Result<Standing, AllocError>
        requires single { IsSingle self.old.explanations }
        requires alone { self.old.events.items ≡ events_alone x.now number }
        requires accepted { arguments_accepted x.now.call ≡ Ok tt }
        requires none { self.old.waiting ≡ 0 }
        ensures closes { IfOk result (λ standing. Closes number standing self.old self.new) }
        ensures exact { self.new.explanations.exact ≡ self.old.explanations.exact }
        ensures aside { self.new.aside ≡ self.old.aside }
        ensures waiting { self.new.waiting ≡ self.old.waiting }
    {
        let mut reply = Reply::Refused;
        let fits = self.explanations.follow_alone(x, &mut reply);
        if fits {
            self.forget(alloc, number);
            Ok(Standing::Explained)
        } else {
            self.keep_only(alloc, x, &reply)?;
            Ok(Standing::Unexplained)
        }
    }

    /// Follows the events, if an order explains the calls up to now.
    fn follow_all(&mut self, alloc: Global, number: u64) -> Result<Standing, AllocError>
        requires window { (u : Database) × (most : ℕ) × (s : ℕ) × (lines : List ALine)
            × IsWindowAfter u most s lines self.old }
        requires some { 0 < length self.old.events.items }
        requires none { self.old.waiting ≡ 0 }
        ensures closes { IfOk result (λ standing. Closes number standing self.old self.new) }
        ensures exact { self.new.explanations.exact ≡ self.old.explanations.exact }
        ensures aside { self.new.aside ≡ self.old.aside }
        ensures waiting { self.new.waiting ≡ self.old.waiting }
    {
        match self.explanations.follow(alloc, self.events.as_slice())? {
            Standing::Explained => {
                self.forget(alloc, number);
                Ok(Standing::Explained)
            }
            Standing::Unexplained => Ok(Standing::Unexplained),
            Standing::Undecided => Ok(Standing::Undecided),
        }
    }

    /// After the line of this number the window ends, if no call is open.
    pub(crate) fn close(&mut self, alloc: Global, number: u64) -> Result<Standing, AllocError>
        requires { (u : Database) × (most : ℕ) × (s : ℕ) × (lines : List ALine)
            × IsWindowAfter u most s lines self.old }
        ensures closes { IfOk result (λ standing. Closes number standing self.old self.new) }
        ensures exact { self.new.explanations.exact ≡ self.old.explanations.exact }
        ensures aside { self.new.aside ≡ self.old.aside }
        ensures waiting { self.new.waiting ≡ self.old.waiting }
    {
        if self.waiting > 0 {
            return Ok(Standing::Explained);
        }
        if self.events.is_empty() {
            self.forget(alloc, number);
            return Ok(Standing::Explained);
        }
        if self.explanations.is_single() {
            if let Some(x) = alone(self.events.as_slice(), number) {
                return self.follow_one(alloc, &x, number);
            }
        }
        self.follow_all(alloc, number)
    }

    /// The first line, up to that of this number, by which the calls are unexplained.
    pub(crate) fn first_unexplained(&self, alloc: Global, number: u64) -> Result<First, AllocError>
        requires { (self.now.events.items ≡ [])
            ⊎ ((u : Database) × (most : ℕ) × (s : ℕ) × (lines : List ALine)
            × IsWindowAfter u most s lines self.now × (number ≡ length lines)) }
        ensures first { IfOk result (λ first. (u : Database) (most s : ℕ) (lines : List ALine)
            → IsWindowAfter u most s lines self.now → number ≡ length lines
            → IsFirstOf u most s lines first) }
        ensures spent { self.now.events.items ≡ [] → result ≡ Ok First.Never }
    {
        if self.events.is_empty() {
            return Ok(First::Never);
        }
        self.explanations
            .first_unexplained(alloc, self.events.as_slice(), self.from, number)
    }
}
