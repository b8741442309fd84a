//! Calls that overlap no other.
ghost use Rattle.std.specs.Prelude.{◌≡◌, ◌↔◌, ℕ, IsTrue, Ok, List, ◌++◌};
ghost use Rattle.tatp_tables.specs.Database.{Database};
ghost use Rattle.tatp_calls.specs.declared.reply.Reply.{Reply as Replied};
ghost use Rattle.tatp_calls.specs.Arguments.{arguments_accepted};
ghost use Rattle.tatp_history.specs.declared.event.Event.{Event};
ghost use Rattle.tatp_history.specs.Histories.{IsStrictlySerializable, MayHaveReply};
ghost use Rattle.tatp_history.specs.Events.{TimesRise, HaveEnds, asked_in};
ghost use Rattle.tatp_linearization.specs.Reached.{AreOfSubscriber, AreReached};
ghost use Rattle.tatp_linearization.specs.Single.{IsSingle, answered_with, events_alone};

use crate::explanations::Explanations;
use tatp_calls::Reply;
use tatp_evaluation::evaluate;
use tatp_history::Observed;

impl Explanations {
    /// Whether just one configuration is kept, with no call open.
    pub fn is_single(&self) -> bool
        ensures { IsTrue result ↔ IsSingle self.now }
    {
        self.configurations.len() == 1 && self.configurations[0].opened.is_empty()
    }

    /// Follows, in place, a call that is answered before anything else happens. Whether an order
    /// explains the calls up to its end. `reply` becomes the only reply with which one does; where
    /// the call was answered otherwise, there is nothing to continue from.
    pub fn follow_alone(&mut self, x: &Observed, reply: &mut Reply) -> bool
        requires single { IsSingle self.old }
        requires accepted { arguments_accepted x.now.call ≡ Ok tt }
        ensures fits { IsTrue result ↔ MayHaveReply x.now.outcome reply.new }
        ensures reached { IsTrue result → (at : ℕ) (u : Database) (past : List Event)
            → AreReached u past self.old → AreReached u (past ++ events_alone x.now at) self.new }
        ensures explained { (at : ℕ) (u : Database) (past : List Event)
            → AreReached u past self.old
            → TimesRise (past ++ events_alone x.now at) → HaveEnds (past ++ events_alone x.now at)
            → (IsTrue result
            ↔ IsStrictlySerializable u (asked_in (past ++ events_alone x.now at))) }
        ensures only { (at : ℕ) (other : Replied) (u : Database) (past : List Event)
            → AreReached u past self.old
            → TimesRise (past ++ events_alone x.now at) → HaveEnds (past ++ events_alone x.now at)
            → (IsStrictlySerializable u
            (asked_in (past ++ events_alone (answered_with x.now at other) at))
            ↔ (other ≡ reply.new)) }
        ensures own { (s : ℕ) → AreOfSubscriber s self.old → AreOfSubscriber s self.new }
        ensures most { self.new.most ≡ self.old.most }
        ensures exact { self.new.exact ≡ self.old.exact }
    {
        let call = self.searched_call(&x.call);
        evaluate(&mut self.configurations[0].home, &call, reply);
        x.outcome.allows(reply)
    }
}
