//! Replies with which a call could have been answered.
ghost use Rattle.std.specs.Prelude.{◌≡◌, ◌↔◌, ◌⊎◌, IsTrue, IfOk, IfSome, OnOk, Ok, Some, None, List, ◌∷◌, [], ◌++◌};
ghost use Rattle.std.specs.List.{AllByRecursion};
ghost use Rattle.tatp_tables.specs.Database.{Database};
ghost use Rattle.tatp_calls.specs.declared.reply.Reply.{Reply as Replied};
ghost use Rattle.tatp_calls.specs.Arguments.{arguments_accepted};
ghost use Rattle.tatp_calls.specs.Transactions.{transaction};
ghost use Rattle.tatp_history.specs.declared.event.Event.{Event};
ghost use Rattle.tatp_history.specs.Histories.{IsIn, IsStrictlySerializable};
ghost use Rattle.tatp_history.specs.Prefixes.{calls_by};
ghost use Rattle.tatp_history.specs.Events.{IsAnsweredAt, asked_in};
ghost use Rattle.tatp_history.specs.Configurations.{Configuration as Seen};
ghost use Rattle.tatp_linearization.specs.Possible.{AreMoreThan, NeedMore};
ghost use Rattle.tatp_linearization.specs.Held.{Has, IsAcceptedEvent};
ghost use Rattle.tatp_linearization.specs.Reached.{AreReached};
ghost use Rattle.tatp_linearization.specs.Cut.{AreWindow, events_by as events_then};
ghost use Rattle.tatp_linearization.specs.Single.{answered_with};
ghost use Rattle.tatp_linearization.specs.Legal.{MayBeLeft, events_with as events_then_with, placed as placed_call, with_call};
ghost use Rattle.tatp_linearization.specs.Listed.{AreEachOnce, AreSifted, IsExplainedBy, IsListed, IsUnexplainedBy};

use crate::configuration::Configuration;
use crate::cut::events_by;
use crate::explanations::{Explanations, Standing};
use crate::rows::{calls_of, rows_left};
use crate::stopped::Stopped;
use std::alloc::{AllocError, Global};
use tatp_calls::{Call, Reply};
use tatp_evaluation::evaluate;
use tatp_history::{Event, Observed, Outcome, Recorded};

fn is_same(x: &Reply, y: &Reply) -> bool
    ensures { IsTrue result ↔ (x.now ≡ y.now) }
{
    *x == *y
}

fn is_listed(replies: &[Reply], reply: &Reply) -> bool
    ensures { IsTrue result ↔ IsListed reply.now replies.now }
{
    for i in 0..replies.len() {
        if is_same(reply, &replies[i]) {
            return true;
        }
    }
    false
}

/// Adds a reply, unless the list has it.
fn add_reply(replies: &mut Vec<Reply>, reply: &Reply) -> Result<(), AllocError>
    ensures added { OnOk result ((other : Replied)
        → IsListed other replies.new.items
        ↔ (IsListed other replies.old.items ⊎ (other ≡ reply.now))) }
    ensures once { OnOk result (AreEachOnce replies.old.items → AreEachOnce replies.new.items) }
{
    if is_listed(replies.as_slice(), reply) {
        return Ok(());
    }
    replies.push(*reply)?;
    Ok(())
}

/// The reply that a call has on the rows of a configuration.
fn reply_on(c: &Configuration, call: &Call) -> Reply
    requires { arguments_accepted call.now ≡ Ok tt }
    ensures { result ≡ (transaction call.now c.now.home.tables).reply }
{
    let mut home = c.home.copy();
    let mut reply = Reply::Refused;
    evaluate(&mut home, call, &mut reply);
    reply
}

/// The replies that a call has on the rows of these configurations, each once.
fn replies_on(alloc: Global, rows: &[Configuration], call: &Call) -> Result<Vec<Reply>, AllocError>
    requires { arguments_accepted call.now ≡ Ok tt }
    ensures { IfOk result (λ replies. (d : Seen) → Has rows.now d
        → IsListed (transaction call.now d.rows).reply replies.items) }
{
    let mut replies = Vec::new(alloc);
    'rows: for i in 0..rows.len() {
        add_reply(&mut replies, &reply_on(&rows[i], call))?;
    }
    Ok(replies)
}

/// The call, answered at a time with this reply.
fn answered(x: &Observed, at: u64, reply: &Reply) -> Observed
    ensures { result ≡ answered_with x.now at reply.now }
{
    Observed {
        asked: x.asked,
        call: x.call,
        outcome: Outcome::Answered {
            at,
            recorded: Recorded::Exactly(*reply),
        },
    }
}

/// The event, with `y` in the place of the call that was asked at the same time.
fn placed(y: &Observed, event: &Event) -> Event
    ensures { result ∷ [] ≡ events_then_with y.now (event.now ∷ []) }
{
    match event {
        Event::Asks(x) => {
            if x.asked == y.asked {
                Event::Asks(*y)
            } else {
                Event::Asks(*x)
            }
        }
        Event::Ends { asked, at } => Event::Ends {
            asked: *asked,
            at: *at,
        },
    }
}

/// The events, with `y` in the place of the call that was asked at the same time.
fn events_with(alloc: Global, y: &Observed, events: &[Event]) -> Result<Vec<Event>, AllocError>
    ensures { IfOk result (λ told. told.items ≡ events_then_with y.now events.now) }
{
    let mut told = Vec::new(alloc);
    'events: for i in 0..events.len() {
        told.push(placed(y, &events[i]))?;
    }
    Ok(told)
}

impl Explanations {
    /// Whether an order explains these events, where the call is answered at a time with this
    /// reply.
    fn explain_with(
        &self,
        alloc: Global,
        cut: &[Event],
        x: &Observed,
        at: u64,
        reply: &Reply,
    ) -> Result<Standing, AllocError>
        requires reached { (u : Database) × (past : List Event) × AreReached u past self.now }
        requires accepted { AllByRecursion IsAcceptedEvent cut.now }
        requires call { arguments_accepted x.now.call ≡ Ok tt }
        ensures explained { result ≡ Ok Standing.Explained
            → IsExplainedBy self.now (events_then_with (answered_with x.now at reply.now) cut.now) }
        ensures unexplained { result ≡ Ok Standing.Unexplained
            → IsUnexplainedBy self.now
            (events_then_with (answered_with x.now at reply.now) cut.now) }
        ensures undecided { result ≡ Ok Standing.Undecided → (u : Database)
            (past : List Event) → AreReached u past self.now → NeedMore self.now.most u
            (past ++ events_then_with (answered_with x.now at reply.now) cut.now) }
    {
        let told = events_with(alloc, &answered(x, at, reply), cut)?;
        self.explain(alloc, told.as_slice())
    }

    /// Those of some replies with which the call could have been answered, so that an order
    /// explains these events. `None` means that this isn't known of one of the replies.
    fn legal_of(
        &self,
        alloc: Global,
        cut: &[Event],
        x: &Observed,
        at: u64,
        replies: &[Reply],
    ) -> Result<Option<Vec<Reply>>, AllocError>
        requires reached { (u : Database) × (past : List Event) × AreReached u past self.now }
        requires accepted { AllByRecursion IsAcceptedEvent cut.now }
        requires call { arguments_accepted x.now.call ≡ Ok tt }
        ensures sifted { IfOk result (λ found. IfSome found (λ legal. AreSifted self.now
            (λ reply. events_then_with (answered_with x.now at reply) cut.now)
            replies.now legal.items)) }
        ensures unknown { result ≡ Ok None → (u : Database) (past : List Event)
            → AreReached u past self.now → (reply : Replied) × NeedMore self.now.most u
            (past ++ events_then_with (answered_with x.now at reply) cut.now) }
    {
        let mut legal = Vec::new(alloc);
        'replies: for i in 0..replies.len() {
            match self.explain_with(alloc, cut, x, at, &replies[i])? {
                Standing::Explained => add_reply(&mut legal, &replies[i])?,
                Standing::Unexplained => {}
                Standing::Undecided => return Ok(None),
            }
        }
        Ok(Some(legal))
    }

    /// The replies with which a call of a window could have been answered at a time, so that an
    /// order explains the calls up to that time, each once. `None` means that they aren't known,
    /// since more configurations are possible than may be kept, or more rows than `most_rows`.
    pub fn legal_replies(
        &self,
        alloc: Global,
        events: &[Event],
        x: &Observed,
        at: u64,
        most_rows: usize,
    ) -> Result<Option<Vec<Reply>>, AllocError>
        requires reached { (u : Database) × (past : List Event) × AreReached u past self.now }
        requires accepted { AllByRecursion IsAcceptedEvent events.now }
        requires there { IsIn x.now (asked_in events.now) }
        requires answered { IsAnsweredAt at x.now.outcome }
        ensures legal { IfOk result (λ found. IfSome found (λ legal. (u : Database)
            (past : List Event) → AreReached u past self.now → AreWindow past events.now
            → (reply : Replied) → (IsListed reply legal.items
            ↔ IsStrictlySerializable u (asked_in past
            ++ with_call (answered_with x.now at reply) (calls_by at (asked_in events.now)))))) }
        ensures once { IfOk result (λ found. IfSome found (λ legal. AreEachOnce legal.items)) }
        ensures unknown { result ≡ Ok None → (u : Database) (past : List Event)
            → AreReached u past self.now
            → AreMoreThan most_rows (MayBeLeft self.now.configurations.items events.now)
            ⊎ ((reply : Replied) × NeedMore self.now.most u
            (past ++ events_then_with (answered_with x.now at reply) (events_then at events.now))) }
    {
        let told = self.searched(alloc, events)?;
        let set = self.configurations.as_slice();
        let calls = calls_of(alloc, set, told.as_slice())?;
        let rows = match rows_left(alloc, set, calls.as_slice(), most_rows) {
            Ok(rows) => rows,
            Err(Stopped::MoreThanMost) => return Ok(None),
            Err(Stopped::NoMemory) => return Err(AllocError),
        };
        let call = self.searched_call(&x.call);
        let replies = replies_on(alloc, rows.as_slice(), &call)?;
        let cut = events_by(alloc, events, at)?;
        self.legal_of(alloc, cut.as_slice(), x, at, replies.as_slice())
    }
}
