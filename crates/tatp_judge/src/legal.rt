//! The replies with which a call could have been answered.
ghost use Rattle.std.specs.Prelude.{◌≡◌, ◌↔◌, ◌≤◌, ◌⊎◌, ◌∷◌, [], ℕ, IsTrue, IfOk, IfSome, List, Some, length, take};
ghost use Rattle.tatp_tables.specs.Database.{Database};
ghost use Rattle.tatp_history.specs.declared.line.Line.{Line as ALine};
ghost use Rattle.tatp_history.specs.Events.{IsAnsweredAt, asked_in};
ghost use Rattle.tatp_history.specs.Histories.{IsIn};
ghost use Rattle.tatp_judge.specs.Aside.{undecided_in};
ghost use Rattle.tatp_judge.specs.Followed.{HasKept};
ghost use Rattle.tatp_judge.specs.Legal.{AreLegalReplies};
ghost use Rattle.tatp_judge.specs.Verdicts.{IsOther, IsUnexplained};
ghost use Rattle.tatp_judge.specs.Windows.{IsSpent, IsWindowAfter};

use crate::judge::Judge;
use crate::window::Window;
use std::alloc::{AllocError, Global};
use tatp_calls::{Call, Reply};
use tatp_history::{Event, Observed, Outcome};

/// How many events are searched for replies at most. Each of the rows that a window's calls may
/// result in can have a reply of its own, with which all events of the window are searched again.
const MOST_SEARCHED: usize = 1 << 14;

/// A call, and the replies with which it could have been answered.
#[derive(Drop)]
pub struct LegalReplies {
    pub call: Call,
    pub replies: Vec<Reply>,
}

/// A call, and the only reply with which it could have been answered.
#[derive(Clone, Copy, Debug)]
pub(crate) struct OnlyReply {
    pub(crate) call: Call,
    pub(crate) reply: Reply,
}

/// Whether the call was answered at this time.
fn is_answered_at(x: &Observed, time: u64) -> bool
    ensures { IsTrue result ↔ IsAnsweredAt time x.now.outcome }
{
    match &x.outcome {
        Outcome::Answered { at, .. } => time == *at,
        Outcome::Aborted { .. } => false,
        Outcome::Unknown => false,
    }
}

/// The call, where the event asks one that was answered at this time.
fn answered_by(event: &Event, time: u64) -> Option<Observed>
    ensures { IfSome result (λ x. IsIn x (asked_in (event.now ∷ []))
        × IsAnsweredAt time x.outcome) }
{
    match event {
        Event::Asks(x) => {
            if is_answered_at(x, time) {
                Some(*x)
            } else {
                None
            }
        }
        Event::Ends { .. } => None,
    }
}

/// The call of these events that was answered at this time.
fn answered_at(events: &[Event], time: u64) -> Option<Observed>
    ensures { IfSome result (λ x. IsIn x (asked_in events.now)
        × IsAnsweredAt time x.outcome) }
{
    'events: for i in 0..events.len() {
        if let Some(x) = answered_by(&events[i], time) {
            return Some(x);
        }
    }
    None
}

impl Window {
    /// The legal replies of the call that overlapped no other and was answered in the last line.
    fn only_reply(&self, alloc: Global) -> Result<Option<LegalReplies>, AllocError>
        ensures { IfOk result (λ found. IfSome found (λ legal.
            (u : Database) (s : ℕ) (lines : List ALine) → IsSpent u s lines self.now
            → AreLegalReplies u s lines legal.call legal.replies.items)) }
    {
        if self.only.is_empty() {
            return Ok(None);
        }
        let only = self.only[0];
        let mut replies = Vec::new(alloc);
        replies.push(only.reply)?;
        Ok(Some(LegalReplies {
            call: only.call,
            replies,
        }))
    }

    /// The legal replies of the call that the line of this number answers, if it answers one and
    /// they are known.
    fn legal_replies(&self, alloc: Global, line: u64) -> Result<Option<LegalReplies>, AllocError>
        requires { (u : Database) × (most : ℕ) × (s : ℕ) × (lines : List ALine)
            × (line ≤ length lines) × IsUnexplained u lines line (Some s)
            × (IsWindowAfter u most s lines self.now ⊎ IsSpent u s lines self.now) }
        ensures { IfOk result (λ found. IfSome found (λ legal.
            (u : Database) (most : ℕ) (s : ℕ) (lines : List ALine)
            → line ≤ length lines → IsUnexplained u lines line (Some s)
            → IsWindowAfter u most s lines self.now ⊎ IsSpent u s lines self.now
            → AreLegalReplies u s (take line lines) legal.call legal.replies.items)) }
    {
        if self.events.is_empty() {
            return self.only_reply(alloc);
        }
        let events = self.events.as_slice();
        match answered_at(events, line) {
            Some(x) => {
                let most_rows = MOST_SEARCHED / events.len();
                let found = self
                    .explanations
                    .legal_replies(alloc, events, &x, line, most_rows)?;
                match found {
                    Some(replies) => Ok(Some(LegalReplies {
                        call: x.call,
                        replies,
                    })),
                    None => Ok(None),
                }
            }
            None => Ok(None),
        }
    }
}

impl Judge {
    /// The call that the line of this number answers, and its legal replies. By this line no order
    /// explains the subscriber's calls. `None` means that the line answers none, or that too many
    /// rows or configurations are possible.
    pub fn legal_replies(
        &self,
        alloc: Global,
        s_id: u64,
        line: u64,
    ) -> Result<Option<LegalReplies>, AllocError>
        requires { (u : Database) × (lines : List ALine) × HasKept u lines self.now
            × (line ≤ length lines) × IsUnexplained u lines line (Some s_id)
            × IsOther (undecided_in self.now) (Some s_id) }
        ensures { IfOk result (λ found. IfSome found (λ legal.
            (u : Database) (lines : List ALine)
            → HasKept u lines self.now → line ≤ length lines
            → IsUnexplained u lines line (Some s_id)
            → IsOther (undecided_in self.now) (Some s_id)
            → AreLegalReplies u s_id (take line lines) legal.call legal.replies.items)) }
    {
        self.windows[s_id as usize - 1].legal_replies(alloc, line)
    }
}
