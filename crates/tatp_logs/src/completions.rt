//! The completed calls, kept with as many arguments and outputs as each has.
ghost use Rattle.std.specs.Prelude.{◌≡◌, ◌+◌, ◌<◌, ◌≤◌, [], ◌∷◌, ◌++◌, List, OnOk, length, slice_get};
ghost use Rattle.tatp_calls.specs.declared.entry.Entry.{Entry};
ghost use Rattle.tatp_calls.specs.Replies.{reply_seen};

use crate::completed_call::CompletedCall;
use crate::kept_ask::KeptAsk;
use crate::kept_reply::KeptReply;
use std::alloc::{AllocError, Global};
use std::marker::Model;
use tatp_calls::{Entry, Reply, ReplyRef};
use tatp_limits::{MAX_ARGUMENTS, MAX_OUTPUTS};

/// The most values of a call, its outputs and its arguments.
const MOST_VALUES: usize = MAX_OUTPUTS + MAX_ARGUMENTS;

/// Completed calls, in the order of their ends. One takes as much memory as its arguments and
/// outputs need, where an [`Entry`] of its own has places for the most. Contracts see the entries,
/// and for how many more memory is reserved.
#[derive(Debug, Drop)]
pub struct Completions {
    calls: Vec<CompletedCall>,
    values: Vec<u64>,
}

impl Model for Completions {
    ghost use Rattle.tatp_logs.specs.Completions.{CompletionsState, completions_state_code};
    ghost use Rattle.tatp_logs.specs.CompletedCalls.{completions_of_calls, AllStand};

    ghost Value = { CompletionsState };

    ghost coded = { completions_state_code };

    ghost view = { λ a. completions_of_calls a.calls a.values };

    ghost invariant = { λ a. AllStand a.values.items a.calls.items };
}

impl Completions {
    /// No entries.
    pub fn new(alloc: Global) -> Completions
        ensures { result.entries ≡ [] }
    {
        Completions {
            calls: Vec::new(alloc),
            values: Vec::new(alloc),
        }
    }

    /// How many entries there are.
    pub fn len(&self) -> usize
        ensures { result ≡ length self.now.entries }
    {
        self.calls.len()
    }

    /// The entry in a place, counted from 0, where there is one.
    pub fn get(&self, index: usize) -> Option<Entry>
        ensures { result ≡ slice_get self.now.entries index }
    {
        let call = self.calls.get(index)?;
        Some(Entry {
            client: call.client,
            number: call.number,
            ask: call.ask.ask(&self.values),
            reply: call.reply.reply(&self.values),
            stamp: call.stamp,
        })
    }

    /// What was replied to the last call.
    pub fn last_reply(&self) -> Reply
        requires { 0 < length self.now.entries }
        ensures { (before : List Entry) (entry : Entry) → self.now.entries ≡ before ++ entry ∷ []
            → result ≡ entry.reply }
    {
        let call = &self.calls[self.calls.len() - 1];
        call.reply.reply(&self.values)
    }

    /// What was replied to the last call, with its outputs where they are.
    pub fn last_reply_ref(&self) -> ReplyRef<'_>
        requires { 0 < length self.now.entries }
        ensures { (before : List Entry) (entry : Entry) → self.now.entries ≡ before ++ entry ∷ []
            → reply_seen result ≡ entry.reply }
    {
        let call = &self.calls[self.calls.len() - 1];
        call.reply.reply_ref(&self.values)
    }

    /// Reserves memory for `more` entries, whatever their arguments and outputs.
    pub fn reserve(&mut self, more: usize) -> Result<(), AllocError>
        ensures entries { self.new.entries ≡ self.old.entries }
        ensures room { self.old.room ≤ self.new.room }
        ensures more { OnOk result (more ≤ self.new.room) }
    {
        let values = more.checked_mul(MOST_VALUES).ok_or(AllocError)?;
        self.calls.reserve(more)?;
        self.values.reserve(values)
    }

    /// Puts an entry behind the others, where memory for it is reserved.
    pub fn push(&mut self, entry: &Entry)
        requires { 1 ≤ self.old.room }
        ensures entries { self.new.entries ≡ self.old.entries ++ entry.now ∷ [] }
        ensures room { self.old.room ≤ self.new.room + 1 }
    {
        let ask = KeptAsk::keep(&mut self.values, &entry.ask);
        let reply = KeptReply::keep(&mut self.values, &entry.reply);
        self.calls.push_reserved(CompletedCall {
            client: entry.client,
            number: entry.number,
            ask,
            reply,
            stamp: entry.stamp,
        });
    }
}
