//! Logs: completed transactions, kept with as many outputs as each has.
ghost use Rattle.std.specs.Prelude.{◌≡◌, ◌+◌, ◌<◌, ◌≤◌, ◌↔◌, IsTrue, Some, [], ◌∷◌, ◌++◌, ◌==◌, IfOk, OnOk, length, slice_get, vec_len};
ghost use Rattle.std.specs.Vec.{vec_capacity};
ghost use Rattle.tatp_calls.specs.Replies.{reply_seen};
ghost use Rattle.tatp_logs.specs.Logs.{last_stamp_from};
ghost use Rattle.tatp_logs.specs.Logs.{AsksTransaction, HasSaid, IsOfCall};
ghost use Rattle.tatp_logs.specs.KeptReplies.{StandsIn};
ghost use Rattle.tatp_logs.specs.LoggedCalls.{entry_in};

use crate::kept_reply::KeptReply;
use crate::memory::{OUTPUTS_A_CALL, make_room};
use std::alloc::{AllocError, Global};
use std::marker::Model;
use std::mem;
use tatp_calls::{Ask, Call, Entry, ReplyRef};
use tatp_limits::MAX_OUTPUTS;

/// An entry whose outputs are in the list of all outputs.
#[derive(Clone, Copy, Debug)]
pub(crate) struct LoggedCall {
    client: u64,
    number: u64,
    call: Call,
    reply: KeptReply,
    stamp: u64,
}

/// Completed transactions, in the order of their stamps, and the last stamp before them. An entry
/// takes as much memory as its outputs need, where an [`Entry`] of its own has places for the most.
#[derive(Debug, Drop)]
pub struct Log {
    kept_stamp: u64,
    calls: Vec<LoggedCall>,
    outputs: Vec<u64>,
}

impl Model for Log {
    ghost use Rattle.tatp_logs.specs.Logs.{LogState, log_state_code};
    ghost use Rattle.tatp_logs.specs.LoggedCalls.{log_of_calls, AllStand};

    ghost Value = { LogState };

    ghost coded = { log_state_code };

    ghost view = { λ a. log_of_calls a.kept_stamp a.calls a.outputs };

    ghost invariant = { λ a. AllStand a.outputs.items a.calls.items };
}

/// Whether what was asked is this transaction.
fn asks(ask: &Ask, call: &Call) -> bool
    ensures { IsTrue result ↔ (Ask.Txn call.now ≡ ask.now) }
{
    match ask {
        Ask::Txn(asked) => asked == call,
        Ask::Raw(_) => false,
    }
}

/// Whether a logged call has this ask, this reply and this stamp.
fn has_said(
    outputs: &[u64],
    logged: &LoggedCall,
    ask: &Ask,
    reply: ReplyRef<'_>,
    stamp: u64,
) -> bool
    requires { StandsIn outputs.now logged.now.reply }
    ensures { IsTrue result
        ↔ HasSaid (Some (entry_in outputs.now logged.now)) ask.now (reply_seen reply.entry) stamp }
{
    logged.stamp == stamp && asks(ask, &logged.call) && logged.reply.is(outputs, reply)
}

impl Log {
    /// No entries.
    pub fn new(alloc: Global) -> Log
        ensures stamp { result.kept_stamp ≡ 0 }
        ensures entries { result.entries ≡ [] }
    {
        Log::after(alloc, 0)
    }

    /// No entries, after this stamp.
    fn after(alloc: Global, kept_stamp: u64) -> Log
        ensures stamp { result.kept_stamp ≡ kept_stamp }
        ensures entries { result.entries ≡ [] }
    {
        Log {
            kept_stamp,
            calls: Vec::new(alloc),
            outputs: Vec::new(alloc),
        }
    }

    /// How many entries there are.
    pub fn len(&self) -> usize
        ensures { result ≡ length self.now.entries }
    {
        self.calls.len()
    }

    /// Whether there is no entry.
    pub fn is_empty(&self) -> bool
        ensures { result ≡ (length self.now.entries == 0) }
    {
        self.calls.is_empty()
    }

    /// The entry in a place, counted from 0, where there is one.
    pub fn get(&self, index: usize) -> Option<Entry>
        ensures { result ≡ slice_get self.now.entries index }
    {
        let logged = self.calls.get(index)?;
        Some(Entry {
            client: logged.client,
            number: logged.number,
            ask: Ask::Txn(logged.call),
            reply: logged.reply.reply(&self.outputs),
            stamp: logged.stamp,
        })
    }

    /// Whether there is an entry in a place, counted from 0, with this ask, this reply and this
    /// stamp. It is compared where it is, since an [`Entry`] is large.
    pub fn has_said(&self, index: usize, ask: &Ask, reply: ReplyRef<'_>, stamp: u64) -> bool
        ensures { IsTrue result
            ↔ HasSaid (slice_get self.now.entries index) ask.now (reply_seen reply.entry) stamp }
    {
        match self.calls.get(index) {
            Some(logged) => has_said(&self.outputs, logged, ask, reply, stamp),
            None => false,
        }
    }

    /// Whose call an entry is: its client, and how many calls of that client were accepted before
    /// it.
    pub fn caller(&self, index: usize) -> (u64, u64)
        requires { index < length self.now.entries }
        ensures { IsOfCall self.now.entries index result.0 result.1 }
    {
        let logged = &self.calls[index];
        (logged.client, logged.number)
    }

    /// The stamp of the last entry, without one the last before it.
    pub fn last_stamp(&self) -> u64
        ensures { result ≡ last_stamp_from self.now.kept_stamp self.now.entries }
    {
        match self.calls.last() {
            Some(logged) => logged.stamp,
            None => self.kept_stamp,
        }
    }

    /// The entries so far, as a log of their own. This one continues without entries, after their
    /// last stamp.
    pub fn split(&mut self, alloc: Global) -> Log
        ensures entries { result.entries ≡ self.old.entries }
        ensures left { self.new.entries ≡ [] }
        ensures stamp { self.new.kept_stamp ≡ last_stamp_from self.old.kept_stamp self.old.entries }
    {
        let rest = Log::after(alloc, self.last_stamp());
        mem::replace(self, rest)
    }

    /// The log that continues after these entries, without any yet, with memory for as many, and
    /// for an eighth more outputs, since not all calls have as many: a log that grows is copied,
    /// and asks for memory each time.
    pub fn successor(&self, alloc: Global) -> Result<Log, AllocError>
        ensures entries { IfOk result (λ log. log.entries ≡ []) }
        ensures stamp { IfOk result (λ log.
            log.kept_stamp ≡ last_stamp_from self.now.kept_stamp self.now.entries) }
    {
        let mut log = Log::after(alloc, self.last_stamp());
        log.calls.reserve(self.calls.len())?;
        let outputs = self.outputs.len();
        log.outputs.reserve(
            outputs
                .saturating_add(outputs / 8)
                .saturating_add(MAX_OUTPUTS),
        )?;
        Ok(log)
    }

    /// Reserves memory for one more entry.
    pub fn reserve(&mut self) -> Result<(), AllocError>
        ensures stamp { self.new.kept_stamp ≡ self.old.kept_stamp }
        ensures entries { self.new.entries ≡ self.old.entries }
        ensures room { OnOk result (1 ≤ self.new.room) }
    {
        make_room(&mut self.calls, 1)?;
        make_room(&mut self.outputs, MAX_OUTPUTS)
    }

    /// Reserves memory for about `calls` more entries of the benchmark's mix.
    pub fn reserve_for(&mut self, calls: usize) -> Result<(), AllocError>
        ensures stamp { self.new.kept_stamp ≡ self.old.kept_stamp }
        ensures entries { self.new.entries ≡ self.old.entries }
    {
        self.calls.reserve(calls)?;
        self.outputs.reserve(calls.saturating_mul(OUTPUTS_A_CALL))
    }

    /// Appends an entry, where memory for it is reserved.
    pub fn push(&mut self, entry: &Entry)
        requires transaction { AsksTransaction entry.now }
        requires room { 1 ≤ self.old.room }
        ensures entries { self.new.entries ≡ self.old.entries ++ entry.now ∷ [] }
        ensures stamp { self.new.kept_stamp ≡ self.old.kept_stamp }
    {
        let Ask::Txn(call) = entry.ask else {
            unreachable!()
        };
        let reply = KeptReply::keep(&mut self.outputs, &entry.reply);
        self.calls.push_reserved(LoggedCall {
            client: entry.client,
            number: entry.number,
            call,
            reply,
            stamp: entry.stamp,
        });
    }

    /// A copy, without memory for more.
    pub fn copy(&self, alloc: Global) -> Result<Log, AllocError>
        ensures stamp { IfOk result (λ copy. copy.kept_stamp ≡ self.now.kept_stamp) }
        ensures entries { IfOk result (λ copy. copy.entries ≡ self.now.entries) }
    {
        let mut calls = Vec::new(alloc);
        calls.extend_from_slice(&self.calls)?;
        let mut outputs = Vec::new(alloc);
        outputs.extend_from_slice(&self.outputs)?;
        Ok(Log {
            kept_stamp: self.kept_stamp,
            calls,
            outputs,
        })
    }
}
