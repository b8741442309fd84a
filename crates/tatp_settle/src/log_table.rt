//! The whole logs of all numbers, each put together once.
ghost use Rattle.std.specs.Prelude.{◌≡◌, ◌<◌, ◌≤◌, ◌↔◌, ℕ, List, [], IsTrue, IfOk, length, slice_get};
ghost use Rattle.std.specs.Option.{option_copied, option_map_or};
ghost use Rattle.tatp_calls.specs.declared.entry.Entry.{Entry};
ghost use Rattle.tatp_calls.specs.Replies.{reply_seen};
ghost use Rattle.tatp_logs.specs.Logs.{HasSaid, IsOfCall};
ghost use Rattle.tatp_settle.specs.Closings.{entries_numbered, least_above};

use crate::Closed;
use crate::chapter_table::ChapterTable;
use crate::log_parts::WholeLog;
use std::alloc::{AllocError, Global};
use std::marker::Model;
use tatp_calls::{Ask, ReplyRef};

/// What was gathered, with the whole log of each number at hand.
#[derive(Drop)]
pub(crate) struct LogTable<'a> {
    closed: &'a Closed,
    logs: Vec<WholeLog<'a>>,
}

impl<'a> Model for LogTable<'a> {
    ghost use Rattle.tatp_settle.specs.Closings.{ClosedState, closed_state_code};
    ghost use Rattle.tatp_settle.specs.LogTables.{HasLogs};

    ghost Value = { ClosedState };

    ghost coded = { closed_state_code };

    ghost view = { λ a. a.closed.now };

    ghost invariant = { λ a. HasLogs a.closed.now a.logs.items };
}

impl<'a> LogTable<'a> {
    /// The logs of what was gathered.
    pub(crate) fn new(
        alloc: Global,
        chapters: &ChapterTable<'a>,
    ) -> Result<LogTable<'a>, AllocError>
        ensures { IfOk result (λ table. table ≡ chapters.now) }
    {
        let mut logs = Vec::new(alloc);
        'logs: for number in 0..chapters.count() {
            logs.push(chapters.whole_log(alloc, number)?)?;
        }
        Ok(LogTable {
            closed: chapters.closed(),
            logs,
        })
    }

    /// The least number above those of all extents and logs.
    pub(crate) fn count(&self) -> u64
        ensures value { result ≡ least_above self.now }
        ensures beyond { (e : ℕ) → result ≤ e → entries_numbered self.now e ≡ [] }
    {
        self.logs.len() as u64
    }

    /// The whole log of a number, if there is one.
    fn log(&self, number: u64) -> Option<&WholeLog<'a>>
        ensures { option_map_or (λ (log : List Entry). log) (option_copied result) []
            ≡ entries_numbered self.now number }
    {
        self.logs.get(number as usize)
    }

    /// How many entries are under a number.
    pub(crate) fn len(&self, number: u64) -> usize
        ensures { result ≡ length (entries_numbered self.now number) }
    {
        match self.log(number) {
            Some(log) => log.len(),
            None => 0,
        }
    }

    /// Whether there is an entry in a place under a number with this ask, this reply and this
    /// stamp.
    pub(crate) fn has_said(
        &self,
        number: u64,
        index: usize,
        ask: &Ask,
        reply: ReplyRef<'_>,
        stamp: u64,
    ) -> bool
        ensures { IsTrue result
            ↔ HasSaid (slice_get (entries_numbered self.now number) index) ask.now
            (reply_seen reply.entry) stamp }
    {
        match self.log(number) {
            Some(log) => log.has_said(index, ask, reply, stamp),
            None => false,
        }
    }

    /// Whose call the entry in a place under a number is: its client, and the call's number. `near`
    /// is 0 for the first place, and is kept from one place to the next.
    pub(crate) fn caller(&self, number: u64, near: &mut usize, index: usize) -> (u64, u64)
        requires { index < length (entries_numbered self.now number) }
        ensures { IsOfCall (entries_numbered self.now number) index result.0 result.1 }
    {
        match self.log(number) {
            Some(log) => log.caller(near, index),
            None => unreachable!(),
        }
    }
}
