//! Parts of whole logs, and whole logs joined from them.
ghost use Rattle.std.specs.Prelude.{◌≡◌, ◌<◌, ◌≤◌, ◌↔◌, ◌++◌, [], IsTrue, IfSome, OnSome, OnOk, length, slice_get};
ghost use Rattle.std.specs.Option.{option_copied};
ghost use Rattle.tatp_calls.specs.Replies.{reply_seen};
ghost use Rattle.tatp_logs.specs.Logs.{HasSaid, IsOfCall};
ghost use Rattle.tatp_settle.specs.WholeLogs.{entry_in_part};

use std::alloc::{AllocError, Global};
use std::marker::Model;
use tatp_calls::{Ask, Entry, ReplyRef};
use tatp_homes::Home;
use tatp_logs::Log;

/// A part of an extent's whole log: a chapter, or what was logged since the last of them.
#[derive(Clone, Copy)]
pub(crate) struct LogPart<'a> {
    /// The homes from which its entries lead on.
    pub(crate) before: &'a [Home],
    /// Its entries.
    pub(crate) entries: &'a Log,
}

/// A part that has its place in a whole log.
#[derive(Clone, Copy)]
struct JoinedPart<'a> {
    /// How many entries come before it.
    first: usize,
    entries: &'a Log,
}

/// A whole log, joined from the logs of its parts.
#[derive(Drop)]
pub(crate) struct WholeLog<'a> {
    parts: Vec<JoinedPart<'a>>,
    len: usize,
}

impl<'a> Model for WholeLog<'a> {
    ghost use Rattle.std.specs.Prelude.{List};
    ghost use Rattle.tatp_calls.specs.declared.entry.Entry.{Entry};
    ghost use Rattle.tatp_settle.specs.WholeLogs.{entries_of_parts, AreJoined};

    ghost Value = { List Entry };

    ghost view = { λ a. entries_of_parts a.parts.items };

    ghost invariant = { λ a. AreJoined 0 a.parts.items a.len };
}

impl<'a> WholeLog<'a> {
    /// A log without a part.
    pub(crate) fn new(alloc: Global) -> WholeLog<'a>
        ensures { result ≡ [] }
    {
        WholeLog {
            parts: Vec::new(alloc),
            len: 0,
        }
    }

    /// One part more. More entries than can be counted count as more than there is memory for.
    pub(crate) fn push(&mut self, entries: &'a Log) -> Result<(), AllocError>
        ensures { OnOk result (self.new ≡ self.old ++ entries.entry.now.entries) }
    {
        let len = self.len.checked_add(entries.len()).ok_or(AllocError)?;
        self.parts.push(JoinedPart {
            first: self.len,
            entries,
        })?;
        self.len = len;
        Ok(())
    }

    /// How many entries it has.
    pub(crate) fn len(&self) -> usize
        ensures { result ≡ length self.now }
    {
        self.len
    }

    /// The part in which the entry of this place is, if there is one.
    fn part_of(&self, index: usize) -> Option<&JoinedPart<'a>>
        ensures first { IfSome result (λ part. part.now.first ≤ index) }
        ensures entry { slice_get self.now index ≡ entry_in_part (option_copied result) index }
    {
        let later = self.parts.partition_point(|part| part.first <= index);
        self.parts.get(later.checked_sub(1)?)
    }

    /// The part of this number, where the entry of this place, if there is one, is in it.
    fn part_around(&self, number: usize, index: usize) -> Option<&JoinedPart<'a>>
        ensures first { IfSome result (λ part. part.now.first ≤ index) }
        ensures entry { OnSome result
            (slice_get self.now index ≡ entry_in_part (option_copied result) index) }
    {
        let part = self.parts.get(number)?;
        let end = match self.parts.get(number + 1) {
            Some(next) => next.first,
            None => self.len,
        };
        if part.first <= index && index < end {
            Some(part)
        } else {
            None
        }
    }

    /// As `part_of`, looked for first where an entry was found last: who asks for one place after
    /// another searches once a part. Where it isn't there, the next part will be looked at first.
    fn part_near(&self, near: &mut usize, index: usize) -> Option<&JoinedPart<'a>>
        ensures first { IfSome result (λ part. part.now.first ≤ index) }
        ensures entry { slice_get self.now index ≡ entry_in_part (option_copied result) index }
    {
        match self.part_around(*near, index) {
            Some(part) => Some(part),
            None => {
                *near = near.saturating_add(1);
                self.part_of(index)
            }
        }
    }

    /// The number of the part in which the entry of this place is, if all parts are as long as
    /// the first, as most often they are.
    fn likely_part(&self, index: usize) -> usize {
        match self.parts.get(1) {
            Some(second) => index.checked_div(second.first).unwrap_or(0),
            None => 0,
        }
    }

    /// The entry in a place, if there is one.
    pub(crate) fn get(&self, index: usize) -> Option<Entry>
        ensures { result ≡ slice_get self.now index }
    {
        let mut near = self.likely_part(index);
        let part = self.part_near(&mut near, index)?;
        part.entries.get(index - part.first)
    }

    /// Whether there is an entry in a place with this ask, this reply and this stamp.
    pub(crate) fn has_said(&self, index: usize, ask: &Ask, reply: ReplyRef<'_>, stamp: u64) -> bool
        ensures { IsTrue result
            ↔ HasSaid (slice_get self.now index) ask.now (reply_seen reply.entry) stamp }
    {
        let mut near = self.likely_part(index);
        match self.part_near(&mut near, index) {
            Some(part) => part.entries.has_said(index - part.first, ask, reply, stamp),
            None => false,
        }
    }

    /// Whose call the entry in a place is: its client, and the call's number. `near` is the number
    /// of the part that is looked at first: 0 for the first place.
    pub(crate) fn caller(&self, near: &mut usize, index: usize) -> (u64, u64)
        requires { index < length self.now }
        ensures { IsOfCall self.now index result.0 result.1 }
    {
        match self.part_near(near, index) {
            Some(part) => part.entries.caller(index - part.first),
            None => unreachable!(),
        }
    }
}
