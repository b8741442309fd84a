//! Calls that conflict with open ones, counted line after line.
ghost use Rattle.std.specs.Prelude.{◌≡◌, ◌+◌, ◌-◌, ◌<◌, ◌≤◌, ◌^◌, ℕ, [], ◌∷◌, ◌++◌, set, get_or, Some, IfOk, List, length};
ghost use Rattle.tatp_tables.specs.Database.{Database};
ghost use Rattle.tatp_history.specs.declared.line.Line.{Line as ALine};
ghost use Rattle.tatp_history.specs.declared.line.Line.TheVariants.{Ask};
ghost use Rattle.tatp_judge.specs.Asked.{asked_in_all};
ghost use Rattle.tatp_judge.specs.Conflicts.{HasConflicts, HasConflictsOfOthers, one_more, written};
ghost use Rattle.tatp_judge.specs.Followed.{HasFollowed};

use crate::asked::{Asked, subscriber_of};
use crate::judge::Judge;
use crate::outcome::client_of;
use std::alloc::{AllocError, Global};
use tatp_calls::Call;
use tatp_history::{Line, only_reads};

/// How many calls of a history met another one, where one of the two writes.
#[derive(Drop)]
pub(crate) struct Conflicts {
    /// How many calls that write are open on the subscriber, by s_id from 1 on.
    pub(crate) writing: Vec<u64>,
    pub(crate) conflicted: u64,
}

/// The subscriber that an open call writes to, if it writes to one.
fn written(asked: &Asked) -> Option<u64>
    ensures { result ≡ written (Some asked.now) }
{
    if asked.reads { None } else { asked.s_id }
}

impl Judge {
    /// The subscriber that the client's open call writes to, if it writes to one.
    fn written_by(&self, client: u64) -> Option<u64>
        ensures { (u : Database) (most : ℕ) (lines : List ALine)
            → HasFollowed u most lines self.now → result ≡ written (asked_in_all u lines client) }
    {
        match self.asked.get(&client) {
            Some(asked) => written(asked),
            None => None,
        }
    }
}

impl Conflicts {
    /// The conflicts of a history of which no line has come yet.
    pub(crate) fn new(alloc: Global, judge: &Judge) -> Result<Conflicts, AllocError>
        ensures { IfOk result (λ conflicts. (u : Database) (most : ℕ)
            → HasFollowed u most [] judge.now → HasConflicts u [] conflicts) }
    {
        Ok(Conflicts {
            writing: vec![in alloc; 0; judge.windows.len()]?,
            conflicted: 0,
        })
    }

    /// Counts the line that the judge is to follow next.
    pub(crate) fn count(&mut self, judge: &Judge, line: &Line)
        requires { (u : Database) × (most : ℕ) × (lines : List ALine)
            × HasFollowed u most lines judge.now × HasConflicts u lines self.old }
        ensures { (u : Database) (most : ℕ) (lines : List ALine)
            → HasFollowed u most lines judge.now → HasConflicts u lines self.old
            → HasConflicts u (lines ++ line.now ∷ []) self.new }
    {
        self.end(judge, client_of(line));
        match line {
            Line::Ask { client, call } => self.ask(judge, *client, call),
            Line::End { .. } => {}
            Line::Abort { .. } => {}
            Line::Lost { .. } => {}
        }
    }

    /// The client's open call, if it has one, is open no more.
    fn end(&mut self, judge: &Judge, client: u64)
        requires { (u : Database) × (most : ℕ) × (lines : List ALine)
            × HasFollowed u most lines judge.now × HasConflicts u lines self.old }
        ensures { (u : Database) (most : ℕ) (lines : List ALine)
            → HasFollowed u most lines judge.now → HasConflicts u lines self.old
            → HasConflictsOfOthers u lines client self.new }
    {
        if let Some(s_id) = judge.written_by(client) {
            self.end_on(s_id);
        }
    }

    /// One of the open calls that write to the subscriber is open no more.
    fn end_on(&mut self, s_id: u64)
        requires within { (1 ≤ s_id) × (s_id ≤ length self.old.writing.items) }
        requires some { 0 < get_or self.old.writing.items (s_id - 1) 0 }
        ensures writing { self.new.writing.items ≡ set self.old.writing.items (s_id - 1)
            (get_or self.old.writing.items (s_id - 1) 0 - 1) }
        ensures conflicted { self.new.conflicted ≡ self.old.conflicted }
    {
        self.writing[s_id as usize - 1] -= 1;
    }

    /// Counts a call that a client asks.
    fn ask(&mut self, judge: &Judge, client: u64, call: &Call)
        requires { (u : Database) × (most : ℕ) × (lines : List ALine)
            × HasFollowed u most lines judge.now × HasConflictsOfOthers u lines client self.old }
        ensures { (u : Database) (most : ℕ) (lines : List ALine)
            → HasFollowed u most lines judge.now → HasConflictsOfOthers u lines client self.old
            → HasConflicts u (lines ++ Ask client call.now ∷ []) self.new }
    {
        if let Some(s_id) = subscriber_of(&judge.directory, call) {
            if only_reads(call) {
                self.read_on(s_id);
            } else {
                self.write_on(s_id, judge.others_on(client, s_id));
            }
        }
    }

    /// Counts a call that only reads, and is on the subscriber: it conflicts with calls that write.
    fn read_on(&mut self, s_id: u64)
        requires within { (1 ≤ s_id) × (s_id ≤ length self.old.writing.items) }
        requires conflicted { self.old.conflicted + 1 < 2 ^ 64 }
        ensures writing { self.new.writing.items ≡ self.old.writing.items }
        ensures conflicted { self.new.conflicted
            ≡ one_more (get_or self.old.writing.items (s_id - 1) 0) self.old.conflicted }
    {
        if self.writing[s_id as usize - 1] > 0 {
            self.conflicted += 1;
        }
    }

    /// Counts a call that writes to a subscriber on which `others` other calls are open: it
    /// conflicts with them all.
    fn write_on(&mut self, s_id: u64, others: u64)
        requires within { (1 ≤ s_id) × (s_id ≤ length self.old.writing.items) }
        requires writing { get_or self.old.writing.items (s_id - 1) 0 + 1 < 2 ^ 64 }
        requires conflicted { self.old.conflicted + 1 < 2 ^ 64 }
        ensures writing { self.new.writing.items ≡ set self.old.writing.items (s_id - 1)
            (get_or self.old.writing.items (s_id - 1) 0 + 1) }
        ensures conflicted { self.new.conflicted ≡ one_more others self.old.conflicted }
    {
        if others > 0 {
            self.conflicted += 1;
        }
        self.writing[s_id as usize - 1] += 1;
    }
}
