//! What was at stake in a history, counted line after line.
ghost use Rattle.std.specs.Prelude.{◌≡◌, ◌+◌, ◌-◌, ◌<◌, ◌≤◌, ◌^◌, ℕ, [], ◌∷◌, ◌++◌, if◌then◌else◌, nat_lt, set, get_or, false, true, IfOk, List, length};
ghost use Rattle.tatp_tables.specs.Database.{Database};
ghost use Rattle.tatp_history.specs.declared.line.Line.{Line as ALine};
ghost use Rattle.tatp_history.specs.declared.line.Line.TheVariants.{Ask};
ghost use Rattle.tatp_history.specs.Locality.{is_this};
ghost use Rattle.tatp_judge.specs.Asked.{asked_in_all};
ghost use Rattle.tatp_judge.specs.Counted.{AreOthersOn, HasCounted, HasCountedCalls, has_call};
ghost use Rattle.tatp_judge.specs.Followed.{HasFollowed};
ghost use Rattle.tatp_judge.specs.Stakes.{AreStakes};

use crate::asked::{Asked, subscriber_of};
use crate::conflicts::Conflicts;
use crate::judge::Judge;
use std::alloc::{AllocError, Global};
use tatp_calls::Call;
use tatp_history::Line;

/// How many calls a history has, how they ended, and how many met others.
#[derive(Clone, Copy, Debug, PartialEq, Eq)]
pub struct Stakes {
    pub answered: u64,
    pub aborted: u64,
    /// Calls whose outcome is unknown.
    pub unanswered: u64,
    /// Subscribers that calls are on.
    pub subscribers: u64,
    /// Calls that were asked while another one was open on their subscriber.
    pub overlapped: u64,
    /// Those of them where one of the two calls writes.
    pub conflicted: u64,
    /// The most calls that were open at once on one subscriber.
    pub widest: u64,
}

/// What is counted of the lines of a history.
#[derive(Drop)]
pub struct Counts {
    pub(crate) asked: u64,
    pub(crate) answered: u64,
    pub(crate) aborted: u64,
    /// Whether a call was on the subscriber, by s_id from 1 on.
    pub(crate) called: Vec<bool>,
    pub(crate) subscribers: u64,
    pub(crate) overlapped: u64,
    pub(crate) conflicts: Conflicts,
    pub(crate) widest: u64,
}

/// Whether the open call is on the subscriber.
fn is_on(asked: &Asked, s_id: u64) -> bool
    ensures { result ≡ is_this s_id asked.now.s_id }
{
    match asked.s_id {
        Some(other) => other == s_id,
        None => false,
    }
}

impl Judge {
    /// Whether the client has a call open.
    fn has_call(&self, client: u64) -> bool
        ensures { (u : Database) (most : ℕ) (lines : List ALine)
            → HasFollowed u most lines self.now → result ≡ has_call (asked_in_all u lines client) }
    {
        self.asked.get(&client).is_some()
    }

    /// How many calls of other clients are open on the subscriber.
    pub(crate) fn others_on(&self, client: u64, s_id: u64) -> u64
        requires followed { (u : Database) × (most : ℕ) × (lines : List ALine)
            × HasFollowed u most lines self.now }
        requires within { (1 ≤ s_id) × (s_id ≤ length self.now.windows.items) }
        ensures { (u : Database) (most : ℕ) (lines : List ALine)
            → HasFollowed u most lines self.now → AreOthersOn u s_id client lines result }
    {
        let waiting = self.windows[s_id as usize - 1].waiting;
        match self.asked.get(&client) {
            Some(asked) => {
                if is_on(asked, s_id) {
                    waiting - 1
                } else {
                    waiting
                }
            }
            None => waiting,
        }
    }
}

impl Counts {
    /// The counts of a history of which no line has come yet.
    pub fn new(alloc: Global, judge: &Judge) -> Result<Counts, AllocError>
        ensures { IfOk result (λ counts. (u : Database) (most : ℕ)
            → HasFollowed u most [] judge.now → HasCounted u [] counts) }
    {
        Ok(Counts {
            asked: 0,
            answered: 0,
            aborted: 0,
            called: vec![in alloc; false; judge.windows.len()]?,
            subscribers: 0,
            overlapped: 0,
            conflicts: Conflicts::new(alloc, judge)?,
            widest: 0,
        })
    }

    /// Counts the line that the judge is to follow next.
    pub fn count(&mut self, judge: &Judge, line: &Line)
        requires { (u : Database) × (most : ℕ) × (lines : List ALine)
            × HasFollowed u most lines judge.now × HasCounted u lines self.old }
        ensures { (u : Database) (most : ℕ) (lines : List ALine)
            → HasFollowed u most lines judge.now → HasCounted u lines self.old
            → HasCounted u (lines ++ line.now ∷ []) self.new }
    {
        self.count_call(judge, line);
        self.conflicts.count(judge, line);
    }

    /// Counts the call that the line asks or ends, whether or not it conflicts with another.
    fn count_call(&mut self, judge: &Judge, line: &Line)
        requires { (u : Database) × (most : ℕ) × (lines : List ALine)
            × HasFollowed u most lines judge.now × HasCountedCalls u lines self.old }
        ensures calls { (u : Database) (most : ℕ) (lines : List ALine)
            → HasFollowed u most lines judge.now → HasCountedCalls u lines self.old
            → HasCountedCalls u (lines ++ line.now ∷ []) self.new }
        ensures conflicts { self.new.conflicts ≡ self.old.conflicts }
    {
        match line {
            Line::Ask { client, call } => self.ask(judge, *client, call),
            Line::End { client, .. } => {
                if judge.has_call(*client) {
                    self.answered += 1;
                }
            }
            Line::Abort { client } => {
                if judge.has_call(*client) {
                    self.aborted += 1;
                }
            }
            Line::Lost { .. } => {}
        }
    }

    /// Counts a call that a client asks.
    fn ask(&mut self, judge: &Judge, client: u64, call: &Call)
        requires { (u : Database) × (most : ℕ) × (lines : List ALine)
            × HasFollowed u most lines judge.now × HasCountedCalls u lines self.old }
        ensures calls { (u : Database) (most : ℕ) (lines : List ALine)
            → HasFollowed u most lines judge.now → HasCountedCalls u lines self.old
            → HasCountedCalls u (lines ++ Ask client call.now ∷ []) self.new }
        ensures conflicts { self.new.conflicts ≡ self.old.conflicts }
    {
        self.asked += 1;
        if let Some(s_id) = subscriber_of(&judge.directory, call) {
            self.ask_on(s_id, judge.others_on(client, s_id));
        }
    }

    /// Counts a call on a subscriber on which `others` other calls are open.
    fn ask_on(&mut self, s_id: u64, others: u64)
        requires within { (1 ≤ s_id) × (s_id ≤ length self.old.called.items) }
        requires subscribers { self.old.subscribers + 1 < 2 ^ 64 }
        requires overlapped { self.old.overlapped + 1 < 2 ^ 64 }
        requires others { others + 1 < 2 ^ 64 }
        ensures asked { self.new.asked ≡ self.old.asked }
        ensures answered { self.new.answered ≡ self.old.answered }
        ensures aborted { self.new.aborted ≡ self.old.aborted }
        ensures conflicts { self.new.conflicts ≡ self.old.conflicts }
        ensures called { self.new.called.items ≡ set self.old.called.items (s_id - 1) true }
        ensures subscribers { self.new.subscribers ≡ (if get_or self.old.called.items (s_id - 1)
            false then self.old.subscribers else self.old.subscribers + 1) }
        ensures overlapped { self.new.overlapped
            ≡ (if nat_lt 0 others then self.old.overlapped + 1 else self.old.overlapped) }
        ensures widest { self.new.widest ≡ (if nat_lt self.old.widest (others + 1)
            then others + 1 else self.old.widest) }
    {
        let place = s_id as usize - 1;
        if !self.called[place] {
            self.subscribers += 1;
        }
        self.called[place] = true;
        if others > 0 {
            self.overlapped += 1;
        }
        if self.widest < others + 1 {
            self.widest = others + 1;
        }
    }

    /// What was at stake.
    pub fn stakes(&self) -> Stakes
        requires { (u : Database) × (lines : List ALine) × HasCounted u lines self.now }
        ensures { (u : Database) (lines : List ALine)
            → HasCounted u lines self.now → AreStakes u lines result }
    {
        Stakes {
            answered: self.answered,
            aborted: self.aborted,
            unanswered: self.asked - self.answered - self.aborted,
            subscribers: self.subscribers,
            overlapped: self.overlapped,
            conflicted: self.conflicts.conflicted,
            widest: self.widest,
        }
    }
}
