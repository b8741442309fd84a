//! The judge, line after line.
ghost use Rattle.std.specs.Prelude.{◌≡◌, ℕ, suc, ◌+◌, ◌<◌, ◌≤◌, ◌^◌, [], ◌∷◌, ◌++◌, false, IfOk, IfSome, OnOk, Ok, None, Option, Some, List, length, nat_eq, slice_get};
ghost use Rattle.indexmap.specs.IndexMap.{get};
ghost use Rattle.tatp_tables.specs.Clean.{IsClean};
ghost use Rattle.tatp_tables.specs.Database.{Database, database_of};
ghost use Rattle.tatp_history.specs.declared.line.Line.{Line as ALine};
ghost use Rattle.tatp_history.specs.declared.line.Line.TheVariants.{Ask};
ghost use Rattle.tatp_history.specs.HistoryLines.{end_at};
ghost use Rattle.tatp_history.specs.Events.{TimesRise};
ghost use Rattle.tatp_judge.specs.declared.window.Window.{Window as AWindow};
ghost use Rattle.tatp_judge.specs.Accepted.{IsAcceptedLine};
ghost use Rattle.tatp_judge.specs.Aside.{undecided_in};
ghost use Rattle.tatp_judge.specs.Asked.{asked_on};
ghost use Rattle.tatp_judge.specs.Followed.{EndsAs, Forgets, HasFollowed, HasKept, HasNoted};
ghost use Rattle.tatp_judge.specs.NextLine.{asks_of};
ghost use Rattle.tatp_judge.specs.Population.{IsDirectoryOf};
ghost use Rattle.tatp_judge.specs.Steps.{AreEach, AsksCall, EndsCall, IsNotedBy, also_asked};
ghost use Rattle.tatp_judge.specs.Verdicts.{AreExplainedWhereClosed, IsSaid};

use crate::Undecided;
use crate::asked::{Asked, none_asked, subscriber_of};
use crate::outcome::{client_of, may_fail};
use crate::window::Window;
use crate::windows::{ask_in, end_in, windows_of};
use indexmap::IndexMap;
use std::alloc::{AllocError, Global};
use tatp_calls::Call;
use tatp_history::{Line, Observed, Outcome, only_reads};
use tatp_homes::homes;
use tatp_numbers::Directory;
use tatp_tables::Rows;

/// What is said of a history, but for the calls on subscribers that are set aside.
#[derive(Clone, Copy, Debug, PartialEq, Eq)]
pub enum Verdict {
    /// It is strictly serializable.
    Legal,
    /// Its first lines aren't, and those before the last of these are.
    Illegal {
        /// How many lines these are.
        line: u64,
        /// The subscriber whose calls in them no order explains; `None` where a call that names no
        /// subscriber was answered, and not by FAILED 1.
        s_id: Option<u64>,
    },
}

/// The judge of a history, which follows it line after line. Of each subscriber it keeps what
/// explains its calls so far, and what happened to them since none of them was open. A subscriber
/// of which more configurations are possible than may be kept is set aside, and the history is
/// still judged for all others.
#[derive(Drop)]
pub struct Judge {
    pub(crate) directory: Directory,
    /// Of each subscriber, by s_id from 1 on.
    pub(crate) windows: Vec<Window>,
    /// By client.
    pub(crate) asked: IndexMap<u64, Asked>,
    /// How many lines it followed.
    pub(crate) number: u64,
    /// The subscribers that were set aside.
    pub(crate) undecided: Vec<Undecided>,
    /// Whether the rows at the end may be asked for.
    pub(crate) exact: bool,
}

impl Judge {
    /// The judge of a history that begins with these rows. It keeps at most `most` configurations
    /// of one subscriber. `exact` says whether it may be asked for the rows at the end
    /// ([`Judge::finish_to`]). Else it needn't tell apart what they alone tell apart.
    pub fn new(alloc: Global, rows: &Rows, most: usize, exact: bool) -> Result<Judge, AllocError>
        requires { IsClean rows.now }
        ensures followed { IfOk result (HasFollowed (database_of rows.now) most []) }
        ensures none { IfOk result (λ judge. undecided_in judge ≡ []) }
        ensures exact { IfOk result (λ judge. judge.exact ≡ exact) }
    {
        let homes = homes(alloc, rows)?;
        let directory = Directory::of_clean(alloc, rows)?;
        let windows = windows_of(alloc, homes.as_slice(), most, exact)?;
        Ok(Judge {
            directory,
            windows,
            asked: none_asked(alloc),
            number: 0,
            undecided: Vec::new(alloc),
            exact,
        })
    }

    /// Follows a line. A verdict decides the history of all subscribers that aren't set aside,
    /// whatever follows.
    pub fn follow(&mut self, alloc: Global, line: &Line) -> Result<Option<Verdict>, AllocError>
        requires followed { (u : Database) × (most : ℕ) × (lines : List ALine)
            × HasFollowed u most lines self.old × (length lines + 2 < 2 ^ 64) }
        requires accepted { IsAcceptedLine line.now }
        ensures followed { result ≡ Ok None → (u : Database) (most : ℕ) (lines : List ALine)
            → HasFollowed u most lines self.old
            → HasFollowed u most (lines ++ line.now ∷ []) self.new }
        ensures decided { IfOk result (λ found. IfSome found (λ verdict.
            (u : Database) (most : ℕ) (lines more : List ALine)
            → HasFollowed u most lines self.old
            → IsSaid u most ((lines ++ line.now ∷ []) ++ more) (undecided_in self.new) verdict)) }
        ensures kept { (first : ℕ) (s_id : Option ℕ)
            → result ≡ Ok (Some (Verdict.Illegal first s_id))
            → (u : Database) (most : ℕ) (lines : List ALine) → HasFollowed u most lines self.old
            → HasKept u (lines ++ line.now ∷ []) self.new }
        ensures never { result ≡ Ok (Some Verdict.Legal) → ⊥ }
        ensures explained { result ≡ Ok None → (u : Database) (most : ℕ) (lines : List ALine)
            → HasFollowed u most lines self.old
            → AreExplainedWhereClosed u (undecided_in self.new) (lines ++ line.now ∷ []) }
        ensures exact { OnOk result (self.new.exact ≡ self.old.exact) }
    {
        let number = self.number + 1;
        let ended = self.asked.swap_remove(&client_of(line));
        self.note(&ended, number, line)?;
        self.number = number;
        match ended {
            Some(asked) => self.close(alloc, &asked, line),
            None => Ok(None),
        }
    }

    /// The verdict on the lines that were followed. Subscribers may be set aside for it.
    pub fn finish(&mut self, alloc: Global) -> Result<Verdict, AllocError>
        requires { (u : Database) × (most : ℕ) × (lines : List ALine)
            × HasFollowed u most lines self.old }
        ensures verdict { IfOk result (λ verdict. (u : Database) (most : ℕ) (lines : List ALine)
            → HasFollowed u most lines self.old
            → IsSaid u most lines (undecided_in self.new) verdict) }
        ensures kept { OnOk result ((u : Database) (most : ℕ) (lines : List ALine)
            → HasFollowed u most lines self.old → HasKept u lines self.new) }
        ensures followed { OnOk result ((u : Database) (most : ℕ) (lines : List ALine)
            → HasFollowed u most lines self.old → HasFollowed u most lines self.new) }
        ensures exact { OnOk result (self.new.exact ≡ self.old.exact) }
    {
        self.search(alloc, false, None)
    }

    /// The line of this number ends an open call, if there is one, and may ask another.
    fn note(&mut self, ended: &Option<Asked>, number: u64, line: &Line) -> Result<(), AllocError>
        requires directory { (u : Database)
            × IsDirectoryOf u (length self.old.windows.items) self.old.directory }
        requires within { IfSome ended.now (λ asked. IfSome asked.s_id (λ s.
            (1 ≤ s) × (s ≤ length self.old.windows.items))) }
        requires some { (place : ℕ) (w : AWindow) (asked : ℕ)
            → asked_on (suc place) ended.now ≡ Some asked
            → slice_get self.old.windows.items place ≡ Some w → 0 < w.waiting }
        requires rise { (place : ℕ) (w : AWindow)
            → slice_get self.old.windows.items place ≡ Some w
            → w.aside ≡ false → TimesRise w.events.items }
        requires few { (place : ℕ) (w : AWindow)
            → slice_get self.old.windows.items place ≡ Some w → w.waiting + 1 < 2 ^ 64 }
        ensures noted { OnOk result ((u : Database)
            → IsDirectoryOf u (length self.old.windows.items) self.old.directory
            → IsNotedBy u ended.now number line.now self.old self.new) }
        ensures exact { self.new.exact ≡ self.old.exact }
    {
        self.end(ended, number, line)?;
        match line {
            Line::Ask { client, call } => self.ask(*client, call, number),
            Line::End { .. } => Ok(()),
            Line::Abort { .. } => Ok(()),
            Line::Lost { .. } => Ok(()),
        }
    }

    /// The line of this number ends an open call, if there is one.
    fn end(&mut self, ended: &Option<Asked>, number: u64, line: &Line) -> Result<(), AllocError>
        requires within { IfSome ended.now (λ asked. IfSome asked.s_id (λ s.
            (1 ≤ s) × (s ≤ length self.old.windows.items))) }
        requires some { (place : ℕ) (w : AWindow) (asked : ℕ)
            → asked_on (suc place) ended.now ≡ Some asked
            → slice_get self.old.windows.items place ≡ Some w → 0 < w.waiting }
        requires rise { (place : ℕ) (w : AWindow)
            → slice_get self.old.windows.items place ≡ Some w
            → w.aside ≡ false → TimesRise w.events.items }
        ensures directory { self.new.directory ≡ self.old.directory }
        ensures asked { self.new.asked ≡ self.old.asked }
        ensures undecided { self.new.undecided.items ≡ self.old.undecided.items }
        ensures exact { self.new.exact ≡ self.old.exact }
        ensures windows { OnOk result (AreEach (λ place.
            EndsCall (asked_on (suc place) ended.now) number line.now)
            self.old.windows.items self.new.windows.items) }
    {
        match ended {
            Some(asked) => end_in(&mut self.windows, asked, number, line),
            None => Ok(()),
        }
    }

    /// A client asks a call in the line of this number.
    fn ask(&mut self, client: u64, call: &Call, number: u64) -> Result<(), AllocError>
        requires directory { (u : Database)
            × IsDirectoryOf u (length self.old.windows.items) self.old.directory }
        requires few { (place : ℕ) (w : AWindow)
            → slice_get self.old.windows.items place ≡ Some w → w.waiting + 1 < 2 ^ 64 }
        ensures directory { OnOk result (self.new.directory ≡ self.old.directory) }
        ensures undecided { OnOk result (self.new.undecided.items ≡ self.old.undecided.items) }
        ensures exact { self.new.exact ≡ self.old.exact }
        ensures asked { OnOk result ((u : Database)
            → IsDirectoryOf u (length self.old.windows.items) self.old.directory
            → (other : ℕ) → get nat_eq self.new.asked other
            ≡ also_asked u number (get nat_eq self.old.asked) (Ask client call.now) other) }
        ensures windows { OnOk result ((u : Database)
            → IsDirectoryOf u (length self.old.windows.items) self.old.directory
            → AreEach (λ place. AsksCall (asks_of u (suc place) number (Ask client call.now)))
            self.old.windows.items self.new.windows.items) }
    {
        let s_id = subscriber_of(&self.directory, call);
        let reads = only_reads(call);
        self.asked.insert(
            client,
            Asked {
                s_id,
                number,
                reads,
            },
        )?;
        let x = Observed {
            asked: number,
            call: *call,
            outcome: Outcome::Unknown,
        };
        ask_in(&mut self.windows, s_id, &x)
    }

    /// After the last line ended a call: whether that decides the history.
    fn close(
        &mut self,
        alloc: Global,
        asked: &Asked,
        line: &Line,
    ) -> Result<Option<Verdict>, AllocError>
        requires noted { (u : Database) × (most : ℕ) × (lines : List ALine)
            × HasNoted u most lines self.old
            × EndsAs u lines asked.now (end_at self.old.number line.now) }
        requires within { IfSome asked.now.s_id (λ s.
            (1 ≤ s) × (s ≤ length self.old.windows.items)) }
        requires forgets { Forgets self.old asked.now.s_id }
        ensures followed { result ≡ Ok None → (u : Database) (most : ℕ) (lines : List ALine)
            → HasNoted u most lines self.old
            → EndsAs u lines asked.now (end_at self.old.number line.now)
            → HasFollowed u most lines self.new }
        ensures decided { IfOk result (λ found. IfSome found (λ verdict.
            (u : Database) (most : ℕ) (lines more : List ALine)
            → HasNoted u most lines self.old
            → EndsAs u lines asked.now (end_at self.old.number line.now)
            → IsSaid u most (lines ++ more) (undecided_in self.new) verdict)) }
        ensures kept { (first : ℕ) (s_id : Option ℕ)
            → result ≡ Ok (Some (Verdict.Illegal first s_id))
            → (u : Database) (most : ℕ) (lines : List ALine) → HasNoted u most lines self.old
            → EndsAs u lines asked.now (end_at self.old.number line.now)
            → HasKept u lines self.new }
        ensures never { result ≡ Ok (Some Verdict.Legal) → ⊥ }
        ensures exact { OnOk result (self.new.exact ≡ self.old.exact) }
    {
        match asked.s_id {
            Some(s_id) => self.close_on(alloc, s_id),
            None => {
                if may_fail(self.number, line) {
                    Ok(None)
                } else {
                    Ok(Some(self.search(alloc, true, None)?))
                }
            }
        }
    }
}
