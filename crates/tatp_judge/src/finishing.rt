//! Whether some order of a history's calls leads to the rows at its end.
ghost use Rattle.std.specs.Prelude.{◌≡◌, ℕ, true, IfOk, OnOk, List};
ghost use Rattle.tatp_tables.specs.Clean.{IsClean};
ghost use Rattle.tatp_tables.specs.Database.{Database, database_of};
ghost use Rattle.tatp_history.specs.declared.line.Line.{Line as ALine};
ghost use Rattle.tatp_judge.specs.Aside.{AddsAside, undecided_in};
ghost use Rattle.tatp_judge.specs.Finishing.{IsFinalVerdictOn};
ghost use Rattle.tatp_judge.specs.Followed.{HasFollowed};
ghost use Rattle.tatp_judge.specs.Leaving.{GoesToEnd, SaysLeft};
ghost use Rattle.tatp_judge.specs.Parts.{IsPart};
ghost use Rattle.tatp_judge.specs.Verdicts.{AreUndecided, IsLegalBut};
ghost use Rattle.tatp_judge.specs.Windows.{IsWindowAfter};

use crate::judge::Judge;
use crate::part::Part;
use crate::window::Window;
use std::alloc::{AllocError, Global};
use tatp_homes::{Home, homes};
use tatp_linearization::Standing;
use tatp_tables::Rows;

/// What is said of a history and the rows at its end, but for subscribers that are set aside.
#[derive(Clone, Copy, Debug, PartialEq, Eq)]
pub enum FinalVerdict {
    /// Some order of its calls leads to them.
    Reached,
    /// None does. This is the first of the part's subscribers for which no order of its calls
    /// results in its rows.
    Unreached(u64),
}

impl Window {
    /// Follows all events, if an order explains the subscriber's calls.
    fn go_to_end(&mut self, alloc: Global) -> Result<Standing, AllocError>
        requires { (u : Database) × (most : ℕ) × (s : ℕ) × (lines : List ALine)
            × IsWindowAfter u most s lines self.old }
        ensures goes { IfOk result (λ standing. (u : Database) (most s : ℕ) (lines : List ALine)
            → IsWindowAfter u most s lines self.old
            → GoesToEnd u most s lines standing self.new) }
        ensures exact { self.new.explanations.exact ≡ self.old.explanations.exact }
    {
        if self.events.is_empty() {
            return Ok(Standing::Explained);
        }
        self.explanations.follow(alloc, self.events.as_slice())
    }

    /// Whether some order of the subscriber's calls results in these rows. Calls that are open at
    /// the end may have taken effect.
    fn leads_to(&mut self, alloc: Global, rows: &Home) -> Result<Standing, AllocError>
        requires window { (u : Database) × (most : ℕ) × (lines : List ALine)
            × IsWindowAfter u most rows.now.s_id lines self.old }
        requires exact { self.old.explanations.exact ≡ true }
        ensures { IfOk result (λ standing. (u : Database) (most : ℕ) (lines : List ALine)
            → IsWindowAfter u most rows.now.s_id lines self.old
            → SaysLeft u most rows.now.s_id lines rows.now.tables standing) }
    {
        match self.go_to_end(alloc)? {
            Standing::Explained => self.explanations.leads_to(alloc, rows),
            Standing::Unexplained => Ok(Standing::Unexplained),
            Standing::Undecided => Ok(Standing::Undecided),
        }
    }
}

impl Judge {
    /// Whether some order of the calls that were followed leads to these rows of the part's
    /// subscribers that aren't set aside. More of them may be set aside for it. After this the
    /// judge follows no more lines. It has to have been told that this would be asked.
    pub fn finish_to(
        &mut self,
        alloc: Global,
        part: &Part,
        rows: &Rows,
    ) -> Result<FinalVerdict, AllocError>
        requires part { IsPart part.now }
        requires followed { (u : Database) × (most : ℕ) × (lines : List ALine)
            × HasFollowed u most lines self.old }
        requires exact { self.old.exact ≡ true }
        requires clean { IsClean rows.now }
        ensures verdict { IfOk result (λ verdict. (u : Database) (most : ℕ) (lines : List ALine)
            → HasFollowed u most lines self.old → IsFinalVerdictOn u part.now
            (undecided_in self.new) lines (database_of rows.now) verdict) }
        ensures aside { OnOk result ((u : Database) (most : ℕ) (lines : List ALine)
            → HasFollowed u most lines self.old
            → AreUndecided u most lines (undecided_in self.new)) }
        ensures more { OnOk result (AddsAside self.old self.new) }
        ensures legal { OnOk result ((u : Database) (most : ℕ) (lines : List ALine)
            → HasFollowed u most lines self.old → IsLegalBut u (undecided_in self.old) lines
            → IsLegalBut u (undecided_in self.new) lines) }
    {
        let homes = homes(alloc, rows)?;
        let count = homes.len().max(self.windows.len());
        'homes: for i in 0..count {
            let s_id = i as u64 + 1;
            if part.has(Some(s_id)) {
                if i >= self.windows.len() {
                    return Ok(FinalVerdict::Unreached(s_id));
                }
                if !self.windows[i].aside {
                    if i >= homes.len() {
                        return Ok(FinalVerdict::Unreached(s_id));
                    }
                    match self.windows[i].leads_to(alloc, &homes[i])? {
                        Standing::Explained => {}
                        Standing::Unexplained => return Ok(FinalVerdict::Unreached(s_id)),
                        Standing::Undecided => self.set_aside(alloc, s_id)?,
                    }
                }
            }
        }
        Ok(FinalVerdict::Reached)
    }
}
