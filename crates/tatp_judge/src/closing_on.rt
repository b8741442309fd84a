//! The calls on a subscriber, after one of them ended.
ghost use Rattle.std.specs.Prelude.{◌≡◌, ◌≤◌, ℕ, ◌++◌, IfOk, IfSome, OnOk, Ok, None, Option, Some, List, length};
ghost use Rattle.tatp_tables.specs.Database.{Database};
ghost use Rattle.tatp_history.specs.declared.line.Line.{Line as ALine};
ghost use Rattle.tatp_judge.specs.Aside.{undecided_in};
ghost use Rattle.tatp_judge.specs.Followed.{EndsOn, Forgets, HasFollowed, HasKept, HasNoted};
ghost use Rattle.tatp_judge.specs.Verdicts.{IsSaid};

use crate::judge::{Judge, Verdict};
use crate::windows::close_in;
use std::alloc::{AllocError, Global};
use tatp_linearization::Standing;

impl Judge {
    /// After the last line ended a call on the subscriber: whether that decides the history.
    pub(crate) fn close_on(
        &mut self,
        alloc: Global,
        s_id: u64,
    ) -> Result<Option<Verdict>, AllocError>
        requires noted { (u : Database) × (most : ℕ) × (lines : List ALine)
            × HasNoted u most lines self.old × EndsOn u lines }
        requires within { (1 ≤ s_id) × (s_id ≤ length self.old.windows.items) }
        requires forgets { Forgets self.old (Some s_id) }
        ensures followed { result ≡ Ok None → (u : Database) (most : ℕ) (lines : List ALine)
            → HasNoted u most lines self.old → EndsOn u lines
            → HasFollowed u most lines self.new }
        ensures decided { IfOk result (λ found. IfSome found (λ verdict.
            (u : Database) (most : ℕ) (lines more : List ALine)
            → HasNoted u most lines self.old → EndsOn u lines
            → IsSaid u most (lines ++ more) (undecided_in self.new) verdict)) }
        ensures kept { (first : ℕ) (named : Option ℕ)
            → result ≡ Ok (Some (Verdict.Illegal first named))
            → (u : Database) (most : ℕ) (lines : List ALine)
            → HasNoted u most lines self.old → EndsOn u lines → HasKept u lines self.new }
        ensures never { result ≡ Ok (Some Verdict.Legal) → ⊥ }
        ensures exact { OnOk result (self.new.exact ≡ self.old.exact) }
    {
        if self.windows[s_id as usize - 1].aside {
            return Ok(None);
        }
        match close_in(alloc, &mut self.windows, s_id, self.number)? {
            Standing::Explained => Ok(None),
            Standing::Unexplained => match self.search(alloc, true, Some(s_id))? {
                Verdict::Legal => Ok(None),
                verdict => Ok(Some(verdict)),
            },
            Standing::Undecided => {
                self.set_aside(alloc, s_id)?;
                Ok(None)
            }
        }
    }
}
