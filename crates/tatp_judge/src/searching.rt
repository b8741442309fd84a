//! The first illegal line among the windows.
ghost use Rattle.std.specs.Prelude.{◌≡◌, ◌+◌, ◌<◌, ◌^◌, ℕ, suc, true, IfOk, OnOk, List, None, Some, length, slice_get};
ghost use Rattle.tatp_tables.specs.Database.{Database};
ghost use Rattle.tatp_history.specs.declared.line.Line.{Line as ALine};
ghost use Rattle.tatp_judge.specs.declared.window.Window.{Window as AWindow};
ghost use Rattle.tatp_judge.specs.Aside.{undecided_in};
ghost use Rattle.tatp_judge.specs.Followed.{IsSearchable};
ghost use Rattle.tatp_judge.specs.Searching.{IsSearchedFor, ReleasesSome};
ghost use Rattle.tatp_judge.specs.Verdicts.{IsSaid};
ghost use Rattle.tatp_judge.specs.Windows.{IsFirstOf};

use crate::judge::{Judge, Verdict};
use std::alloc::{AllocError, Global};
use tatp_linearization::First;

/// The last line, if it is known to be illegal by a call that names no subscriber; else the next.
fn bound(number: u64, illegal: bool, s_id: Option<u64>) -> u64
    requires { number + 1 < 2 ^ 64 }
    ensures last { illegal ≡ true → s_id ≡ None → result ≡ number }
    ensures next { (illegal ≡ true → s_id ≡ None → ⊥) → result ≡ number + 1 }
{
    match s_id {
        Some(_) => number + 1,
        None => { if illegal { number } else { number + 1 } }
    }
}

/// Whether the lines are known to be illegal by the calls on this subscriber.
fn is_known(illegal: bool, s_id: Option<u64>, own: u64) -> bool
    ensures parts { result ≡ true → (illegal ≡ true) × (s_id ≡ Some own) }
    ensures both { illegal ≡ true → s_id ≡ Some own → result ≡ true }
{
    match s_id {
        Some(s_id) => illegal && s_id == own,
        None => false,
    }
}

impl Judge {
    /// The first line by which the calls of the window at this place are unexplained. `known` says
    /// whether they are known to be unexplained by the last line.
    fn first_at(&self, alloc: Global, place: usize, known: bool) -> Result<First, AllocError>
        requires inside { place < length self.now.windows.items }
        requires window { (w : AWindow) → slice_get self.now.windows.items place ≡ Some w
            → (u : Database) × (most : ℕ) × (lines : List ALine)
            × IsSearchedFor u most (suc place) lines known w
            × (self.now.number ≡ length lines) }
        ensures { IfOk result (λ first. (w : AWindow)
            → slice_get self.now.windows.items place ≡ Some w
            → (u : Database) (most : ℕ) (lines : List ALine)
            → IsSearchedFor u most (suc place) lines known w
            → self.now.number ≡ length lines → IsFirstOf u most (suc place) lines first) }
    {
        let window = &self.windows[place];
        if known && window.events.is_empty() {
            return Ok(First::At(self.number));
        }
        window.first_unexplained(alloc, self.number)
    }

    /// The verdict on the lines so far, by all windows as they are. `illegal` says if the lines are
    /// known to be illegal, and `s_id` by whose calls. Subscribers may be set aside for it.
    pub(crate) fn search(
        &mut self,
        alloc: Global,
        illegal: bool,
        s_id: Option<u64>,
    ) -> Result<Verdict, AllocError>
        requires { (u : Database) × (most : ℕ) × (lines : List ALine)
            × IsSearchable u most lines illegal s_id self.old }
        ensures said { IfOk result (λ verdict. (u : Database) (most : ℕ) (lines : List ALine)
            → IsSearchable u most lines illegal s_id self.old
            → IsSaid u most lines (undecided_in self.new) verdict) }
        ensures searchable { OnOk result ((u : Database) (most : ℕ) (lines : List ALine)
            → IsSearchable u most lines illegal s_id self.old
            → IsSearchable u most lines illegal s_id self.new) }
        ensures windows { OnOk result (ReleasesSome self.old self.new) }
        ensures exact { OnOk result (self.new.exact ≡ self.old.exact) }
    {
        let number = self.number;
        let mut least = bound(number, illegal, s_id);
        let mut whose = None;
        'windows: for i in 0..self.windows.len() {
            if !self.windows[i].aside {
                let own = i as u64 + 1;
                match self.first_at(alloc, i, is_known(illegal, s_id, own))? {
                    First::Never => {}
                    First::At(line) => {
                        if line < least {
                            least = line;
                            whose = Some(own);
                        }
                    }
                    First::Undecided => self.set_aside(alloc, own)?,
                }
            }
        }
        if least > number {
            Ok(Verdict::Legal)
        } else {
            Ok(Verdict::Illegal {
                line: least,
                s_id: whose,
            })
        }
    }
}
