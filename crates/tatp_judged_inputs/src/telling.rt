//! What is reported with a verdict: lines of the history, and legal replies.
ghost use Rattle.std.specs.Prelude.{◌≡◌, ◌≤◌, ℕ, All, Some, IfOk, List, length};
ghost use Rattle.tatp_history.specs.declared.line.Line.{Line as ALine};
ghost use Rattle.tatp_judge.specs.Aside.{undecided_in};
ghost use Rattle.tatp_judge.specs.Verdicts.{IsOther};
ghost use Rattle.tatp_judged_inputs.specs.Views.{HasKept, IsSaid, IsUnexplained, View};
ghost use Rattle.tatp_judged_inputs.specs.Judged.{IsUntold, IsWindowBy, IsWindowTold, first_told, in_input};
ghost use Rattle.tatp_judged_inputs.specs.Reading.{IsKeptFor, IsNumbered, told_of};

use crate::judging::Window;
use crate::reading::Reading;
use std::alloc::{AllocError, Global};
use tatp_judge::{Judge, Verdict};

/// Nothing is reported.
fn nothing(alloc: Global) -> Window
    ensures { IsUntold result }
{
    Window {
        lines: Vec::new(alloc),
        legal: None,
    }
}

impl Reading {
    /// The numbers in the input of the history's lines with these numbers.
    fn in_input(&self, alloc: Global, lines: &[u64]) -> Result<Vec<u64>, AllocError>
        requires { All (λ line. (1 ≤ line) × (line ≤ length self.now.numbers.items)) lines.now }
        ensures { IfOk result (λ told. told.items ≡ in_input self.now.numbers.items lines.now) }
    {
        let mut told = Vec::new(alloc);
        'lines: for i in 0..lines.len() {
            let line = lines[i];
            let number = self.numbers.at(line - 1);
            told.push(number)?;
        }
        Ok(told)
    }

    /// What is reported where the subscriber's calls are unexplained up to a line of the history.
    fn explained(
        &self,
        alloc: Global,
        judge: &Judge,
        s_id: u64,
        line: u64,
    ) -> Result<Window, AllocError>
        requires { (u : View) × (past : List ALine) × IsNumbered u self.now past
            × HasKept u past judge.now × (line ≤ length past)
            × IsUnexplained u past line (Some s_id)
            × IsOther (undecided_in judge.now) (Some s_id) }
        ensures { IfOk result (λ window. (u : View) (past : List ALine)
            → IsNumbered u self.now past → HasKept u past judge.now → line ≤ length past
            → IsUnexplained u past line (Some s_id)
            → IsOther (undecided_in judge.now) (Some s_id)
            → IsWindowTold u s_id (first_told line (told_of self.now past)) window) }
    {
        let numbers = judge.window_numbers(alloc, s_id, line)?;
        let lines = self.in_input(alloc, numbers.as_slice())?;
        let legal = judge.legal_replies(alloc, s_id, line)?;
        Ok(Window { lines, legal })
    }

    /// What is reported with a verdict.
    pub(crate) fn window(
        &self,
        alloc: Global,
        judge: &Judge,
        verdict: &Verdict,
    ) -> Result<Window, AllocError>
        requires { (u : View) × (most : ℕ) × (past : List ALine) × IsNumbered u self.now past
            × IsSaid u most past (undecided_in judge.now) verdict.now
            × IsKeptFor u past verdict.now judge.now }
        ensures { IfOk result (λ window. (u : View) (most : ℕ) (past : List ALine)
            → IsNumbered u self.now past
            → IsSaid u most past (undecided_in judge.now) verdict.now
            → IsKeptFor u past verdict.now judge.now
            → IsWindowBy u (told_of self.now past) verdict.now window) }
    {
        match *verdict {
            Verdict::Legal => Ok(nothing(alloc)),
            Verdict::Illegal { line, s_id } => match s_id {
                Some(s_id) => self.explained(alloc, judge, s_id, line),
                None => Ok(nothing(alloc)),
            },
        }
    }
}
