//! Subscribers that are set aside, by the numbers of lines in the input.
ghost use Rattle.std.specs.Prelude.{◌≡◌, ◌≤◌, ◌++◌, [], ◌∷◌, IfOk, OnOk, length};
ghost use Rattle.std.specs.List.{AllByRecursion};
ghost use Rattle.tatp_judged_inputs.specs.Judged.{aside_told, number_after};
ghost use Rattle.tatp_judged_inputs.specs.RowsAtEnd.{told_at};

use crate::reading::Reading;
use std::alloc::{AllocError, Global};
use tatp_judge::Undecided;

impl Reading {
    /// The number in the input of line `lines` of the history; for 0, how many lines of the input
    /// come before the history.
    fn number_after(&self, lines: u64, taken: u64) -> u64
        requires { lines ≤ length self.now.numbers.items }
        ensures { result ≡ number_after taken self.now.numbers.items lines }
    {
        if lines == 0 {
            taken
        } else {
            self.numbers.at(lines - 1)
        }
    }

    /// The subscribers that the judge set aside, by the numbers of the lines in the input, `taken`
    /// of which come before the history.
    pub(crate) fn undecided(
        &self,
        alloc: Global,
        aside: &[Undecided],
        taken: u64,
    ) -> Result<Vec<Undecided>, AllocError>
        requires { AllByRecursion (λ one. one.line ≤ length self.now.numbers.items) aside.now }
        ensures { IfOk result (λ told.
            told.items ≡ aside_told taken self.now.numbers.items aside.now) }
    {
        let mut told = Vec::new(alloc);
        'aside: for i in 0..aside.len() {
            let one = aside[i];
            let line = self.number_after(one.line, taken);
            told.push(Undecided {
                line,
                s_id: one.s_id,
            })?;
        }
        Ok(told)
    }
}

/// Adds those that are set aside by this line.
pub(crate) fn add_at(
    told: &mut Vec<Undecided>,
    aside: &[Undecided],
    line: u64,
) -> Result<(), AllocError>
    ensures { OnOk result (told.new.items ≡ told.old.items ++ told_at line aside.now) }
{
    'aside: for i in 0..aside.len() {
        told.push(Undecided {
            line,
            s_id: aside[i].s_id,
        })?;
    }
    Ok(())
}
