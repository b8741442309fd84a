//! Which lines are reported for a subscriber whose calls no order explains.
ghost use Rattle.std.specs.Prelude.{◌≤◌, ℕ, All, Some, IfOk, List, length, take};
ghost use Rattle.tatp_tables.specs.Database.{Database};
ghost use Rattle.tatp_history.specs.declared.line.Line.{Line as ALine};
ghost use Rattle.tatp_judge.specs.Aside.{undecided_in};
ghost use Rattle.tatp_judge.specs.Explained.{AreWindowNumbers};
ghost use Rattle.tatp_judge.specs.Followed.{HasKept};
ghost use Rattle.tatp_judge.specs.Verdicts.{IsOther, IsUnexplained};

use crate::judge::Judge;
use std::alloc::{AllocError, Global};

impl Judge {
    /// The numbers of the lines in which the subscriber's calls were asked and ended, up to this
    /// line, by which no order explains them. They begin after the last time that none was open.
    pub fn window_numbers(
        &self,
        alloc: Global,
        s_id: u64,
        line: u64,
    ) -> Result<Vec<u64>, AllocError>
        requires { (u : Database) × (lines : List ALine) × HasKept u lines self.now
            × (line ≤ length lines) × IsUnexplained u lines line (Some s_id)
            × IsOther (undecided_in self.now) (Some s_id) }
        ensures within { IfOk result (λ numbers. All (λ n. (1 ≤ n) × (n ≤ line)) numbers.items) }
        ensures numbers { IfOk result (λ numbers. (u : Database) (lines : List ALine)
            → HasKept u lines self.now → line ≤ length lines
            → IsUnexplained u lines line (Some s_id)
            → IsOther (undecided_in self.now) (Some s_id)
            → AreWindowNumbers u s_id (take line lines) numbers.items) }
    {
        let window = &self.windows[s_id as usize - 1];
        let mut numbers = Vec::new(alloc);
        numbers.extend_from_slice(window.numbers.as_slice())?;
        numbers.retain(|number| *number <= line);
        Ok(numbers)
    }
}
