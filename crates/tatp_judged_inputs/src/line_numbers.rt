//! The numbers that the lines of a history have in the input.
ghost use Rattle.std.specs.Prelude.{◌≡◌, ◌+◌, ◌<◌, ◌≤◌, ◌^◌, ◌++◌, ◌∷◌, [], OnOk, OnErr, length, slice_index, true, false};
ghost use Rattle.tatp_judged_inputs.specs.LineNumbers.{AreFit, numbers_in};

use std::alloc::{AllocError, Global};
use std::marker::Model;

/// The most numbers that there may be. No input has this many lines.
const MOST: u64 = 1 << 62;

/// Numbers each of which is one more than the one before.
#[derive(Clone, Copy, Debug)]
struct Run {
    first: u64,
    count: u64,
}

/// Numbers, in the order in which they were added. Those that are each one more than the one
/// before, as of lines without comments between them, take the memory of one run.
#[derive(Drop)]
pub(crate) struct LineNumbers {
    runs: Vec<Run>,
    count: u64,
}

impl Model for LineNumbers {
    ghost use Rattle.tatp_judged_inputs.specs.LineNumbers.{NumberList, HoldNumbers, numbers_in};

    ghost Value = { NumberList };

    ghost view = { λ a. record { items = numbers_in a.runs.items } };

    ghost invariant = { λ a. HoldNumbers a.runs.items a.count };
}

/// Whether a number is one more than the last of a run, which may be longer.
fn continues(run: &Run, number: u64) -> bool
    ensures next { result ≡ true → run.now.first + run.now.count ≡ number }
    ensures few { result ≡ true → run.now.count + 1 < 2 ^ 64 }
{
    run.first <= number && number - run.first == run.count && run.count < MOST
}

/// Adds the number to the last run, if it continues that.
fn continue_last(runs: &mut Vec<Run>, number: u64) -> bool
    requires fit { AreFit runs.old.items }
    ensures more { result ≡ true
        → numbers_in runs.new.items ≡ numbers_in runs.old.items ++ number ∷ [] }
    ensures same { result ≡ false → runs.new.items ≡ runs.old.items }
    ensures fit { AreFit runs.new.items }
{
    let count = runs.len();
    if count == 0 || !continues(&runs[count - 1], number) {
        return false;
    }
    runs[count - 1].count += 1;
    true
}

/// Adds the number to the runs.
fn add(runs: &mut Vec<Run>, number: u64) -> Result<(), AllocError>
    requires fit { AreFit runs.old.items }
    ensures added { OnOk result
        (numbers_in runs.new.items ≡ numbers_in runs.old.items ++ number ∷ []) }
    ensures fit { AreFit runs.new.items }
    ensures err { OnErr result (runs.new.items ≡ runs.old.items) }
{
    if continue_last(runs, number) {
        return Ok(());
    }
    runs.push(Run {
        first: number,
        count: 1,
    })?;
    Ok(())
}

/// The number at a place.
fn number_at(runs: &[Run], place: u64) -> u64
    requires fit { AreFit runs.now }
    requires inside { place < length (numbers_in runs.now) }
    ensures { result ≡ slice_index (numbers_in runs.now) place }
{
    let mut left = place;
    'runs: for i in 0..runs.len() {
        let run = runs[i];
        if left < run.count {
            return run.first + left;
        }
        left -= run.count;
    }
    unreachable!()
}

impl LineNumbers {
    /// No numbers.
    pub(crate) fn new(alloc: Global) -> LineNumbers
        ensures items { result.items ≡ [] }
    {
        LineNumbers {
            runs: Vec::new(alloc),
            count: 0,
        }
    }

    /// Adds a number.
    pub(crate) fn push(&mut self, number: u64) -> Result<(), AllocError>
        ensures items { OnOk result (self.new.items ≡ self.old.items ++ number ∷ []) }
        ensures few { OnOk result (length self.old.items + 2 < 2 ^ 64) }
    {
        if self.count >= MOST {
            return Err(AllocError);
        }
        add(&mut self.runs, number)?;
        self.count += 1;
        Ok(())
    }

    /// The number at a place.
    pub(crate) fn at(&self, place: u64) -> u64
        requires { place < length self.now.items }
        ensures { result ≡ slice_index self.now.items place }
    {
        number_at(self.runs.as_slice(), place)
    }
}
