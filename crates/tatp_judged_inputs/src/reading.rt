//! A history, read line by line.
ghost use Rattle.std.specs.Prelude.{◌≡◌, ◌++◌, ◌∷◌, [], ◌+◌, ℕ, List, Ok, None, Some, IfOk, IfErr, IfSome, OnOk, length};
ghost use Rattle.tatp_history.specs.declared.line.Line.{Line as ALine};
ghost use Rattle.tatp_history_lines.specs.Open.{open_call};
ghost use Rattle.tatp_judged_inputs.specs.Views.{HasCounted, HasFollowed, IsVerdictOn, View};
ghost use Rattle.tatp_judged_inputs.specs.HistoryTexts.{said_in};
ghost use Rattle.tatp_judged_inputs.specs.Reading.{RefusesText, RefusesHistory, Decides, GoesOn, IsNumbered, told_by};

use crate::HistoryFault;
use crate::line_numbers::LineNumbers;
use std::alloc::Global;
use tatp_history::Line;
use tatp_history_lines::{LineFault, OpenCalls};
use tatp_judge::{Counts, Judge, Part, Verdict};
use tatp_streams::text_of;

/// What was read of a history.
#[derive(Drop)]
pub(crate) struct Reading {
    /// The calls that are open.
    pub(crate) opened: OpenCalls,
    /// The numbers that its lines have in the input.
    pub(crate) numbers: LineNumbers,
    /// What was at stake in them.
    pub(crate) counts: Counts,
    /// The part of the history that is judged.
    pub(crate) part: Part,
}

/// What a text says, which has to be UTF-8.
#[tactic(auto, unfolding(crate::specs::HistoryTexts::said_in))]
fn said_in(opened: &OpenCalls, text: &[u8]) -> Result<Option<Line>, LineFault>
    ensures { result ≡ said_in (open_call opened.now) text.now }
{
    match text_of(text) {
        Some(text) => opened.read(text),
        None => Err(LineFault::BadLine),
    }
}

/// The fault of the line with this number.
fn fault_at(number: u64, fault: LineFault) -> HistoryFault
    ensures { RefusesText number fault result }
{
    match fault {
        LineFault::BadLine => HistoryFault::BadLine(number),
        LineFault::BadArgument(bad) => HistoryFault::BadArgument(number, bad),
    }
}

impl Reading {
    /// A text is the next, and has this number: the judge follows what its line says of the part,
    /// if it says one. A verdict decides the history.
    #[tactic(auto, using(crate::proofs::HistoryLaws::none_taken, crate::proofs::HistoryLaws::text_refused))]
    pub(crate) fn take(
        &mut self,
        alloc: Global,
        judge: &mut Judge,
        number: u64,
        text: &[u8],
    ) -> Result<Option<Verdict>, HistoryFault>
        requires { (u : View) × (most : ℕ) × (past : List ALine)
            × HasFollowed u most past judge.old × IsNumbered u self.old past
            × HasCounted u past self.old.counts }
        ensures goes_on { result ≡ Ok None → (u : View) (most : ℕ) (past : List ALine)
            → HasFollowed u most past judge.old → IsNumbered u self.old past
            → HasCounted u past self.old.counts
            → GoesOn u most past number text.now judge.new self.old self.new }
        ensures decided { IfOk result (λ found. IfSome found (λ verdict.
            (u : View) (most : ℕ) (past : List ALine)
            → HasFollowed u most past judge.old → IsNumbered u self.old past
            → HasCounted u past self.old.counts
            → Decides u most past number text.now verdict judge.new self.old self.new)) }
        ensures never { result ≡ Ok (Some Verdict.Legal) → ⊥ }
        ensures exact { OnOk result (judge.new.exact ≡ judge.old.exact) }
        ensures faults { IfErr result (λ fault. (past : List ALine) (more : List (List ℕ))
            → RefusesHistory (told_by self.old past number (text.now ∷ more)) fault) }
    {
        match said_in(&self.opened, text) {
            Ok(None) => Ok(None),
            Ok(Some(line)) => {
                self.numbers.push(number)?;
                let of_part = judge.line_of_part(&self.part, &line);
                self.counts.count(judge, &of_part);
                let found = judge.follow(alloc, &of_part)?;
                self.opened.follow(&line)?;
                Ok(found)
            }
            Err(fault) => Err(fault_at(number, fault)),
        }
    }
}
