//! The verdict on the history in the remaining lines of an input.
ghost use Rattle.std.specs.Prelude.{◌≡◌, [], ℕ, ◌+◌, IfOk, IfErr, IfSome, List};
ghost use Rattle.tatp_history.specs.declared.line.Line.{Line as ALine};
ghost use Rattle.tatp_judge.specs.declared.aside.Undecided.{Undecided as AnUndecided};
ghost use Rattle.tatp_judge.specs.Aside.{undecided_in};
ghost use Rattle.tatp_streams.specs.LineReading.{lines_left};
ghost use Rattle.tatp_judged_inputs.specs.Views.{HasCounted, IsBegun, IsSaid, IsVerdictOn, View};
ghost use Rattle.tatp_judged_inputs.specs.HistoryTexts.{history_from, none_open};
ghost use Rattle.tatp_judged_inputs.specs.Judged.{IsJudgement, IsTold, IsWindowBy, aside_told};
ghost use Rattle.tatp_judged_inputs.specs.Reading.{IsKeptFor, IsNumbered, RefusesHistory, told_of};

use crate::line_numbers::LineNumbers;
use crate::reading::Reading;
use crate::{HistoryFault, Progress};
use std::alloc::{AllocError, Global};
use std::io::Read;
use tatp_history_lines::OpenCalls;
use tatp_judge::{Counts, Judge, LegalReplies, Part, Stakes, Undecided, Verdict};
use tatp_streams::LineReader;

/// What is said of a history in an input, but for subscribers that are set aside.
#[derive(Clone, Copy, Debug, PartialEq, Eq)]
pub enum Judged {
    /// It is strictly serializable, and this was at stake.
    Legal(Stakes),
    /// Up to a line of the input it isn't, and up to the one before it is.
    Illegal {
        /// The number of that line, counted from 1.
        line: u64,
        /// The subscriber whose calls no order explains up to there; `None` where a call that names
        /// no subscriber was answered, and not by FAILED 1.
        s_id: Option<u64>,
    },
    /// It is, and no order of its calls leads to the rows at its end.
    Unreached {
        /// The number of the line `.` before these rows.
        line: u64,
        /// The first subscriber for which no order of its calls results in its rows.
        s_id: u64,
    },
}

/// What is reported where a subscriber's calls are unexplained.
#[derive(Drop)]
pub struct Window {
    /// The numbers in the input of the lines in which its calls were asked and ended, since none of
    /// them was open.
    pub lines: Vec<u64>,
    /// The replies with which the last line could have answered its call, if it answers one and
    /// they are known.
    pub legal: Option<LegalReplies>,
}

/// What is said of a history in an input, and what is reported with it.
#[derive(Drop)]
pub struct Judgement {
    /// What is said of all subscribers but those that are set aside.
    pub judged: Judged,
    /// These, each with the number of the line by which it isn't known any more whether an order
    /// explains its calls.
    pub undecided: Vec<Undecided>,
    pub window: Window,
}

impl Reading {
    /// A verdict by the numbers of the lines in the input.
    pub(crate) fn judged(&self, verdict: &Verdict) -> Judged
        requires { (u : View) × (aside : List AnUndecided) × (past : List ALine)
            × IsNumbered u self.now past × IsVerdictOn u aside past verdict.now
            × HasCounted u past self.now.counts }
        ensures { (u : View) (past : List ALine) → HasCounted u past self.now.counts
            → IsTold u (told_of self.now past) verdict.now result }
    {
        match *verdict {
            Verdict::Legal => Judged::Legal(self.counts.stakes()),
            Verdict::Illegal { line, s_id } => {
                let line = self.numbers.at(line - 1);
                Judged::Illegal { line, s_id }
            }
        }
    }

    /// A verdict by the numbers of the lines in the input, `taken` of which precede the history,
    /// and what is reported with it.
    pub(crate) fn judgement(
        &self,
        alloc: Global,
        judge: &Judge,
        verdict: &Verdict,
        taken: u64,
    ) -> Result<Judgement, AllocError>
        requires { (u : View) × (most : ℕ) × (past : List ALine) × IsNumbered u self.now past
            × IsSaid u most past (undecided_in judge.now) verdict.now
            × IsKeptFor u past verdict.now judge.now × HasCounted u past self.now.counts }
        ensures judged { IfOk result (λ judgement. (u : View) (past : List ALine)
            → HasCounted u past self.now.counts
            → IsTold u (told_of self.now past) verdict.now judgement.judged) }
        ensures undecided { IfOk result (λ judgement. judgement.undecided.items
            ≡ aside_told taken self.now.numbers.items (undecided_in judge.now)) }
        ensures window { IfOk result (λ judgement. (u : View) (most : ℕ) (past : List ALine)
            → IsNumbered u self.now past
            → IsSaid u most past (undecided_in judge.now) verdict.now
            → IsKeptFor u past verdict.now judge.now
            → IsWindowBy u (told_of self.now past) verdict.now judgement.window) }
    {
        let judged = self.judged(verdict);
        let undecided = self.undecided(alloc, judge.undecided(), taken)?;
        let window = self.window(alloc, judge, verdict)?;
        Ok(Judgement {
            judged,
            undecided,
            window,
        })
    }
}

/// The verdict on a part of the history in all remaining lines of an input. Lines after the one
/// that decides it aren't read.
pub fn judge_history<R: Read, P: Progress>(
    alloc: Global,
    part: &Part,
    judge: &mut Judge,
    lines: &mut LineReader,
    reader: &mut R,
    progress: &mut P,
) -> Result<Judgement, HistoryFault>
    requires { (u : View) × (most : ℕ) × IsBegun u most part.now judge.old }
    ensures judged { IfOk result (λ judgement.
        IfSome (lines_left lines.old (R.remaining reader.old)) (λ all.
        (u : View) (most : ℕ) → IsBegun u most part.now judge.old → IsJudgement u most
        lines.old.number all.lines judgement.judged judgement.undecided.items
        judgement.window)) }
    ensures faults { IfErr result (λ fault.
        IfSome (lines_left lines.old (R.remaining reader.old)) (λ all.
        RefusesHistory (history_from none_open (lines.old.number + 1) all.lines) fault)) }
{
    let taken = lines.number();
    let counts = Counts::new(alloc, judge)?;
    let mut reading = Reading {
        opened: OpenCalls::new(alloc),
        numbers: LineNumbers::new(alloc),
        counts,
        part: *part,
    };
    'lines: loop {
        if !lines.advance(reader)? {
            let verdict = judge.finish(alloc)?;
            return Ok(reading.judgement(alloc, judge, &verdict, taken)?);
        }
        if let Some(verdict) = reading.take(alloc, judge, lines.number(), lines.line())? {
            return Ok(reading.judgement(alloc, judge, &verdict, taken)?);
        }
        progress.after_line();
    }
}
