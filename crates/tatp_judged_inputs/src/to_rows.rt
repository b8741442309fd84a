//! The verdict on a history that is followed by the rows at its end.
ghost use Rattle.std.specs.Prelude.{◌≡◌, ◌≤◌, [], ℕ, true, Ok, IfOk, IfErr, IfSome, OnOk, List};
ghost use Rattle.tatp_history.specs.declared.line.Line.{Line as ALine};
ghost use Rattle.tatp_streams.specs.LineReading.{lines_left, Relates};
ghost use Rattle.tatp_inputs.specs.Parts.{before_dot};
ghost use Rattle.tatp_judge.specs.declared.stakes.Stakes.{Stakes as AStakes};
ghost use Rattle.tatp_judge.specs.Aside.{undecided_in};
ghost use Rattle.tatp_judged_inputs.specs.Views.{HasFollowed, IsBegun, View};
ghost use Rattle.tatp_judged_inputs.specs.Judged.{IsJudgement};
ghost use Rattle.tatp_judged_inputs.specs.Judging.{IsJudgedWith, RefusesTexts, history_fault};
ghost use Rattle.tatp_judged_inputs.specs.Reading.{ReadsToDot};
ghost use Rattle.tatp_judged_inputs.specs.RowsAtEnd.{IsJudgementTo, ids, told_by_rows};

use crate::line_numbers::LineNumbers;
use crate::reading::Reading;
use crate::undecided::add_at;
use crate::{HistoryFault, JudgeFault, Judged, Judgement, Progress, judge_history};
use std::alloc::Global;
use std::io::Read;
use tatp_extents::admit;
use tatp_history_lines::OpenCalls;
use tatp_inputs::{is_dot, read_rows_to_end};
use tatp_judge::{Counts, FinalVerdict, Judge, Part, Stakes};
use tatp_streams::LineReader;

/// The verdict on the history in the lines up to a line `.`. Where it is legal, the lines after
/// that are left; else lines after the one that decides it aren't read.
fn judge_to_dot<R: Read, P: Progress>(
    alloc: Global,
    part: &Part,
    judge: &mut Judge,
    lines: &mut LineReader,
    reader: &mut R,
    progress: &mut P,
) -> Result<Judgement, HistoryFault>
    requires { (u : View) × (most : ℕ) × IsBegun u most part.now judge.old }
    ensures judged { IfOk result (λ judgement.
        IfSome (lines_left lines.old (R.remaining reader.old)) (λ all.
        (u : View) (most : ℕ) → IsBegun u most part.now judge.old → IsJudgement u most
        lines.old.number (before_dot all.lines) judgement.judged judgement.undecided.items
        judgement.window)) }
    ensures followed { IfOk result (λ judgement. (stakes : AStakes)
        → judgement.judged ≡ Judged.Legal stakes
        → (u : View) (most : ℕ) → IsBegun u most part.now judge.old
        → (past : List ALine) × HasFollowed u most past judge.new
        × Relates (lines_left lines.old (R.remaining reader.old))
        (lines_left lines.new (R.remaining reader.new))
        (ReadsToDot past lines.old.number lines.new.number)) }
    ensures named { IfOk result (λ judgement.
        ids judgement.undecided.items ≡ ids (undecided_in judge.new)) }
    ensures some { IfOk result (λ judgement. (stakes : AStakes)
        → judgement.judged ≡ Judged.Legal stakes → 1 ≤ lines.new.number) }
    ensures exact { OnOk result (judge.new.exact ≡ judge.old.exact) }
    ensures faults { IfErr result (λ fault.
        IfSome (lines_left lines.old (R.remaining reader.old)) (λ all.
        RefusesTexts true lines.old.number all.lines (history_fault fault))) }
{
    let taken = lines.number();
    let counts = Counts::new(alloc, judge)?;
    let mut reading = Reading {
        opened: OpenCalls::new(alloc),
        numbers: LineNumbers::new(alloc),
        counts,
        part: *part,
    };
    'lines: loop {
        if !lines.advance(reader)? {
            return Err(HistoryFault::BadLine(lines.number() + 1));
        }
        if is_dot(lines.line()) {
            let verdict = judge.finish(alloc)?;
            return Ok(reading.judgement(alloc, judge, &verdict, taken)?);
        }
        if let Some(verdict) = reading.take(alloc, judge, lines.number(), lines.line())? {
            return Ok(reading.judgement(alloc, judge, &verdict, taken)?);
        }
        progress.after_line();
    }
}

/// What is said of a legal history by the rows at its end, where the line `.` has this number.
fn judged_to(stakes: Stakes, verdict: FinalVerdict, dot: u64) -> Judged
    ensures { result ≡ told_by_rows stakes verdict dot }
{
    match verdict {
        FinalVerdict::Reached => Judged::Legal(stakes),
        FinalVerdict::Unreached(s_id) => Judged::Unreached { line: dot, s_id },
    }
}

/// The verdict on the history in the remaining lines of an input, up to a line `.`, and on the
/// rows after it. These aren't read where the history decides.
fn judge_to_rows<R: Read, P: Progress>(
    alloc: Global,
    part: &Part,
    judge: &mut Judge,
    lines: &mut LineReader,
    reader: &mut R,
    progress: &mut P,
) -> Result<Judgement, JudgeFault>
    requires exact { judge.old.exact ≡ true }
    requires begun { (u : View) × (most : ℕ) × IsBegun u most part.now judge.old }
    ensures judged { IfOk result (λ judgement.
        IfSome (lines_left lines.old (R.remaining reader.old)) (λ all.
        (u : View) (most : ℕ) → IsBegun u most part.now judge.old → IsJudgementTo u most
        lines.old.number all.lines judgement.judged judgement.undecided.items
        judgement.window)) }
    ensures faults { IfErr result (λ fault.
        IfSome (lines_left lines.old (R.remaining reader.old)) (λ all.
        RefusesTexts true lines.old.number all.lines fault)) }
{
    let judgement = judge_to_dot(alloc, part, judge, lines, reader, progress)?;
    match judgement.judged {
        Judged::Legal(stakes) => {
            let dot = lines.number();
            let rows = read_rows_to_end(alloc, lines, reader)?;
            admit(alloc, &rows)?;
            let known = judge.undecided().len();
            let judged = judged_to(stakes, judge.finish_to(alloc, part, &rows)?, dot);
            let mut undecided = judgement.undecided;
            add_at(&mut undecided, &judge.undecided()[known..], dot - 1)?;
            Ok(Judgement {
                judged,
                undecided,
                window: judgement.window,
            })
        }
        _ => Ok(judgement),
    }
}

/// The verdict on the history in the remaining lines of an input, with the rows at its end where
/// these follow it.
pub(crate) fn judge_lines<R: Read, P: Progress>(
    alloc: Global,
    final_rows: bool,
    part: &Part,
    judge: &mut Judge,
    lines: &mut LineReader,
    reader: &mut R,
    progress: &mut P,
) -> Result<Judgement, JudgeFault>
    requires exact { judge.old.exact ≡ final_rows }
    requires begun { (u : View) × (most : ℕ) × IsBegun u most part.now judge.old }
    ensures judged { IfOk result (λ judgement.
        IfSome (lines_left lines.old (R.remaining reader.old)) (λ all.
        (u : View) (most : ℕ) → IsBegun u most part.now judge.old → IsJudgedWith final_rows u
        most lines.old.number all.lines judgement)) }
    ensures faults { IfErr result (λ fault.
        IfSome (lines_left lines.old (R.remaining reader.old)) (λ all.
        RefusesTexts final_rows lines.old.number all.lines fault)) }
{
    if final_rows {
        judge_to_rows(alloc, part, judge, lines, reader, progress)
    } else {
        Ok(judge_history(alloc, part, judge, lines, reader, progress)?)
    }
}
