//! The command `judge`: the verdict on a history.
ghost use Rattle.std.specs.Prelude.{◌≡◌, [], ◌++◌, codes, Some, IfOk, IfErr, IfSome, OnOk};
ghost use Rattle.std.specs.String.{string_bytes};
ghost use Rattle.tatp_lines.specs.Lines.{lines_of};
ghost use Rattle.tatp_tables.specs.Database.{database_of};
ghost use Rattle.tatp_extents.specs.Opening.{RefusesRows};
ghost use Rattle.tatp_judge.specs.Followed.{HasFollowed};
ghost use Rattle.tatp_tasks.specs.Judging.{IsJudgePlan};
ghost use Rattle.tatp_inputs.specs.Work.{AreCleanWhereDrawn};
ghost use Rattle.tatp_judged_inputs.specs.declared.fault.JudgeFault.TheVariants.{Stream, Unopened};
ghost use Rattle.tatp_judged_inputs.specs.RowsAtEnd.{AreAdmitted};
ghost use Rattle.tatp_judged_inputs.specs.Judging.{JudgesInput, RefusesInput, number_line, part_asked, stakes_lines, subscriber_line, told_lines, window_lines, judged_lines, judgement_lines, others_word, stakes_told, undecided_lines, WritesJudged, LeavesJudged};

use crate::judging::Window;
use crate::legal_replies::push_legal;
use crate::to_rows::judge_lines;
use crate::{JudgeFault, Judged, Judgement, Progress};
use std::alloc::{AllocError, Global};
use std::io::{Read, Write};
use tatp_extents::{OpenError, admit};
use tatp_inputs::work_of;
use tatp_judge::{Judge, Part, Stakes, Undecided};
use tatp_limits::MAX_INPUT_LIMIT;
use tatp_lines::push_decimal;
use tatp_streams::{LineReader, write_last};
use tatp_tables::Rows;
use tatp_tasks::{JudgePlan, Population};

/// The judge of a history that begins with these rows. Drawn rows are known to be clean, so they
/// aren't audited.
fn judge_of(alloc: Global, plan: &JudgePlan, rows: &Rows) -> Result<Judge, OpenError>
    requires { AreCleanWhereDrawn plan.now.population rows.now }
    ensures judge { IfOk result (HasFollowed (database_of rows.now) plan.now.most []) }
    ensures exact { IfOk result (λ judge. judge.exact ≡ plan.now.final_rows) }
    ensures admitted { OnOk result (AreAdmitted rows.now) }
    ensures refusal { IfErr result (RefusesRows rows.now) }
{
    match plan.population {
        Population::Read => admit(alloc, rows)?,
        Population::Generated { .. } => {}
    }
    Ok(Judge::new(alloc, rows, plan.most, plan.final_rows)?)
}

/// The part of a history that is asked for.
fn part_of(plan: &JudgePlan) -> Part
    ensures { result ≡ part_asked plan.now }
{
    Part {
        number: plan.part,
        count: plan.parts,
    }
}

/// What is said of the history in an input.
fn judged<R: Read, P: Progress>(
    alloc: Global,
    reader: &mut R,
    plan: &JudgePlan,
    progress: &mut P,
) -> Result<Judgement, JudgeFault>
    requires { IsJudgePlan plan.now }
    ensures judged { IfOk result (λ judgement. IfSome (R.remaining reader.old) (λ input.
        JudgesInput plan.now (lines_of input) judgement)) }
    ensures faults { IfErr result (λ fault. IfSome (R.remaining reader.old) (λ input.
        RefusesInput plan.now (lines_of input) fault)) }
{
    let mut lines = LineReader::new(alloc, MAX_INPUT_LIMIT);
    let rows = work_of(alloc, plan.population, &mut lines, reader)?;
    let mut judge = judge_of(alloc, plan, &rows)?;
    drop(rows);
    let part = part_of(plan);
    judge_lines(
        alloc,
        plan.final_rows,
        &part,
        &mut judge,
        &mut lines,
        reader,
        progress,
    )
}

/// Appends a line of a word and a number.
pub(crate) fn push_number_line(text: &mut String, word: &str, number: u64) -> Result<(), AllocError>
    ensures { OnOk result
        (string_bytes text.new ≡ string_bytes text.old ++ number_line word.now number) }
{
    text.push_str(word)?;
    push_decimal(text, number)?;
    text.push('\n')
}

/// Appends such a line, and the one that names a subscriber.
fn push_with_subscriber(
    text: &mut String,
    word: &str,
    number: u64,
    s_id: u64,
) -> Result<(), AllocError>
    ensures { OnOk result (string_bytes text.new
        ≡ string_bytes text.old ++ (number_line word.now number ++ subscriber_line (Some s_id))) }
{
    push_number_line(text, word, number)?;
    push_number_line(text, "SUBSCRIBER ", s_id)
}

/// Appends the lines that report a subscriber that is set aside.
fn push_one_undecided(text: &mut String, one: &Undecided) -> Result<(), AllocError>
    ensures { OnOk result (string_bytes text.new ≡ string_bytes text.old
        ++ (number_line (codes "UNDECIDED ") one.now.line ++ subscriber_line (Some one.now.s_id))) }
{
    push_with_subscriber(text, "UNDECIDED ", one.line, one.s_id)
}

/// Appends the lines that report the subscribers that are set aside.
fn push_undecided(text: &mut String, aside: &[Undecided]) -> Result<(), AllocError>
    ensures { OnOk result
        (string_bytes text.new ≡ string_bytes text.old ++ undecided_lines aside.now) }
{
    'aside: for i in 0..aside.len() {
        push_one_undecided(text, &aside[i])?;
    }
    Ok(())
}

/// Appends the word before what is said of all others.
fn push_others(text: &mut String, aside: &[Undecided]) -> Result<(), AllocError>
    ensures { OnOk result
        (string_bytes text.new ≡ string_bytes text.old ++ others_word aside.now) }
{
    if aside.is_empty() {
        Ok(())
    } else {
        text.push_str("OTHERS ")
    }
}

/// Appends the lines that say what was at stake, where no subscriber is set aside.
fn push_stakes_told(
    text: &mut String,
    aside: &[Undecided],
    stakes: &Stakes,
) -> Result<(), AllocError>
    ensures { OnOk result
        (string_bytes text.new ≡ string_bytes text.old ++ stakes_told aside.now stakes.now) }
{
    if aside.is_empty() {
        push_stakes(text, stakes)
    } else {
        Ok(())
    }
}

/// Appends the lines that say what was at stake.
fn push_stakes(text: &mut String, stakes: &Stakes) -> Result<(), AllocError>
    ensures { OnOk result
        (string_bytes text.new ≡ string_bytes text.old ++ stakes_lines stakes.now) }
{
    push_number_line(text, "ANSWERED ", stakes.answered)?;
    push_number_line(text, "ABORTED ", stakes.aborted)?;
    push_number_line(text, "UNANSWERED ", stakes.unanswered)?;
    push_number_line(text, "SUBSCRIBERS ", stakes.subscribers)?;
    push_number_line(text, "OVERLAPPED ", stakes.overlapped)?;
    push_number_line(text, "CONFLICTED ", stakes.conflicted)?;
    push_number_line(text, "WIDEST ", stakes.widest)
}

/// Appends a line for each line of a window.
fn push_window(text: &mut String, window: &[u64]) -> Result<(), AllocError>
    ensures { OnOk result
        (string_bytes text.new ≡ string_bytes text.old ++ window_lines window.now) }
{
    'window: for i in 0..window.len() {
        push_number_line(text, "LINE ", window[i])?;
    }
    Ok(())
}

/// Appends the lines of a window, and those of the replies that are legal there.
fn push_told(text: &mut String, window: &Window) -> Result<(), AllocError>
    ensures { OnOk result
        (string_bytes text.new ≡ string_bytes text.old ++ told_lines window.now) }
{
    push_window(text, window.lines.as_slice())?;
    match &window.legal {
        Some(legal) => push_legal(text, legal),
        None => Ok(()),
    }
}

/// Appends the lines that say why the lines up to one are illegal.
fn push_explanation(text: &mut String, s_id: Option<u64>, window: &Window) -> Result<(), AllocError>
    ensures { OnOk result (string_bytes text.new
        ≡ string_bytes text.old ++ (subscriber_line s_id ++ told_lines window.now)) }
{
    if let Some(s_id) = s_id {
        push_number_line(text, "SUBSCRIBER ", s_id)?;
    }
    push_told(text, window)
}

/// Appends the lines for what is said of all subscribers that aren't set aside.
fn push_judged(text: &mut String, judgement: &Judgement) -> Result<(), AllocError>
    ensures { OnOk result (string_bytes text.new ≡ string_bytes text.old
        ++ judged_lines judgement.now.undecided.items judgement.now.judged judgement.now.window) }
{
    match judgement.judged {
        Judged::Legal(stakes) => {
            text.push_str("LEGAL\n")?;
            push_stakes_told(text, judgement.undecided.as_slice(), &stakes)
        }
        Judged::Illegal { line, s_id } => {
            push_number_line(text, "ILLEGAL ", line)?;
            push_explanation(text, s_id, &judgement.window)
        }
        Judged::Unreached { line, s_id } => push_with_subscriber(text, "ILLEGAL ", line, s_id),
    }
}

/// The lines of a judgement.
fn lines_that_tell(alloc: Global, judgement: &Judgement) -> Result<String, AllocError>
    ensures { IfOk result (λ lines. string_bytes lines ≡ judgement_lines judgement.now) }
{
    let mut text = String::new(alloc);
    push_undecided(&mut text, judgement.undecided.as_slice())?;
    push_others(&mut text, judgement.undecided.as_slice())?;
    push_judged(&mut text, judgement)?;
    Ok(text)
}

/// Reads rows and a history, or a history alone, and writes what is said of it, which it gives
/// back. The rows are tested before the first line of the history is read. What `progress` does
/// with each line changes nothing of that.
pub fn run_judge<R: Read, W: Write, P: Progress>(
    alloc: Global,
    reader: &mut R,
    writer: &mut W,
    plan: &JudgePlan,
    progress: &mut P,
) -> Result<Judgement, JudgeFault>
    requires { IsJudgePlan plan.now }
    ensures written { IfOk result (λ judgement. IfSome (R.remaining reader.old) (λ input.
        WritesJudged plan.now input judgement
        (W.contents writer.old) (W.contents writer.new))) }
    ensures faults { IfErr result (λ fault. IfSome (R.remaining reader.old) (λ input.
        LeavesJudged plan.now input
        (W.contents writer.old) (W.contents writer.new) fault)) }
{
    let judgement = judged(alloc, reader, plan, progress)?;
    let lines = lines_that_tell(alloc, &judgement)?;
    write_last(writer, lines.as_bytes())?;
    Ok(judgement)
}
