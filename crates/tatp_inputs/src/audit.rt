//! The command `audit`: the verdict on rows.
ghost use Rattle.std.specs.Prelude.{◌≡◌, ◌≤◌, length, IfOk, IfErr, IfSome, OnOk};
ghost use Rattle.std.specs.String.{string_bytes};
ghost use Rattle.tatp_lines.specs.Lines.{lines_of};
ghost use Rattle.tatp_tasks.specs.Populations.{IsInputLimit};
ghost use Rattle.tatp_inputs.specs.Refusing.{RefusesReading};
ghost use Rattle.tatp_inputs.specs.RowLines.{rows_of_lines};
ghost use Rattle.tatp_inputs.specs.Verdicts.{IsVerdictOn, verdict_line, WritesVerdict, LeavesVerdict};

use crate::InputFault;
use crate::rows::read_rows;
use std::alloc::{AllocError, Global};
use std::io::{Read, Write};
use tatp_audits::{Verdict, audit};
use tatp_streams::write_last;

/// The verdict on the rows that an input is, of which at most `input_limit` bytes are read.
fn judged<R: Read>(alloc: Global, reader: &mut R, input_limit: usize) -> Result<Verdict, InputFault>
    requires limit { IsInputLimit input_limit }
    ensures verdict { IfOk result (λ verdict.
        IfSome (R.remaining reader.old) (λ input. IsVerdictOn input verdict)) }
    ensures limit { OnOk result
        (IfSome (R.remaining reader.old) (λ input. length input ≤ input_limit)) }
    ensures faults { IfErr result (λ fault. IfSome (R.remaining reader.old) (λ input.
        RefusesReading (rows_of_lines 1 (lines_of input)) fault)) }
{
    let rows = read_rows(alloc, reader, input_limit)?;
    Ok(audit(alloc, &rows)?)
}

/// The line of a verdict. `Err` means that memory was refused.
fn line_of(alloc: Global, verdict: Verdict) -> Result<String, AllocError>
    ensures { IfOk result (λ line. string_bytes line ≡ verdict_line verdict) }
{
    format!(in alloc; "{verdict}\n")
}

/// Reads rows, at most `input_limit` bytes, and writes the verdict on them. `Ok` says whether the
/// verdict is that they are clean.
pub fn run_audit<R: Read, W: Write>(
    alloc: Global,
    reader: &mut R,
    writer: &mut W,
    input_limit: usize,
) -> Result<bool, InputFault>
    requires limit { IsInputLimit input_limit }
    ensures written { IfOk result (λ clean. IfSome (R.remaining reader.old) (λ input.
        WritesVerdict input (W.contents writer.old) (W.contents writer.new) clean)) }
    ensures faults { IfErr result (λ fault. IfSome (R.remaining reader.old) (λ input.
        LeavesVerdict input (W.contents writer.old) (W.contents writer.new) fault)) }
    ensures limit { OnOk result
        (IfSome (R.remaining reader.old) (λ input. length input ≤ input_limit)) }
{
    let verdict = judged(alloc, reader, input_limit)?;
    let line = line_of(alloc, verdict)?;
    write_last(writer, line.as_bytes())?;
    Ok(verdict.is_clean())
}
