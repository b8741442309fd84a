//! Rows from the lines of an input.
ghost use Rattle.std.specs.Prelude.{◌≡◌, ◌+◌, ◌≤◌, Ok, IfOk, IfErr, IfSome, OnOk, length};
ghost use Rattle.tatp_lines.specs.Lines.{lines_of};
ghost use Rattle.tatp_streams.specs.LineReading.{lines_left, IsWithinLimit, Relates};
ghost use Rattle.tatp_tasks.specs.Populations.{IsInputLimit};
ghost use Rattle.tatp_inputs.specs.Refusing.{RefusesReading};
ghost use Rattle.tatp_inputs.specs.Parts.{before_dot};
ghost use Rattle.tatp_inputs.specs.RowLines.{row_in, rows_of_lines, TakesRows};
ghost use Rattle.tatp_inputs.specs.Work.{brought, BringsLines};

use crate::InputFault;
use crate::text::is_dot;
use std::alloc::Global;
use std::io::Read;
use tatp_streams::{LineReader, text_of};
use tatp_tables::{Row, Rows};
use tatp_texts::read_row;

/// The rows of the lines before a line `.` or the end.
#[derive(Drop)]
struct Front {
    rows: Rows,
    /// Whether there is a line `.`.
    dot: bool,
}

/// The row that a line is. `None` means that the line isn't UTF-8, or is no row.
#[tactic(auto, unfolding(crate::specs::RowLines::row_in))]
fn row_in(line: &[u8]) -> Option<Row>
    ensures { result ≡ row_in line.now }
{
    match text_of(line) {
        Some(text) => read_row(text),
        None => None,
    }
}

/// The rows of the lines up to a line `.` or the end.
fn read_front<R: Read>(
    alloc: Global,
    lines: &mut LineReader,
    reader: &mut R,
) -> Result<Front, InputFault>
    ensures front { IfOk result (λ front. Relates
        (lines_left lines.old (R.remaining reader.old))
        (lines_left lines.new (R.remaining reader.new))
        (TakesRows front.dot front.rows lines.old.number lines.new.number)) }
    ensures faults { IfErr result (λ fault.
        IfSome (lines_left lines.old (R.remaining reader.old)) (λ all.
        RefusesReading (rows_of_lines (lines.old.number + 1) (before_dot all.lines)) fault)) }
{
    let mut rows = Rows::new(alloc);
    'lines: loop {
        if !lines.advance(reader)? {
            return Ok(Front { rows, dot: false });
        }
        if is_dot(lines.line()) {
            return Ok(Front { rows, dot: true });
        }
        let Some(row) = row_in(lines.line()) else {
            return Err(InputFault::BadLine(lines.number()));
        };
        rows.push(row)?;
    }
}

/// The rows that all lines left of an input are.
pub fn read_rows_to_end<R: Read>(
    alloc: Global,
    lines: &mut LineReader,
    reader: &mut R,
) -> Result<Rows, InputFault>
    ensures rows { IfOk result (λ rows.
        IfSome (lines_left lines.old (R.remaining reader.old)) (λ all.
        rows_of_lines (lines.old.number + 1) all.lines ≡ Ok rows)) }
    ensures limit { OnOk result (IfSome (lines_left lines.old (R.remaining reader.old))
        (λ all. IsWithinLimit all.input)) }
    ensures faults { IfErr result (λ fault.
        IfSome (lines_left lines.old (R.remaining reader.old)) (λ all.
        RefusesReading (rows_of_lines (lines.old.number + 1) all.lines) fault)) }
{
    let Front { dot, rows } = read_front(alloc, lines, reader)?;
    if dot {
        Err(InputFault::BadLine(lines.number()))
    } else {
        Ok(rows)
    }
}

/// The rows that all lines of an input are, of which at most `input_limit` bytes are read.
pub(crate) fn read_rows<R: Read>(
    alloc: Global,
    reader: &mut R,
    input_limit: usize,
) -> Result<Rows, InputFault>
    requires limit { IsInputLimit input_limit }
    ensures rows { IfOk result (λ rows. IfSome (R.remaining reader.old) (λ input.
        rows_of_lines 1 (lines_of input) ≡ Ok rows)) }
    ensures limit { OnOk result
        (IfSome (R.remaining reader.old) (λ input. length input ≤ input_limit)) }
    ensures faults { IfErr result (λ fault. IfSome (R.remaining reader.old) (λ input.
        RefusesReading (rows_of_lines 1 (lines_of input)) fault)) }
{
    let mut lines = LineReader::new(alloc, input_limit);
    read_rows_to_end(alloc, &mut lines, reader)
}

/// The rows of the lines before the line `.`. The lines after it are left to be taken.
pub(crate) fn read_work<R: Read>(
    alloc: Global,
    lines: &mut LineReader,
    reader: &mut R,
) -> Result<Rows, InputFault>
    ensures work { IfOk result (λ rows. Relates
        (lines_left lines.old (R.remaining reader.old))
        (lines_left lines.new (R.remaining reader.new))
        (BringsLines rows lines.old.number lines.new.number)) }
    ensures faults { IfErr result (λ fault.
        IfSome (lines_left lines.old (R.remaining reader.old)) (λ all.
        RefusesReading (brought (lines.old.number + 1) all.lines) fault)) }
{
    let Front { rows, dot } = read_front(alloc, lines, reader)?;
    if dot {
        Ok(rows)
    } else {
        Err(InputFault::BadLine(lines.number() + 1))
    }
}
