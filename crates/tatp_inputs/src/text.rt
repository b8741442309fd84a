//! The text at the front of an input.
ghost use Rattle.std.specs.Prelude.{◌≡◌, ◌∷◌, [], ◌++◌, ◌⊎◌, IfOk, IfErr, OnOk};
ghost use Rattle.tatp_streams.specs.LineReading.{lines_left, Relates};
ghost use Rattle.tatp_streams.specs.declared.fault.StreamFault.TheVariants.{ReadFault, NoMemory};
ghost use Rattle.tatp_inputs.specs.Parts.{is_dot, TakesText};

use std::alloc::{AllocError, Global};
use std::io::Read;
use tatp_streams::{LineReader, StreamFault};

/// The text of the lines before a line `.` or the end.
#[derive(Drop)]
pub struct FrontText {
    /// Each line with its line feed, which the last line may have lacked.
    pub text: Vec<u8>,
    /// Whether there is a line `.`.
    pub dot: bool,
}

/// Whether a line is the one that parts what an input brings.
pub fn is_dot(line: &[u8]) -> bool
    ensures { result ≡ is_dot line.now }
{
    line == b".".as_slice()
}

/// Appends a line and its line feed. `Err` means that memory was refused.
fn push_line(text: &mut Vec<u8>, line: &[u8]) -> Result<(), AllocError>
    ensures { OnOk result (text.new.items ≡ text.old.items ++ (line.now ++ 10 ∷ [])) }
{
    text.extend_from_slice(line)?;
    text.push(b'\n')?;
    Ok(())
}

/// The text of the lines up to a line `.` or the end.
pub fn read_text<R: Read>(
    alloc: Global,
    lines: &mut LineReader,
    reader: &mut R,
) -> Result<FrontText, StreamFault>
    ensures text { IfOk result (λ front. Relates
        (lines_left lines.old (R.remaining reader.old))
        (lines_left lines.new (R.remaining reader.new))
        (TakesText front.dot front.text.items lines.old.number lines.new.number)) }
    ensures faults { IfErr result (λ fault. (fault ≡ ReadFault) ⊎ (fault ≡ NoMemory)) }
{
    let mut text = Vec::new(alloc);
    'lines: loop {
        if !lines.advance(reader)? {
            return Ok(FrontText { text, dot: false });
        }
        if is_dot(lines.line()) {
            return Ok(FrontText { text, dot: true });
        }
        push_line(&mut text, lines.line())?;
    }
}
