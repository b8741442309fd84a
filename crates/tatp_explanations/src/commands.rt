//! What the command `explain` writes.
ghost use Rattle.std.specs.Prelude.{◌≡◌, true, false, [], IfOk, IfErr, OnOk};
ghost use Rattle.std.specs.Io.KnownBytes.{Appends};
ghost use Rattle.std.specs.String.{string_bytes};
ghost use Rattle.tatp_streams.specs.Writing.{WritesText};
ghost use Rattle.tatp_explanations.specs.Numbers.{all_numbers};
ghost use Rattle.tatp_explanations.specs.Texts.{line_text, explanation_text, Explains, IsListing, LeavesFront};
ghost use Rattle.tatp_explanations.specs.Words.{AsksForNone};

use crate::explanation::{Explanation, Line};
use crate::search::{END, explanation_asked, explanation_of};
use std::alloc::{AllocError, Global};
use std::io::Write;
use tatp_streams::{StreamFault, write_last};

/// The text of an explanation.
fn text_of(alloc: Global, explanation: &Explanation) -> Result<String, AllocError>
    ensures { IfOk result (λ text. string_bytes text ≡ explanation_text explanation.now) }
{
    format!(in alloc; "{explanation}")
}

/// Writes what a number means, with an example and what to do. The word is the number, in digits
/// alone, or the name that follows it wherever it is answered. `false` where no refusal and
/// no fault has it, and then nothing.
pub fn run_explain<W: Write>(alloc: Global, writer: &mut W, word: &str) -> Result<bool, StreamFault>
    ensures written { IfOk result (λ found. found ≡ true →
        WritesText (Explains word.now) (W.contents writer.old) (W.contents writer.new)) }
    ensures unknown { IfOk result (λ found. found ≡ false → AsksForNone word.now) }
    ensures nothing { IfOk result (λ found. found ≡ false →
        Appends (W.contents writer.old) (W.contents writer.new) []) }
    ensures faults { IfErr result (LeavesFront (Explains word.now)
        (W.contents writer.old) (W.contents writer.new)) }
{
    match explanation_asked(word) {
        Some(explanation) => {
            let text = text_of(alloc, &explanation)?;
            write_last(writer, text.as_bytes())?;
            Ok(true)
        }
        None => Ok(false),
    }
}

/// The line of one number.
fn line_of(alloc: Global, explanation: &Explanation) -> Result<String, AllocError>
    ensures { IfOk result (λ text. string_bytes text ≡ line_text explanation.now) }
{
    let line = Line(explanation);
    format!(in alloc; "{line}")
}

/// The lines of all numbers.
fn listing(alloc: Global) -> Result<String, AllocError>
    ensures { IfOk result (λ text. IsListing all_numbers (string_bytes text)) }
{
    let mut text = String::new(alloc);
    for number in 0..END {
        if let Some(explanation) = explanation_of(number) {
            let line = line_of(alloc, &explanation)?;
            text.push_str(line.as_str())?;
        }
    }
    Ok(text)
}

/// Writes all numbers of refusals and faults, a line each, with name and meaning.
pub fn run_explain_all<W: Write>(alloc: Global, writer: &mut W) -> Result<(), StreamFault>
    ensures written { OnOk result
        (WritesText (IsListing all_numbers) (W.contents writer.old) (W.contents writer.new)) }
    ensures faults { IfErr result (LeavesFront (IsListing all_numbers)
        (W.contents writer.old) (W.contents writer.new)) }
{
    let text = listing(alloc)?;
    write_last(writer, text.as_bytes())?;
    Ok(())
}
