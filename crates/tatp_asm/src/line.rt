//! One line: what it is.
ghost use Rattle.std.specs.Prelude.{◌≡◌, option_map, IfSome};
ghost use Rattle.tatp_asm.specs.Lines.{IsLine};
ghost use Rattle.tatp_asm.specs.Words.{label_line, word_of, opening_of, line_of, line_of_bytes};
ghost use Rattle.tatp_asm.specs.Reading.{line_in};
ghost use Rattle.tatp_asm.specs.Views.{line_view};

use crate::fields::{Split, below, is_label, split_fields};
use crate::name::{Name, name_of};
use crate::operands::{instruction, instruction_with};
use tatp_encoding::is_name;
use tatp_instr::{Instr, Version};
use tatp_limits::MAX_ARGUMENTS;

/// A line that isn't empty.
#[derive(Clone, Copy, Debug)]
pub(crate) enum Line {
    /// A procedure begins, of this name and arity.
    Opening(Name, u8),
    /// A label.
    Label(Name),
    /// An instruction. A jump has the target 0, and the label that it names beside it.
    Instruction(Instr, Name),
    /// The procedure ends.
    Ending,
}

/// The line of a label, which a colon follows.
#[tactic(auto, using(crate::proofs::Tools::label_short))]
fn label_line(label: &str) -> Option<Line>
    ensures { option_map line_view result ≡ label_line label.now }
{
    if is_label(label.as_bytes()) {
        Some(Line::Label(name_of(label)))
    } else {
        None
    }
}

/// The line that one word is.
#[tactic(auto, unfolding(crate::specs::Words::word_of))]
fn word_line(word: &str) -> Option<Line>
    ensures { option_map line_view result ≡ word_of word.now }
{
    if word == "end" {
        return Some(Line::Ending);
    }
    match word.strip_suffix(':') {
        Some(label) => label_line(label),
        None => instruction_with(word, &[]),
    }
}

/// The line that begins a procedure.
#[tactic(auto, unfolding(crate::specs::Words::opening_of))]
fn opening(word: &str, name: &str, arity: &str) -> Option<Line>
    ensures { option_map line_view result ≡ opening_of word.now name.now arity.now }
{
    if word != "proc" || !is_name(name.as_bytes()) {
        return None;
    }
    Some(Line::Opening(name_of(name), below(MAX_ARGUMENTS as u64 + 1, arity)? as u8))
}

/// The line that a text is.
#[tactic(auto, unfolding(crate::specs::Words::line_of))]
fn text_line(text: &str) -> Option<Line>
    ensures { option_map line_view result ≡ line_of text.now }
{
    match split_fields(' ', text) {
        Split::One(word) => word_line(word),
        Split::Two(word, operands) => instruction(word, operands),
        Split::Three(word, name, arity) => opening(word, name, arity),
        Split::More => None,
    }
}

/// The line that bytes are, which may be no text.
#[tactic(auto, unfolding(crate::specs::Words::line_of_bytes))]
fn bytes_line(line: &[u8]) -> Option<Line>
    ensures { option_map line_view result ≡ line_of_bytes line.now }
{
    match str::from_utf8(line) {
        Ok(text) => text_line(text),
        Err(_) => None,
    }
}

/// The line that bytes are in a text of the version.
pub(crate) fn parse_line(version: Version, line: &[u8]) -> Option<Line>
    ensures value { option_map line_view result ≡ line_in version line.now }
    ensures within { IfSome result (λ l. IsLine (line_view l)) }
{
    let line = bytes_line(line)?;
    match line {
        Line::Instruction(instr, _) if !instr.is_in(version) => None,
        _ => Some(line),
    }
}
