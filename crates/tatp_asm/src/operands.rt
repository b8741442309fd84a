//! Operands, and the instruction that a mnemonic makes of them, by the table of the instructions.
ghost use Rattle.std.specs.Prelude.{◌≡◌, option_map, take, drop, Some};
ghost use Rattle.tatp_instr.specs.Shapes.{shape_at};
ghost use Rattle.tatp_instr.specs.Rows.{row_view};
ghost use Rattle.tatp_asm.specs.Words.{operand_of, for_registers, for_word, register_in, registers_of, given_for, with_row, instruction_with, instruction_of};
ghost use Rattle.tatp_asm.specs.Words as words;
ghost use Rattle.tatp_asm.specs.Views.{operand_view, operands_view, given_view, line_view};

use crate::fields::{Split, below, is_label, split_fields};
use crate::line::Line;
use crate::name::{Name, name_of};
use tatp_instr::{Instr, OpRow, Parts, Register, Word, row_named};
use tatp_limits::REGISTERS;

/// An operand: its first character says which.
#[derive(Clone, Copy, Debug)]
pub(crate) enum Operand {
    Register(Register),
    Number(u32),
    /// A label.
    Target(Name),
}

/// What operands give for a u32: a number, and the label that they name. Beside its label, a target
/// is 0.
#[derive(Clone, Copy, Debug)]
struct Given {
    number: u32,
    label: Name,
}

/// A number as it is.
fn numbered(number: u32) -> Given
    ensures { given_view result ≡ words.numbered number }
{
    Given {
        number,
        label: Name::new(),
    }
}

/// A label.
fn labelled(label: Name) -> Given
    ensures { given_view result ≡ words.labelled label.bytes }
{
    Given { number: 0, label }
}

/// The register of a number.
fn register(text: &str) -> Option<Register>
    ensures { result ≡ words.below REGISTERS text.now }
{
    Register::new(below(REGISTERS as u64, text)? as u8)
}

/// The operand that a field is.
#[tactic(auto, unfolding(crate::specs::Words::operand_of), using(crate::proofs::Tools::label_short))]
fn read_operand(text: &str) -> Option<Operand>
    ensures { option_map operand_view result ≡ operand_of text.now }
{
    if let Some(number) = text.strip_prefix('r') {
        return Some(Operand::Register(register(number)?));
    }
    if let Some(number) = text.strip_prefix('#') {
        return Some(Operand::Number(below(1 << 32, number)? as u32));
    }
    let label = text.strip_prefix('@')?;
    if is_label(label.as_bytes()) {
        Some(Operand::Target(name_of(label)))
    } else {
        None
    }
}

/// The first `count` operands, and the others.
fn parted_at(operands: &[Operand], count: usize) -> (&[Operand], &[Operand])
    ensures first { result.0.now ≡ take count operands.now }
    ensures others { result.1.now ≡ drop count operands.now }
{
    operands.split_at(count.min(operands.len()))
}

/// The operands of a row's registers, and those of its u32.
fn parted<'a>(row: &OpRow, operands: &'a [Operand]) -> (&'a [Operand], &'a [Operand])
    ensures registers { operands_view result.0.now
        ≡ for_registers (row_view row.now) (operands_view operands.now) }
    ensures word { operands_view result.1.now
        ≡ for_word (row_view row.now) (operands_view operands.now) }
{
    if row.word_first {
        let (word, registers) = parted_at(operands, 1);
        (registers, word)
    } else {
        parted_at(operands, usize::from(row.shape.registers))
    }
}

/// The number of the register that an operand is.
fn register_in(operand: &Operand) -> Option<u8>
    ensures { result ≡ register_in (operand_view operand.now) }
{
    match operand {
        Operand::Register(register) => Some(register.number()),
        Operand::Number(_) | Operand::Target(_) => None,
    }
}

/// The numbers of up to three registers, and 0 where there are fewer.
#[tactic(auto, unfolding(crate::specs::Words::registers_of))]
fn registers_of(operands: &[Operand]) -> Option<[u8; 3]>
    ensures { result ≡ registers_of (operands_view operands.now) }
{
    match operands {
        [] => Some([0, 0, 0]),
        [a] => Some([register_in(a)?, 0, 0]),
        [a, b] => Some([register_in(a)?, register_in(b)?, 0]),
        [a, b, c] => Some([register_in(a)?, register_in(b)?, register_in(c)?]),
        _ => None,
    }
}

/// What operands give where the u32 holds this.
#[tactic(auto, unfolding(crate::specs::Words::given_for))]
fn given_for(word: Word, operands: &[Operand]) -> Option<Given>
    ensures { option_map given_view result ≡ given_for word (operands_view operands.now) }
{
    match (word, operands) {
        (Word::Nothing, []) => Some(numbered(0)),
        (Word::Count | Word::Column | Word::Argument, [Operand::Number(n)]) => Some(numbered(*n)),
        (Word::Target, [Operand::Target(label)]) => Some(labelled(*label)),
        _ => None,
    }
}

/// The instruction of a row with these operands.
#[tactic(auto, unfolding(crate::specs::Words::with_row))]
fn with_row(row: &OpRow, operands: &[Operand]) -> Option<Line>
    requires shape { shape_at row.now.op ≡ Some row.now.shape }
    ensures { option_map line_view result
        ≡ with_row (row_view row.now) (operands_view operands.now) }
{
    let (registers, word) = parted(row, operands);
    if registers.len() != usize::from(row.shape.registers) {
        return None;
    }
    let given = given_for(row.shape.word, word)?;
    let parts = Parts {
        op: row.op,
        registers: registers_of(registers)?,
        word: given.number,
    };
    Some(Line::Instruction(Instr::from_parts(&parts)?, given.label))
}

/// The instruction of a mnemonic with these operands.
#[tactic(auto, unfolding(crate::specs::Words::instruction_with))]
pub(crate) fn instruction_with(mnemonic: &str, operands: &[Operand]) -> Option<Line>
    ensures { option_map line_view result
        ≡ instruction_with mnemonic.now (operands_view operands.now) }
{
    with_row(row_named(mnemonic)?, operands)
}

/// The instruction of a mnemonic and its operands, which commas part.
#[tactic(auto, unfolding(crate::specs::Words::instruction_of, crate::specs::Words::operands_of))]
pub(crate) fn instruction(mnemonic: &str, text: &str) -> Option<Line>
    ensures { option_map line_view result ≡ instruction_of mnemonic.now text.now }
{
    match split_fields(',', text) {
        Split::One(a) => instruction_with(mnemonic, &[read_operand(a)?]),
        Split::Two(a, b) => instruction_with(mnemonic, &[read_operand(a)?, read_operand(b)?]),
        Split::Three(a, b, c) => instruction_with(
            mnemonic,
            &[read_operand(a)?, read_operand(b)?, read_operand(c)?],
        ),
        Split::More => None,
    }
}
