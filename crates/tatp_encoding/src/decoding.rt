//! The instruction of eight bytes.
ghost use Rattle.std.specs.Prelude.{◌≡◌, ◌≤◌, true, not, ◌&&◌, ◌↔◌, IsTrue, IfOk, IfSome, IsErrOf, Ok, Some};
ghost use Rattle.std.specs.List.{list_any};
ghost use Rattle.tatp_instr.specs.declared.instr.Instr.{Instr};
ghost use Rattle.tatp_instr.specs.Parts.{has_unused, has_unused_in, has_bad_register, is_not_zero, is_unused_word};
ghost use Rattle.tatp_encoding.specs.Spelling.{spelling, IsInstr};
ghost use Rattle.tatp_instr.specs.Versions.{is_in};
ghost use Rattle.tatp_encoding.specs.Decoding.{parts_in, shape_in, has_bad_op_in, decoded};

use tatp_instr::{Instr, Parts, Shape, Version, Word, operands};
use thiserror::Error;

/// Why eight bytes are no instruction. Its text is its number and its name.
#[derive(Clone, Copy, Debug, PartialEq, Eq, Error)]
pub enum Bad {
    /// There is no such op.
    #[error("6 BadOp")]
    BadOp = 6,
    /// A byte that the op has no use for is not 0.
    #[error("7 UnusedNotZero")]
    UnusedNotZero = 7,
    /// A register operand is outside its range.
    #[error("8 BadRegister")]
    BadRegister = 8,
}

// The op, the operand bytes and the number.
fn parts_at(bytes: &[u8; 8]) -> Parts
    ensures { result ≡ parts_in bytes.now }
{
    let [op, first, second, third, highest, high, low, lowest] = *bytes;
    Parts {
        op,
        registers: [first, second, third],
        word: u32::from_be_bytes([highest, high, low, lowest]),
    }
}

// Whether one of the bytes is not 0.
fn any_not_zero(bytes: &[u8]) -> bool
    ensures { result ≡ list_any is_not_zero bytes.now }
{
    bytes.iter().any(|byte| *byte != 0)
}

// Whether the number is not 0 where a shape has none.
fn has_unused_word(kind: Word, word: u32) -> bool
    ensures { result ≡ is_unused_word kind word }
{
    match kind {
        Word::Nothing => word != 0,
        Word::Count | Word::Column | Word::Argument | Word::Target => false,
    }
}

// Whether an operand byte or the number is not 0 where the shape has none.
fn has_unused_part(parts: &Parts, shape: Shape) -> bool
    requires { shape.registers ≤ 3 }
    ensures { result ≡ has_unused_in (Some shape) parts.now }
{
    any_not_zero(&parts.registers[usize::from(shape.registers)..])
        || has_unused_word(shape.word, parts.word)
}

/// The operands of an op, where the version has it.
fn operands_in(version: Version, op: u8) -> Option<Shape>
    ensures value { result ≡ shape_in version op }
    ensures registers { IfSome result (λ shape. shape.registers ≤ 3) }
{
    match version {
        Version::One if op == 0x16 => None,
        _ => operands(op),
    }
}

/// The instruction of this version that the bytes spell. Otherwise the first of the three faults
/// that they have.
#[tactic(auto, unfolding(crate::specs::Decoding::decoded))]
pub fn decode(version: Version, bytes: &[u8; 8]) -> Result<Instr, Bad>
    // What is read is spelled so, and what is spelled so is read.
    ensures ok { IfOk result
        (λ instr. (bytes.now ≡ spelling instr) × (is_in version instr ≡ true)) }
    ensures only { (instr : Instr) → IsInstr instr → is_in version instr ≡ true
        → bytes.now ≡ spelling instr → result ≡ Ok instr }

    ensures exact { result ≡ decoded version bytes.now }

    // Which fault it is: the first of the three.
    ensures bad_op { IsErrOf result Bad.BadOp
        ↔ IsTrue (has_bad_op_in version (parts_in bytes.now)) }
    ensures unused_not_zero { IsErrOf result Bad.UnusedNotZero
        ↔ IsTrue (not (has_bad_op_in version (parts_in bytes.now))
        && has_unused (parts_in bytes.now)) }
    ensures bad_register { IsErrOf result Bad.BadRegister
        ↔ IsTrue (not (has_bad_op_in version (parts_in bytes.now))
        && (not (has_unused (parts_in bytes.now)) && has_bad_register (parts_in bytes.now))) }
{
    let parts = parts_at(bytes);
    let shape = operands_in(version, parts.op).ok_or(Bad::BadOp)?;
    if has_unused_part(&parts, shape) {
        return Err(Bad::UnusedNotZero);
    }
    Instr::from_parts(&parts).ok_or(Bad::BadRegister)
}
