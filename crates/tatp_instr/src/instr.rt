//! The instructions, and what each is made of.
ghost use Rattle.std.specs.Prelude.{◌≡◌, ◌+◌, ◌<◌, ◌≤◌, ◌↔◌, false, All, IsSomeAnd, IfSome, IsNone, IsTrue, slice_index};
ghost use Rattle.tatp_instr.specs.Instrs.{parts_of, parts_with};
ghost use Rattle.tatp_instr.specs.Parts.{has_bad_op, has_unused, has_bad_register, instr_with, instr_of};
ghost use Rattle.tatp_instr.specs.Shapes.{shape_at, HasShape};

use crate::registers::{KeyRegisters, Register, RowRegisters};
use tatp_limits::REGISTERS;

/// One instruction; one variant per row of the table, in its order. The registers come before the
/// u32, as in the encoding: so an instruction takes 8 bytes.
#[derive(Clone, Copy, Debug, PartialEq, Eq)]
pub enum Instr {
    /// (d, n): r[d] = n.
    Ldi(Register, u32),
    /// (d, a): r[d] = r[a].
    Mov(Register, Register),
    /// (d, k): r[d] = the argument k.
    Arg(Register, u32),
    /// (d, a, b): r[d] = r[a] + r[b] modulo 2^64.
    Add(Register, Register, Register),
    /// (d, a, b): r[d] = r[a] - r[b] modulo 2^64.
    Sub(Register, Register, Register),
    /// (d, a, b): r[d] = 1 where r[a] = r[b], and otherwise 0.
    Eq(Register, Register, Register),
    /// (d, a, b): r[d] = 1 where r[a] < r[b], unsigned, and otherwise 0.
    Lt(Register, Register, Register),
    /// (t): pc = t.
    Jmp(u32),
    /// (a, t): pc = t where r[a] = 0.
    Jz(Register, u32),
    /// (d, a): Finds the Subscriber with s_id = r[a].
    Fsub(Register, Register),
    /// (d, a): Finds the Subscriber with sub_nbr = r[a].
    Fnum(Register, Register),
    /// (d, a, b): Finds the Access_Info (r[a], r[b]).
    Facc(Register, Register, Register),
    /// (d, a, b): Finds the Special_Facility (r[a], r[b]).
    Ffac(Register, Register, Register),
    /// (d, a): Finds the Call_Forwarding (r[a], r[a+1], r[a+2]).
    Fcfw(Register, KeyRegisters),
    /// (d, c): r[d] = the column c of its table's current row.
    Get(Register, u32),
    /// (a, c): Sets the column c of its table's current row to r[a].
    Put(Register, u32),
    /// (d, a): Inserts the Call_Forwarding row r[a] to r[a+4].
    Ins(Register, RowRegisters),
    /// Deletes the current Call_Forwarding row.
    Del,
    /// (a): Appends r[a] to the outputs.
    Out(Register),
    /// The call ends with its outputs.
    Done,
    /// (n): The call ends with failure n.
    Fail(u32),
    /// (a, t): Where r[a] is above 0 it goes down by one and pc = t. Version 2.
    Loop(Register, u32),
}

/// An instruction taken apart: its op, its register operands in the order of the text, with 0
/// where there are fewer, and its u32, 0 where it has none.
#[derive(Clone, Copy, Debug, PartialEq, Eq)]
pub struct Parts {
    pub op: u8,
    pub registers: [u8; 3],
    pub word: u32,
}

impl Instr {
    /// The op and the operands.
    #[tactic(auto, using(crate::proofs::Shaped::three_below))]
    pub fn parts(&self) -> Parts
        ensures value { result ≡ parts_of self.now }
        ensures shape { IsSomeAnd (shape_at result.op) (HasShape result) }

        // Each register operand is one of a call, and so are the three of a key (op 0x0E) and
        // the five of a row (op 0x11).
        ensures registers { All (λ number. number < REGISTERS) result.registers }
        ensures key { result.op ≡ 0x0E → slice_index result.registers 1 + 3 ≤ REGISTERS }
        ensures row { result.op ≡ 0x11 → slice_index result.registers 1 + 5 ≤ REGISTERS }
    {
        let (op, registers, word) = match *self {
            Instr::Ldi(d, n) => (0x01, [d.number(), 0, 0], n),
            Instr::Mov(d, a) => (0x02, [d.number(), a.number(), 0], 0),
            Instr::Arg(d, k) => (0x03, [d.number(), 0, 0], k),
            Instr::Add(d, a, b) => (0x04, [d.number(), a.number(), b.number()], 0),
            Instr::Sub(d, a, b) => (0x05, [d.number(), a.number(), b.number()], 0),
            Instr::Eq(d, a, b) => (0x06, [d.number(), a.number(), b.number()], 0),
            Instr::Lt(d, a, b) => (0x07, [d.number(), a.number(), b.number()], 0),
            Instr::Jmp(t) => (0x08, [0, 0, 0], t),
            Instr::Jz(a, t) => (0x09, [a.number(), 0, 0], t),
            Instr::Fsub(d, a) => (0x0A, [d.number(), a.number(), 0], 0),
            Instr::Fnum(d, a) => (0x0B, [d.number(), a.number(), 0], 0),
            Instr::Facc(d, a, b) => (0x0C, [d.number(), a.number(), b.number()], 0),
            Instr::Ffac(d, a, b) => (0x0D, [d.number(), a.number(), b.number()], 0),
            Instr::Fcfw(d, a) => (0x0E, [d.number(), a.number(), 0], 0),
            Instr::Get(d, c) => (0x0F, [d.number(), 0, 0], c),
            Instr::Put(a, c) => (0x10, [a.number(), 0, 0], c),
            Instr::Ins(d, a) => (0x11, [d.number(), a.number(), 0], 0),
            Instr::Del => (0x12, [0, 0, 0], 0),
            Instr::Out(a) => (0x13, [a.number(), 0, 0], 0),
            Instr::Done => (0x14, [0, 0, 0], 0),
            Instr::Fail(n) => (0x15, [0, 0, 0], n),
            Instr::Loop(a, t) => (0x16, [a.number(), 0, 0], t),
        };
        Parts {
            op,
            registers,
            word,
        }
    }

    /// The instruction with these parts, or `None` where a register is outside its range.
    pub fn from_parts(parts: &Parts) -> Option<Instr>
        requires known { has_bad_op parts.now ≡ false }
        requires used { has_unused parts.now ≡ false }
        ensures value { IfSome result (λ instr. parts_of instr ≡ parts.now) }
        ensures exact { result ≡ instr_of parts.now }
        ensures none { IsNone result ↔ IsTrue (has_bad_register parts.now) }
    {
        let [first, second, third] = parts.registers;
        instr_of(parts.op, first, second, third, parts.word)
    }
}

// The instruction of an op and its operands, or `None` where a register is outside its range. An
// operand that the op has no use for is 0, so it passes for a register.
#[tactic(auto, unfolding(crate::specs::Parts::instr_with))]
fn instr_of(op: u8, first: u8, second: u8, third: u8, word: u32) -> Option<Instr>
    requires known { has_bad_op (parts_with op first second third word) ≡ false }
    requires used { has_unused (parts_with op first second third word) ≡ false }
    ensures value { IfSome result
        (λ instr. parts_of instr ≡ parts_with op first second third word) }
    ensures exact { IfSome result (λ instr. instr ≡ instr_with op first second third word) }
    ensures none { IsNone result
        ↔ IsTrue (has_bad_register (parts_with op first second third word)) }
{
    let key = second;
    let (first, second, third) = (
        Register::new(first)?,
        Register::new(second)?,
        Register::new(third)?,
    );
    let instr = match op {
        0x01 => Instr::Ldi(first, word),
        0x02 => Instr::Mov(first, second),
        0x03 => Instr::Arg(first, word),
        0x04 => Instr::Add(first, second, third),
        0x05 => Instr::Sub(first, second, third),
        0x06 => Instr::Eq(first, second, third),
        0x07 => Instr::Lt(first, second, third),
        0x08 => Instr::Jmp(word),
        0x09 => Instr::Jz(first, word),
        0x0A => Instr::Fsub(first, second),
        0x0B => Instr::Fnum(first, second),
        0x0C => Instr::Facc(first, second, third),
        0x0D => Instr::Ffac(first, second, third),
        0x0E => Instr::Fcfw(first, KeyRegisters::new(key)?),
        0x0F => Instr::Get(first, word),
        0x10 => Instr::Put(first, word),
        0x11 => Instr::Ins(first, RowRegisters::new(key)?),
        0x12 => Instr::Del,
        0x13 => Instr::Out(first),
        0x14 => Instr::Done,
        0x15 => Instr::Fail(word),
        // 0x16
        _ => Instr::Loop(first, word),
    };
    Some(instr)
}
