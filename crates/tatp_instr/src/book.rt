//! The table of the instructions as data.
ghost use Rattle.std.specs.Prelude.{◌≡◌, ◌<◌, ◌≤◌, ◌↔◌, IsSome, IfSome, option_map, map, length, Some};
ghost use Rattle.tatp_instr.specs.declared.instr.Instr.{Instr};
ghost use Rattle.tatp_instr.specs.Instrs.{parts_of};
ghost use Rattle.tatp_instr.specs.Rows.{IsRowOf, row_view};
ghost use Rattle.tatp_instr.specs.Shapes.{shape_at, rows, named, row_named};

/// What is in an instruction's u32.
#[derive(Clone, Copy, Debug, PartialEq, Eq)]
pub enum Word {
    /// No u32: it is 0.
    Nothing,
    /// A number of its own.
    Count,
    /// A column's number.
    Column,
    /// An argument's number.
    Argument,
    /// The index of an instruction.
    Target,
}

/// The operands of an op: the number of its registers, 0 to 3, and what its u32 holds.
#[derive(Clone, Copy, Debug, PartialEq, Eq)]
pub struct Shape {
    pub registers: u8,
    pub word: Word,
}

/// One row of the table. In the text, the u32 operand comes before the registers where
/// `word_first`, and otherwise after them.
#[derive(Clone, Copy, Debug, PartialEq, Eq)]
pub struct OpRow {
    pub op: u8,
    pub mnemonic: &'static str,
    pub shape: Shape,
    pub word_first: bool,
}

// One row. Its operands are in the order of the text: the number of the registers, and what the
// u32 holds, where the op has one.
macro_rules! row {
    ($op:literal, $mnemonic:literal, $registers:literal) => {
        row!($op, $mnemonic, $registers, Nothing)
    };
    ($op:literal, $mnemonic:literal, $registers:literal, $word:ident) => {
        OpRow {
            op: $op,
            mnemonic: $mnemonic,
            shape: Shape {
                registers: $registers,
                word: Word::$word,
            },
            word_first: false,
        }
    };
    ($op:literal, $mnemonic:literal, $word:ident, $registers:literal) => {
        OpRow {
            op: $op,
            mnemonic: $mnemonic,
            shape: Shape {
                registers: $registers,
                word: Word::$word,
            },
            word_first: true,
        }
    };
}

/// The table of the instructions. The row of an op is at index op - 1; version 1 has the first 21.
pub const BOOK: [OpRow; 22] = [
    row!(0x01, "LDI", 1, Count),
    row!(0x02, "MOV", 2),
    row!(0x03, "ARG", 1, Argument),
    row!(0x04, "ADD", 3),
    row!(0x05, "SUB", 3),
    row!(0x06, "EQ", 3),
    row!(0x07, "LT", 3),
    row!(0x08, "JMP", 0, Target),
    row!(0x09, "JZ", 1, Target),
    row!(0x0A, "FSUB", 2),
    row!(0x0B, "FNUM", 2),
    row!(0x0C, "FACC", 3),
    row!(0x0D, "FFAC", 3),
    row!(0x0E, "FCFW", 2),
    row!(0x0F, "GET", 1, Column),
    row!(0x10, "PUT", Column, 1),
    row!(0x11, "INS", 2),
    row!(0x12, "DEL", 0),
    row!(0x13, "OUT", 1),
    row!(0x14, "DONE", 0),
    row!(0x15, "FAIL", 0, Count),
    row!(0x16, "LOOP", 1, Target),
];

// The rows of the table.
fn book() -> &'static [OpRow]
    ensures rows { map row_view result.now ≡ rows }
    ensures count { length result.now ≡ 22 }
{
    &BOOK
}

// The row of an op, from which the text of each instruction of that op is read.
pub(crate) fn row_at(op: u8) -> &'static OpRow
    requires above_zero { 0 < op }
    requires in_table { op ≤ 22 }
    ensures { (instr : Instr) → (parts_of instr).op ≡ op → IsRowOf result.now instr }
{
    let book = &BOOK;
    &book[usize::from(op) - 1]
}

/// The operands of an op, or `None` where op is no op of the table.
pub fn operands(op: u8) -> Option<Shape>
    ensures value { result ≡ shape_at op }
    ensures known { IsSome result ↔ ((0 < op) × (op ≤ 22)) }
    ensures registers { IfSome result (λ shape. shape.registers ≤ 3) }
{
    if op == 0 || op > 22 {
        return None;
    }
    let rows = book();
    Some(rows[usize::from(op) - 1].shape)
}

// The first of some rows with this mnemonic.
fn find_row(rows: &'static [OpRow], mnemonic: &str) -> Option<&'static OpRow>
    ensures { option_map (λ row. row_view row.now) result
        ≡ named mnemonic.now (map row_view rows.now) }
{
    for row in rows {
        if row.mnemonic == mnemonic {
            return Some(row);
        }
    }
    None
}

/// The row of a mnemonic, or `None` where no op has it.
#[tactic(auto, unfolding(crate::specs::Shapes::row_named))]
pub fn row_named(mnemonic: &str) -> Option<&'static OpRow>
    ensures value { option_map (λ row. row_view row.now) result ≡ row_named mnemonic.now }
    ensures shape { IfSome result (λ row. shape_at row.now.op ≡ Some row.now.shape) }
    ensures registers { IfSome result (λ row. row.now.shape.registers ≤ 3) }
{
    find_row(&BOOK, mnemonic)
}
