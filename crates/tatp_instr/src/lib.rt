//! The instructions of a small register machine: their table as data, its versions, and their text.
#![tactic(auto)]

mod book;
mod ending;
mod instr;
mod printing;
mod registers;
mod version;

pub use book::{BOOK, OpRow, Shape, Word, operands, row_named};
pub use ending::{End, Trap};
pub use instr::{Instr, Parts};
pub use printing::{Line, text};
pub use registers::{KeyRegisters, Register, Registers, RowRegisters};
pub use version::Version;
