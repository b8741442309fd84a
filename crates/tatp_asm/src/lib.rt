//! Modules from assembly text, and back.
#![tactic(auto)]

mod assembling;
mod draft;
mod fault;
mod fields;
mod head;
mod labels;
mod line;
mod name;
mod operands;
mod printing;
mod target;
mod theorems;

pub use assembling::{assemble, assemble_bytes};
pub use fault::{AsmError, AsmFault, AsmFaultKind};
pub use printing::disassemble;
pub use theorems::{assemble_disassembled, instructions_are_printed_as_their_text};
