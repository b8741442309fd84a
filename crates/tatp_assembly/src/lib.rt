//! The commands `asm`, `dis` and `check`: modules from texts and bytes, and back.
#![tactic(auto)]

mod commands;
mod fault;
mod modules;

pub use commands::{run_asm, run_check, run_dis};
pub use fault::AssemblyFault;
pub use modules::module_of_text;
