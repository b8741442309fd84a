//! Reads a whole input, or its lines one after another; writes an output in pieces; and says why
//! either ends early.
#![tactic(auto)]

mod fault;
mod input;
mod line_reader;
mod output;
mod text;

pub use fault::StreamFault;
pub use input::read_all;
pub use line_reader::LineReader;
pub use output::{write_if_full, write_last};
pub use text::text_of;
