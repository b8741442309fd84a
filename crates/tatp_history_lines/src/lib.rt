//! The lines of a history as text: what clients asked, and what they were answered.
#![tactic(auto)]

mod fault;
mod open_calls;
mod parsing;
mod recordings;
mod theorems;
mod values;
mod words;

pub use fault::LineFault;
pub use open_calls::OpenCalls;
pub use theorems::lines_are_read_exactly;
