//! The lines of `trace` as text, and those of what is answered.
#![tactic(auto)]

mod answers;
mod homes;
mod line;
mod parsing;
mod printing;
mod theorems;

pub use answers::{push_answer, refused_text};
pub use homes::home_text;
pub use line::TraceLine;
pub use parsing::read_trace_line;
pub use printing::trace_line_text;
pub use theorems::lines_are_read_as_printed;
