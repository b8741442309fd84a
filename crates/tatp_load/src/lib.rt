//! The commands rows and calls: the load of a benchmark, drawn and written for another database.
#![tactic(auto)]

mod call_line;
mod calls;
mod rows;

pub use call_line::push_call_line;
pub use calls::run_calls;
pub use rows::run_rows;
