//! The commands `call` and `trace`: lines over rows, answered one after another.
#![tactic(auto)]

mod brought;
mod call;
mod echo;
mod event_line;
mod fault;
mod lines;
mod looking;
mod renewal;
mod rows;
mod theorems;
mod trace;
mod world;

pub use call::run_call;
pub use fault::ConsoleFault;
pub use theorems::{served_calls_are_in_order, told_lines_are_a_run};
pub use trace::run_trace;
