//! The command `explain`: what the refusals and faults of each number mean, and what to do.
#![tactic(auto)]

mod commands;
mod explanation;
mod search;
mod table;

pub use commands::{run_explain, run_explain_all};
