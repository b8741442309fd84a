//! The history of a run of threads: what its clients asked and were answered, line by line in the
//! order of time.
#![tactic(auto)]

mod history;
mod numbers;
mod part;

pub use history::write_history;
pub use numbers::Numbers;
