//! What the words of the command line ask for.
#![tactic(auto)]

mod asked;
mod commands;
mod help;
mod options;
mod words;

pub use asked::Asked;
pub use words::{not_explained, not_text, task_of};
