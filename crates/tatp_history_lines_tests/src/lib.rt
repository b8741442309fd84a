//! Tests of the lines of histories, through the public functions of `tatp_history_lines`.
//!
//! They are in a crate of their own, since a crate with tests is proved a second time with them.
#![tactic(auto)]

#[cfg(test)]
mod tests;
