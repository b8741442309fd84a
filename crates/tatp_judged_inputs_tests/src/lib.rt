//! Tests of verdicts on inputs, through the public functions of `tatp_judged_inputs`.
//!
//! They are in a crate of their own, since a crate with tests is proved a second time with them.
#![tactic(auto)]

#[cfg(test)]
mod tests;
