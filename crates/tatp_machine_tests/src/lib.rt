//! Tests of the crates of modules and of the machine, up to `tatp_asm` and `tatp_machine`, through
//! their public calls.
//!
//! They are in a crate of their own, since a crate with tests is proved a second time with them.
#![tactic(auto)]

#[cfg(test)]
mod tests;
