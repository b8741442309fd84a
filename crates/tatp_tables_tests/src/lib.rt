//! Tests of the crates of lines, tables and subscriber numbers, through their public calls.
//!
//! They are in a crate of their own, since a crate with tests is proved a second time with them.
#![tactic(auto)]

#[cfg(test)]
mod tests;
