//! Tests of running threads, through their public calls.
//!
//! They are in a crate of their own, since a crate with tests is proved a second time with them.
#![tactic(auto)]

#[cfg(test)]
mod tests;
