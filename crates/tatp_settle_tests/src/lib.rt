//! Tests of sites, moves and settling, through their public calls; and what tests of whole runs
//! share with them: clean rows, sites, and events at a site.
//!
//! They are in a crate of their own, since a crate with tests is proved a second time with them.
#![tactic(auto)]

pub mod events;
pub mod rows;
pub mod sites;
#[cfg(test)]
mod tests;
