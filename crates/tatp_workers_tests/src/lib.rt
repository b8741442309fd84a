//! Surroundings over which each worker is proved to do what its contract says. Nothing here runs.
#![tactic(auto)]

mod witness;
