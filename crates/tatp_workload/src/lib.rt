//! What is drawn for a run from its seed: population, clients' calls, moves and stops.
#![tactic(auto)]

mod calls;
mod moves;
mod workload;

pub use workload::{Workload, generate_workload};
