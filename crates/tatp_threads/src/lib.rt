//! Running threads: one executor a partition, clients, a mover and a debugger, over sites under
//! their locks, shared routes and ruled inboxes.
#![tactic(auto)]

mod admission;
mod beginning;
mod calls;
mod client;
mod debugger;
mod executor;
mod history;
mod mover;
mod outcome;
mod partition;
mod refusal;
mod request;
mod reserved;
mod routes;
mod run;
mod run_plan;
mod shared;
mod starting;

pub use history::copy_extent;
pub use outcome::{RunOutcome, RunOutcomeParts};
pub use refusal::RunRefusal;
pub use run::{run_calls, run_clean_calls};
pub use run_plan::RunPlan;
pub use tatp_workers::{Gate, NoGate};
