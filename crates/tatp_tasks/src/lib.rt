//! What the program can be asked to do, with the numbers and choices of each task.
#![tactic(auto)]

mod distribution;
mod judging;
mod load;
mod plan;
mod population;
mod procedures;
mod setup;
mod task;

pub use distribution::Distribution;
pub use judging::JudgePlan;
pub use load::{CallsPlan, RowsPlan};
pub use plan::BenchPlan;
pub use population::Population;
pub use procedures::Procedures;
pub use setup::Setup;
pub use task::Task;
