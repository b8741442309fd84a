//! The command `bench`: a concurrent run of the benchmark, settled, and what is written of it.
#![tactic(auto)]

mod bench;
mod chapters;
mod closing;
mod fault;
mod freeing;
mod recorder;
mod report;
mod report_fault;
mod reporter;
mod work;

pub use bench::{BenchRun, run_bench, run_drawn};
pub use closing::{SettledRun, settle_run};
pub use fault::BenchFault;
pub use report::{report_bench, report_history};
pub use report_fault::ReportFault;
pub use reporter::{Progress, Reporter};
pub use tatp_tasks::BenchPlan;
pub use tatp_threads::NoGate;
pub use tatp_workload::{Workload, generate_workload};
pub use work::{Work, run_work};
