//! The closing of a run: what its sites, parcels and chapters leave, and whether the logs, the
//! receipts and the calls are one history of transactions.
#![tactic(auto)]

mod cause;
mod chapter_table;
mod closed;
mod counts;
mod differences;
mod extents;
mod first_cause;
mod gathering;
mod joins;
mod judgement;
mod lists;
mod log_parts;
mod log_table;
mod logs;
mod named_calls;
mod placement;
mod places;
mod refusals;
mod rows;
mod run;
mod searches;
mod settled;
mod settlement;
mod stamps;
mod table;
mod theorems;
mod unmatched_calls;

pub use cause::Unsettled;
pub use closed::{Closed, ClosedSite};
pub use gathering::gather;
pub use refusals::{GatherError, NotGathered, NotSettled, SettleError};
pub use settled::Settled;
pub use settlement::settle;
pub use theorems::{
    every_interleaving_is_one_history, logs_can_be_merged, merged_logs_are_one_history,
    runs_are_one_history, runs_are_one_history_in_any_order,
};
