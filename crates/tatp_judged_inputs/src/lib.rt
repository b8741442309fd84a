//! The verdict on a history as an input brings it; and the command `judge`, whose input is rows and
//! a history.
#![tactic(auto)]

mod command;
mod fault;
mod history_fault;
mod judging;
mod legal_replies;
mod line_numbers;
mod progress;
mod reading;
mod telling;
mod theorems;
mod to_rows;
mod undecided;

pub use command::run_judge;
pub use fault::JudgeFault;
pub use history_fault::HistoryFault;
pub use judging::{Judged, Judgement, Window, judge_history};
pub use progress::{LineReporter, Progress};
pub use theorems::{histories_and_rows_have_one_verdict, histories_have_one_verdict};
