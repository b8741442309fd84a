//! The judge of histories: whether what clients saw is strictly serializable, and up to which line.
#![tactic(auto)]

mod accepted;
mod aside;
mod asked;
mod closing;
mod closing_on;
mod conflicts;
mod explaining;
mod finishing;
mod judge;
mod legal;
mod others;
mod outcome;
mod part;
mod searching;
mod stakes;
mod window;
mod windows;

pub use accepted::is_accepted;
pub use aside::Undecided;
pub use finishing::FinalVerdict;
pub use judge::{Judge, Verdict};
pub use legal::LegalReplies;
pub use others::others_are_legal_where_those_of_each_part_are;
pub use part::{
    Part, a_history_is_legal_where_each_part_is, a_history_leads_to_rows_where_each_part_does,
};
pub use stakes::{Counts, Stakes};
