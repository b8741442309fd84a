//! Homes: the rows of one subscriber, found, read and changed.
//!
//! A contract sees a [`Home`] as its s_id and the four sets of its rows. `docs/MODEL.md` gives the
//! definitions in words.
#![tactic(auto)]

mod home;
mod place;
mod refusal;
mod stored;
mod theorems;

pub use home::{Home, homes, homes_in_lists, what_holds_of_every_home};
pub use refusal::Refusal;
pub use theorems::rows_of_one_subscriber;
