//! Extents: the homes of some subscribers in a row, with the log of their calls and its
//! chapters; and clean rows opened into extents.
#![tactic(auto)]

mod chapter;
mod discard;
mod extent;
mod extent_numbers;
mod homeless;
mod homes;
mod open_error;
mod opening;
mod parts;
mod pinned;
mod shared_homes;
mod theorems;

pub use chapter::{Chapter, CheckpointError, what_holds_of_every_chapter};
pub use discard::{Discard, discard_all};
pub use extent::{Extent, what_holds_of_every_extent};
pub use extent_numbers::{extent_count, extent_of, first_subscriber};
pub use homeless::{Homeless, what_holds_of_every_homeless_log};
pub use open_error::OpenError;
pub use opening::{admit, open, open_clean, reserve_logs};
pub use parts::{ExtentParts, HomelessParts};
pub use pinned::Pinned;
pub use shared_homes::SharedHomes;
pub use theorems::{
    homes_are_parts_of_their_database, homes_are_put_in_their_places, homes_stand_in_their_places,
    joined_chapters_are_one_history, rows_of_all_homes_are_the_database,
};
