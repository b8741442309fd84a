//! The home of a key: which subscriber an s_id or a number names.
//!
//! A key names at most one subscriber, and a call's home is that subscriber's s_id. A [`Directory`]
//! is built once from the Subscriber rows, and answers for each key what a find among those rows
//! does (`home_of_key` in `specs/Homes.antt`).
#![tactic(auto)]

mod build_error;
mod directory;
mod key;
mod theorems;

pub use build_error::BuildError;
pub use directory::Directory;
pub use key::Key;
pub use theorems::clean_rows_make_a_directory;
