//! The lines of texts: of characters one after another, of bytes a line and what follows it.
//! Numbers in decimal, read and written.
#![tactic(auto)]

mod bytes;
mod decimal;
mod lines;

pub use bytes::next_line;
pub use decimal::{push_decimal, read_number};
pub use lines::Lines;
