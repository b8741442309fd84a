//! The calls that a client of the benchmark makes, drawn from random words.
#![tactic(auto)]

mod drawn_call;
mod driver;

pub use drawn_call::call_of;
pub use driver::Driver;
