//! A transaction on the home of its subscriber.
#![tactic(auto)]

mod evaluation;
mod reads;
mod writes;

pub use evaluation::evaluate;
