//! Events: what may happen to the system, what is answered, and why it is refused.
#![tactic(auto)]

mod event;
mod refusal;

pub use event::{Answer, Event};
pub use refusal::Refusal;
