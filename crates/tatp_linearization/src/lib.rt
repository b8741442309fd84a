//! Whether the calls of one subscriber, as clients saw them, are strictly serializable.
#![tactic(auto)]

mod ahead;
mod clusters;
mod comparing;
mod configuration;
mod covering;
mod cut;
mod doomed;
mod effects;
mod explanations;
mod first;
mod following;
mod kinds;
mod later;
mod legal;
mod locations;
mod lost;
mod overwriting;
mod reading;
mod rows;
mod searched;
mod single;
mod stopped;
mod taking;
mod to_rows;

pub use explanations::{Explanations, Standing};
pub use first::First;
