//! What a debugger sees of a running call.
#![tactic(auto)]

mod printing;
mod snapshot;
mod taking;

pub use snapshot::{CurrentKeys, Snapshot};
pub use taking::snapshot_of;
