//! Lists of calls, each kept with as many arguments and outputs as it has: the logs of extents, the
//! receipts of clients, and the completed calls.
#![tactic(auto)]

mod completed_call;
mod completions;
mod kept_ask;
mod kept_reply;
mod log;
mod memory;
mod receipt;
mod receipts;

pub use completions::Completions;
pub use log::Log;
pub use receipt::{Receipt, ReceiptRef};
pub use receipts::Receipts;
