//! The seven transactions of the TATP benchmark, as definitions on four sets of tuples; calls of
//! them and their replies, as values and as lines.
#![tactic(auto)]

mod ask;
mod call;
mod call_line;
mod domains;
mod entry;
mod raw;
mod reply;
mod reply_line;
mod transactions;
mod values;

pub use ask::Ask;
pub use call::Call;
pub use call_line::{call_text, push_call, read_call};
pub use domains::{BadArgument, args_ok};
pub use entry::Entry;
pub use raw::Raw;
pub use reply::{Outputs, Reply, ReplyRef};
pub use reply_line::{push_reply, reply_text};
pub use transactions::{
    DELETE_CALL_FORWARDING, GET_ACCESS_DATA, GET_NEW_DESTINATION, GET_SUBSCRIBER_DATA,
    INSERT_CALL_FORWARDING, Transaction, UPDATE_LOCATION, UPDATE_SUBSCRIBER_DATA,
};
