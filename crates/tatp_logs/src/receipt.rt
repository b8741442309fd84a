//! What clients get.
use tatp_calls::{Reply, ReplyRef};

/// What a client got for one of its calls.
#[derive(Clone, Copy, Debug, PartialEq, Eq)]
pub enum Receipt {
    /// The call was completed.
    Done {
        /// Which client asked.
        client: u64,
        /// How many calls of that client were accepted before it.
        number: u64,
        /// The reply.
        reply: Reply,
        /// The extent in whose log it is, 0 without a home.
        extent: u32,
        /// Its stamp there.
        stamp: u64,
    },
    /// Memory was refused to the call.
    Refused {
        /// Which client asked.
        client: u64,
        /// How many calls of that client were accepted before it.
        number: u64,
    },
}

/// A receipt among those that a client keeps: the outputs of its reply are with theirs.
#[derive(Clone, Copy, Debug)]
pub enum ReceiptRef<'a> {
    /// The call was completed.
    Done {
        /// Which client asked.
        client: u64,
        /// How many calls of that client were accepted before it.
        number: u64,
        /// The reply.
        reply: ReplyRef<'a>,
        /// The extent in whose log it is, 0 without a home.
        extent: u32,
        /// Its stamp there.
        stamp: u64,
    },
    /// Memory was refused to the call.
    Refused {
        /// Which client asked.
        client: u64,
        /// How many calls of that client were accepted before it.
        number: u64,
    },
}
