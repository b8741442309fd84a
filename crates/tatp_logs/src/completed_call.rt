//! A completed call among those of a list.
use crate::kept_ask::KeptAsk;
use crate::kept_reply::KeptReply;

/// A completed call whose arguments and outputs are in the list of all values.
#[derive(Clone, Copy, Debug)]
pub(crate) struct CompletedCall {
    pub client: u64,
    pub number: u64,
    pub ask: KeptAsk,
    pub reply: KeptReply,
    pub stamp: u64,
}
