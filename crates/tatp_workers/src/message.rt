//! What an executor takes out of its inbox.
use tatp_partition::Item;

/// What an executor takes out of its inbox.
#[derive(Clone, Copy, Debug, PartialEq, Eq)]
pub enum Message {
    /// The executor may return.
    Quit,
    /// A call waits.
    Call(Item),
}
