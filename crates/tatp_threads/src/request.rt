//! What an inbox holds. A call takes few bytes there: what it asks stands in its client's list.
ghost use Rattle.std.specs.Prelude.{◌≡◌};
ghost use Rattle.tatp_threads.specs.Inboxes.{request_of, item_for};

use tatp_calls::Ask;
use tatp_partition::Item;

/// A call in an inbox. What it asks is the call of its number in its client's list.
#[derive(Clone, Copy, Debug, PartialEq, Eq)]
pub(crate) struct Request {
    /// Which client asks.
    pub(crate) client: u64,
    /// How many calls of that client were accepted before it.
    pub(crate) number: u64,
    /// The last stamp that the client has received.
    pub(crate) seen: u64,
    /// The s_id that the key names, if it names a subscriber.
    pub(crate) home: Option<u64>,
}

impl Request {
    /// The request that stands for a call.
    pub(crate) fn of(item: &Item) -> Request
        ensures { result ≡ request_of item.now }
    {
        Request {
            client: item.client,
            number: item.number,
            seen: item.seen,
            home: item.home,
        }
    }

    /// The call for which it stands, where this is what it asks.
    pub(crate) fn to_item(&self, ask: &Ask) -> Item
        ensures { result ≡ item_for self.now ask.now }
    {
        Item {
            client: self.client,
            number: self.number,
            seen: self.seen,
            ask: *ask,
            home: self.home,
        }
    }
}

/// What an inbox holds.
#[derive(Clone, Copy, Debug, PartialEq, Eq)]
pub(crate) enum InboxMessage {
    /// The executor may return.
    Quit,
    /// A call waits.
    Call(Request),
}
