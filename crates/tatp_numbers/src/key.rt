//! Keys of subscribers.

/// A key of a subscriber: its s_id, or its number. It may name no subscriber.
#[derive(Clone, Copy, Debug, PartialEq, Eq)]
pub enum Key {
    /// The subscriber with this s_id.
    Id(u64),
    /// The subscriber with this number.
    Number(u64),
}
