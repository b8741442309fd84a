//! Rows, or the calls of one client, that are to be drawn for another database.
use crate::Distribution;

/// A population to be drawn and written.
#[derive(Clone, Copy, Debug, PartialEq, Eq)]
pub struct RowsPlan {
    /// How many subscribers it has, 1 to `MAX_SUBSCRIBERS`.
    pub subscribers: u64,
    /// The seed of its random words.
    pub seed: u64,
}

/// The calls of one client, to be drawn and written.
#[derive(Clone, Copy, Debug, PartialEq, Eq)]
pub struct CallsPlan {
    /// How many subscribers are called, 1 to `MAX_SUBSCRIBERS`.
    pub subscribers: u64,
    /// How many calls there are, 1 to `MAX_DRAWN_CALLS`.
    pub calls: u64,
    /// Which client makes them, counted from 0, below `MAX_CLIENTS`.
    pub client: u64,
    /// The seed of its random words.
    pub seed: u64,
    /// How the calls are distributed over the subscribers.
    pub distribution: Distribution,
}
