//! The events of calls.

use crate::Observed;

/// What happens to the calls of one subscriber.
#[derive(Clone, Copy, Debug, PartialEq, Eq)]
pub enum Event {
    /// A call is asked.
    Asks(Observed),
    /// The call that was asked at a time is answered at another.
    Ends {
        /// The time at which it was asked.
        asked: u64,
        /// The time at which it is answered.
        at: u64,
    },
}
