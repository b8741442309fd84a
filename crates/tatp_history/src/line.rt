//! The lines of a history.

use crate::Recorded;
use tatp_calls::Call;

/// What the driver of a client wrote about its calls, in the order of time. It writes that the
/// client asks before it sends the call, and how the call ended once the client knows that.
#[derive(Clone, Copy, Debug, PartialEq, Eq)]
pub enum Line {
    /// The client asks.
    Ask { client: u64, call: Call },
    /// The client's open call is answered.
    End { client: u64, recorded: Recorded },
    /// The client's open call is aborted, and it changed nothing.
    Abort { client: u64 },
    /// The client's open call will never be answered.
    Lost { client: u64 },
}
