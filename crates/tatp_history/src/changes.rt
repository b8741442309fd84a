//! Calls that change nothing, given how they ended.
ghost use Rattle.std.specs.Prelude.{◌≡◌};
ghost use Rattle.tatp_history.specs.Changes.{changes_nothing, has_failed, only_reads as reads, records_failure};

use crate::{Observed, Outcome, Recorded};
use tatp_calls::{Call, Reply};

/// Whether a call only reads.
pub fn only_reads(call: &Call) -> bool
    ensures { result ≡ reads call.now }
{
    match call {
        Call::GetSubscriberData { .. } => true,
        Call::GetNewDestination { .. } => true,
        Call::GetAccessData { .. } => true,
        Call::UpdateSubscriberData { .. } => false,
        Call::UpdateLocation { .. } => false,
        Call::InsertCallForwarding { .. } => false,
        Call::DeleteCallForwarding { .. } => false,
    }
}

impl Recorded {
    /// Whether the client recorded that the call failed.
    fn is_failure(&self) -> bool
        ensures { result ≡ records_failure self.now }
    {
        match self {
            Recorded::Exactly(reply) => matches!(reply, Reply::Failed(_)),
            Recorded::Success => false,
            Recorded::Failure => true,
        }
    }
}

impl Outcome {
    /// Whether the call failed.
    fn is_failure(&self) -> bool
        ensures { result ≡ has_failed self.now }
    {
        match self {
            Outcome::Answered { recorded, .. } => recorded.is_failure(),
            Outcome::Aborted { .. } => false,
            Outcome::Unknown => false,
        }
    }
}

impl Observed {
    /// Whether the call changed nothing if it ended as it did: it only reads, or it failed.
    pub fn changes_nothing(&self) -> bool
        ensures { result ≡ changes_nothing self.now }
    {
        only_reads(&self.call) || self.outcome.is_failure()
    }
}
