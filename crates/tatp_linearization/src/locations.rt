//! Locations that calls saw, or set.
ghost use Rattle.std.specs.Prelude.{◌≡◌, ◌↔◌, IsTrue};
ghost use Rattle.tatp_linearization.specs.Doomed.{sets_location as sets};
ghost use Rattle.tatp_linearization.specs.Unseen.{HasSetLocation, location_answered, location_in, location_of as location_then, sees as has_seen};

use tatp_calls::{Call, Reply};
use tatp_history::{Observed, Outcome, Recorded};

/// The column of a Subscriber row.
pub(crate) const VLR_LOCATION: u8 = 33;

/// The location in the reply with which a read of the subscriber ended, if it ended with one.
fn location_of_outcome(outcome: &Outcome) -> Option<u64>
    ensures { result ≡ location_answered outcome.now }
{
    match outcome {
        Outcome::Answered {
            recorded: Recorded::Exactly(Reply::Values(values)),
            ..
        } => {
            let values = values.as_slice();
            if values.len() <= VLR_LOCATION as usize {
                return None;
            }
            Some(values[VLR_LOCATION as usize])
        }
        _ => None,
    }
}

/// The location with which a read of the subscriber was answered.
pub(crate) fn location_seen(x: &Observed) -> Option<u64>
    ensures { result ≡ location_in x.now }
{
    match x.call {
        Call::GetSubscriberData { .. } => location_of_outcome(&x.outcome),
        _ => None,
    }
}

/// Whether a read saw this location.
pub(crate) fn sees(x: &Observed, location: u64) -> bool
    ensures { result ≡ has_seen location x.now }
{
    match location_seen(x) {
        Some(seen) => seen == location,
        None => false,
    }
}

/// The location that a call saw, or sets.
pub(crate) fn location_of(x: &Observed) -> Option<u64>
    ensures { result ≡ location_then x.now }
{
    match x.call {
        Call::GetSubscriberData { .. } => location_of_outcome(&x.outcome),
        Call::UpdateLocation { vlr_location, .. } => Some(vlr_location),
        _ => None,
    }
}

/// Whether a call sets this location.
pub(crate) fn sets_location(call: &Call, location: u64) -> bool
    ensures { result ≡ sets location call.now }
{
    match call {
        Call::GetSubscriberData { .. } => false,
        Call::GetNewDestination { .. } => false,
        Call::GetAccessData { .. } => false,
        Call::UpdateSubscriberData { .. } => false,
        Call::UpdateLocation { vlr_location, .. } => *vlr_location == location,
        Call::InsertCallForwarding { .. } => false,
        Call::DeleteCallForwarding { .. } => false,
    }
}

/// Whether a call updates the location, and was answered otherwise than by a failure.
pub(crate) fn has_set_location(x: &Observed) -> bool
    ensures { IsTrue result → HasSetLocation x.now }
{
    match (&x.call, &x.outcome) {
        (Call::UpdateLocation { .. }, Outcome::Answered { .. }) => !x.changes_nothing(),
        _ => false,
    }
}
