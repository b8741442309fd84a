//! Calls of three kinds: no call writes what a call of another kind reads or writes.
ghost use Rattle.std.specs.Prelude.{◌≡◌, ◌↔◌, IsTrue};
ghost use Rattle.tatp_linearization.specs.Kinds.{IsTried, kind_of as kind_then};

use tatp_calls::Call;

/// The rows of which a call reads or writes what may change.
#[derive(Clone, Copy, PartialEq, Eq)]
pub(crate) enum Kind {
    /// The columns of the subscriber and of its facilities.
    Columns,
    /// The accesses, which stay as they are.
    Accesses,
    /// The forwardings.
    Forwardings,
}

/// The kind of a call.
pub(crate) fn kind_of(call: &Call) -> Kind
    ensures { result ≡ kind_then call.now }
{
    match call {
        Call::GetSubscriberData { .. } => Kind::Columns,
        Call::GetNewDestination { .. } => Kind::Forwardings,
        Call::GetAccessData { .. } => Kind::Accesses,
        Call::UpdateSubscriberData { .. } => Kind::Columns,
        Call::UpdateLocation { .. } => Kind::Columns,
        Call::InsertCallForwarding { .. } => Kind::Forwardings,
        Call::DeleteCallForwarding { .. } => Kind::Forwardings,
    }
}

/// Whether a call is of a kind, or of any where none is given.
pub(crate) fn is_tried(kind: Option<Kind>, call: &Call) -> bool
    ensures { IsTrue result ↔ IsTried kind call.now }
{
    match kind {
        Some(kind) => kind_of(call) == kind,
        None => true,
    }
}
