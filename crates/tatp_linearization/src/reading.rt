//! Calls that change nothing, and take effect at once.
ghost use Rattle.std.specs.Prelude.{◌≡◌, ◌<◌, ◌↔◌, IsTrue, Ok, Some, false, length, remove, slice_get};
ghost use Rattle.tatp_history.specs.declared.observed.Observed.{Observed as Asked};
ghost use Rattle.tatp_calls.specs.Arguments.{arguments_accepted};
ghost use Rattle.tatp_history.specs.Locality.{AreAccepted};
ghost use Rattle.tatp_linearization.specs.AtOnce.{AreLeft, FitsAtOnce, IsSettledAt, NeedsNoPlace};

use crate::doomed::has_location;
use crate::locations::location_seen;
use tatp_calls::Reply;
use tatp_evaluation::evaluate;
use tatp_history::{Observed, Outcome, only_reads};
use tatp_homes::Home;

/// Whether a read may fit the home, by the location that it saw alone.
fn may_fit(home: &Home, x: &Observed) -> bool
    ensures { result ≡ false → FitsAtOnce home.now.tables x.now → ⊥ }
{
    match location_seen(x) {
        Some(location) => has_location(home, location),
        None => true,
    }
}

/// Whether a call changes nothing, and may have ended with the reply that it has on this home. The
/// home keeps its rows.
pub(crate) fn fits_at_once(home: &mut Home, x: &Observed) -> bool
    requires accepted { arguments_accepted x.now.call ≡ Ok tt }
    ensures fits { IsTrue result ↔ FitsAtOnce home.old.tables x.now }
    ensures rows { home.new.tables ≡ home.old.tables }
    ensures own { home.new.s_id ≡ home.old.s_id }
{
    if !x.changes_nothing() || !may_fit(home, x) {
        return false;
    }
    let mut reply = Reply::Refused;
    if only_reads(&x.call) {
        evaluate(home, &x.call, &mut reply);
    } else {
        evaluate(&mut home.copy(), &x.call, &mut reply);
    }
    x.outcome.allows(&reply)
}

/// Whether a call needn't be open. The home keeps its rows.
pub(crate) fn needs_no_place(home: &mut Home, x: &Observed) -> bool
    requires accepted { arguments_accepted x.now.call ≡ Ok tt }
    ensures none { IsTrue result ↔ NeedsNoPlace home.old.tables x.now }
    ensures rows { home.new.tables ≡ home.old.tables }
    ensures own { home.new.s_id ≡ home.old.s_id }
{
    match x.outcome {
        Outcome::Aborted { .. } => true,
        _ => fits_at_once(home, x),
    }
}

/// Removes an open call, if it changes nothing and its reply fits. The home keeps its rows.
fn settle_at(home: &mut Home, opened: &mut Vec<Observed>, place: usize)
    requires inside { place < length opened.old.items }
    requires accepted { AreAccepted opened.old.items }
    ensures left { (x : Asked) → slice_get opened.old.items place ≡ Some x
        → IsSettledAt home.old.tables x (opened.new.items ≡ remove opened.old.items place)
        (opened.new.items ≡ opened.old.items) }
    ensures rows { home.new.tables ≡ home.old.tables }
    ensures own { home.new.s_id ≡ home.old.s_id }
{
    if fits_at_once(home, &opened[place]) {
        opened.remove(place);
    }
}

/// Removes the calls that change nothing and whose reply fits from the open calls. The home keeps
/// its rows.
pub(crate) fn settle(home: &mut Home, opened: &mut Vec<Observed>)
    requires accepted { AreAccepted opened.old.items }
    ensures left { AreLeft home.old.tables opened.old.items opened.new.items }
    ensures rows { home.new.tables ≡ home.old.tables }
    ensures own { home.new.s_id ≡ home.old.s_id }
{
    let count = opened.len();
    'calls: for i in 0..count {
        settle_at(home, opened, count - 1 - i);
    }
}
