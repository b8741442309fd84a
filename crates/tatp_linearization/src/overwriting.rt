//! Calls that set columns, whatever these held, and calls that set them again.
ghost use Rattle.std.specs.Prelude.{◌≡◌, ℕ, ◌≤◌, ◌<◌, ◌↔◌, ◌⊎◌, IsTrue, Ok, [], false};
ghost use Rattle.tatp_calls.specs.declared.reply.Reply.TheVariants.{Values};
ghost use Rattle.tatp_calls.specs.Arguments.{arguments_accepted};
ghost use Rattle.tatp_calls.specs.Transactions.{transaction};
ghost use Rattle.tatp_history.specs.Histories.{MayHaveReply};
ghost use Rattle.tatp_history.specs.Locality.{AreAccepted};
ghost use Rattle.tatp_linearization.specs.Overwritten.{AreOut, IsBlind, IsFirst, IsIdle, IsNeedless, Overwrites, SetsBoth, SetsLocation};

use tatp_calls::{Call, Outputs, Reply};
use tatp_evaluation::evaluate;
use tatp_history::Observed;
use tatp_homes::Home;

/// The column of a Subscriber row.
const BIT_1: u8 = 2;

/// Whether a call may have been answered as a write that succeeds.
fn may_succeed(x: &Observed) -> bool
    ensures { IsTrue result ↔ MayHaveReply x.now.outcome (Values []) }
{
    x.outcome.allows(&Reply::Values(Outputs::from_slice(&[])))
}

/// Whether a call sets columns of rows that are there, whatever these hold.
fn sets_blindly(home: &Home, call: &Call) -> bool
    ensures { IsTrue result ↔ (SetsLocation home.now.tables call.now
        ⊎ SetsBoth home.now.tables call.now) }
{
    match *call {
        Call::UpdateLocation { sub_nbr, .. } => home.has_number(sub_nbr),
        Call::UpdateSubscriberData { s_id, sf_type, .. } => {
            home.has_sub(s_id) && home.has_facility(s_id, sf_type)
        }
        _ => false,
    }
}

/// Whether a call may have set columns of rows that are there, whatever these held.
pub(crate) fn is_blind(home: &Home, x: &Observed) -> bool
    ensures { IsTrue result ↔ IsBlind home.now.tables x.now }
{
    sets_blindly(home, &x.call) && may_succeed(x)
}

/// Whether a call updates the location by this number.
fn sets_location_by(z: &Call, number: u64) -> bool
    ensures { IsTrue result ↔ ((location : ℕ) × (z.now ≡ Call.UpdateLocation number location)) }
{
    if let Call::UpdateLocation { sub_nbr, .. } = z {
        *sub_nbr == number
    } else {
        false
    }
}

/// Whether a call updates data of this subscriber and facility.
fn sets_both_of(z: &Call, own: u64, kind: u64) -> bool
    ensures { IsTrue result ↔ ((bit : ℕ) × (value : ℕ)
        × (z.now ≡ Call.UpdateSubscriberData own bit kind value)) }
{
    if let Call::UpdateSubscriberData { s_id, sf_type, .. } = z {
        *s_id == own && *sf_type == kind
    } else {
        false
    }
}

/// Whether a call that takes effect sets all that another one does.
fn overwrites(x: &Call, z: &Call) -> bool
    ensures { IsTrue result ↔ Overwrites x.now z.now }
{
    match *x {
        Call::UpdateLocation { sub_nbr, .. } => sets_location_by(z, sub_nbr),
        Call::UpdateSubscriberData { s_id, sf_type, .. } => sets_both_of(z, s_id, sf_type),
        _ => false,
    }
}

/// Whether a call that updates data changes nothing: it is tried on a copy, if the bit is the same.
fn is_idle(home: &Home, call: &Call) -> bool
    requires accepted { arguments_accepted call.now ≡ Ok tt }
    ensures { IsTrue result → IsIdle home.now.tables call.now }
{
    match *call {
        Call::UpdateSubscriberData { s_id, bit_1, .. } => {
            if home.get(BIT_1, [s_id, 0, 0]) != Some(bit_1) {
                return false;
            }
            let mut after = home.copy();
            evaluate(&mut after, call, &mut Reply::Refused);
            after == *home
        }
        _ => false,
    }
}

/// Whether a call may not be left out on account of another one that takes effect, and results in
/// the home `after`.
fn stays(home: &Home, after: &Home, z: &Observed, x: &Call) -> bool
    requires rows { after.now.tables ≡ (transaction x.now home.now.tables).database }
    requires accepted { arguments_accepted z.now.call ≡ Ok tt }
    ensures stays { IsTrue result → IsBlind home.now.tables z.now
        × (Overwrites x.now z.now.call → ⊥) }
    ensures goes { result ≡ false → IsBlind home.now.tables z.now
        → IsNeedless home.now.tables x.now z.now.call }
{
    if !is_blind(home, z) {
        return false;
    }
    if overwrites(x, &z.call) {
        return false;
    }
    !is_idle(after, &z.call)
}

/// Whether such a call was asked from one time on and before another.
fn stays_within(home: &Home, after: &Home, z: &Observed, x: &Call, from: u64, to: u64) -> bool
    requires rows { after.now.tables ≡ (transaction x.now home.now.tables).database }
    requires accepted { arguments_accepted z.now.call ≡ Ok tt }
    ensures stays { IsTrue result → (from ≤ z.now.asked) × (z.now.asked < to)
        × IsBlind home.now.tables z.now × (Overwrites x.now z.now.call → ⊥) }
    ensures goes { result ≡ false → z.now.asked < to → IsBlind home.now.tables z.now
        → (z.now.asked < from) ⊎ IsNeedless home.now.tables x.now z.now.call }
{
    from <= z.asked && z.asked < to && stays(home, after, z, x)
}

/// The time before which calls may be left out once a call has taken effect, and resulted in the
/// home `after`: that at which the first was asked that might not be left out before, and isn't
/// needless.
pub(crate) fn overwritten_before(
    home: &Home,
    after: &Home,
    opened: &[Observed],
    x: &Call,
    before: u64,
) -> u64
    requires rows { after.now.tables ≡ (transaction x.now home.now.tables).database }
    requires accepted { AreAccepted opened.now }
    ensures still { before ≤ result }
    ensures others { AreOut home.now.tables x.now before result opened.now }
    ensures first { IsFirst home.now.tables x.now result opened.now }
{
    let mut first = u64::MAX;
    'calls: for i in 0..opened.len() {
        let z = &opened[i];
        if stays_within(home, after, z, x, before, first) {
            first = z.asked;
        }
    }
    first
}
