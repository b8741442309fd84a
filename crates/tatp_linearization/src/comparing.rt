//! Calls that are equal, as clients saw them.
ghost use Rattle.std.specs.Prelude.{◌≡◌, ◌↔◌, IsTrue};

use tatp_history::{Observed, Outcome, Recorded};

fn is_same_record(x: &Recorded, y: &Recorded) -> bool
    ensures { IsTrue result ↔ (x.now ≡ y.now) }
{
    match (x, y) {
        (Recorded::Exactly(x), Recorded::Exactly(y)) => *x == *y,
        (Recorded::Success, Recorded::Success) => true,
        (Recorded::Failure, Recorded::Failure) => true,
        _ => false,
    }
}

fn is_same_outcome(x: &Outcome, y: &Outcome) -> bool
    ensures { IsTrue result ↔ (x.now ≡ y.now) }
{
    match (x, y) {
        (
            Outcome::Answered { at, recorded },
            Outcome::Answered {
                at: other,
                recorded: others,
            },
        ) => *at == *other && is_same_record(recorded, others),
        (Outcome::Aborted { at }, Outcome::Aborted { at: other }) => *at == *other,
        (Outcome::Unknown, Outcome::Unknown) => true,
        _ => false,
    }
}

pub(crate) fn is_same_call(x: &Observed, y: &Observed) -> bool
    ensures { IsTrue result ↔ (x.now ≡ y.now) }
{
    x.asked == y.asked && x.call == y.call && is_same_outcome(&x.outcome, &y.outcome)
}

/// Whether these were asked at the same times, one after another. That tells most lists of calls
/// apart, and is quick.
pub(crate) fn are_asked_alike(xs: &[Observed], ys: &[Observed]) -> bool
    ensures { xs.now ≡ ys.now → IsTrue result }
{
    if xs.len() != ys.len() {
        return false;
    }
    for i in 0..xs.len() {
        if xs[i].asked != ys[i].asked {
            return false;
        }
    }
    true
}

/// Whether these are the same calls, in the same order.
pub(crate) fn are_same(xs: &[Observed], ys: &[Observed]) -> bool
    ensures { IsTrue result ↔ (xs.now ≡ ys.now) }
{
    if xs.len() != ys.len() {
        return false;
    }
    for i in 0..xs.len() {
        if !is_same_call(&xs[i], &ys[i]) {
            return false;
        }
    }
    true
}
