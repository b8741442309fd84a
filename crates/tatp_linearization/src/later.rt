//! Updates of the location that can't take effect before the end of a call: by that end the
//! subscriber has another location, and a read that is asked later saw theirs.
ghost use Rattle.std.specs.Prelude.{ℕ, ◌≡◌, ◌<◌, IsTrue, length};
ghost use Rattle.tatp_history.specs.declared.observed.Observed.{Observed as Asked};
ghost use Rattle.tatp_history.specs.Histories.{IsIn};
ghost use Rattle.tatp_linearization.specs.Later.{ComesLater, IsSeenLater, LeavesOther, NoOtherSets};

use crate::ahead::{Ahead, times_of};
use crate::configuration::Configuration;
use crate::locations::{has_set_location, location_seen, sets_location};
use tatp_calls::Call;
use tatp_history::Observed;

/// Whether the subscriber has another location than this right after the call took effect.
fn leaves_other(x: &Observed, location: u64) -> bool
    ensures { IsTrue result → LeavesOther location x.now }
{
    match location_seen(x) {
        Some(seen) => seen != location,
        None => has_set_location(x) && !sets_location(&x.call, location),
    }
}

/// Whether it has after the call that was asked at a time.
fn leaves_other_at(opened: &[Observed], asked: u64, location: u64) -> bool
    ensures { IsTrue result → (x : Asked) × IsIn x opened.now × (x.asked ≡ asked)
        × LeavesOther location x }
{
    for i in 0..opened.len() {
        let x = &opened[i];
        if x.asked == asked {
            return leaves_other(x, location);
        }
    }
    false
}

/// Whether none of the calls sets the location, but for the one at a place.
fn no_other_sets(opened: &[Observed], place: usize, location: u64) -> bool
    ensures { IsTrue result → NoOtherSets location place opened.now }
{
    for i in 0..opened.len() {
        if i != place && sets_location(&opened[i].call, location) {
            return false;
        }
    }
    true
}

/// Whether the location is seen by a read that is asked later in the window, in which no call that
/// is asked later sets it.
fn is_seen_later(ahead: &Ahead, location: u64, now: u64) -> bool
    ensures { IsTrue result → IsSeenLater ahead.now now location }
{
    let times = times_of(ahead, location);
    now < times.ended && times.set <= now && now < ahead.last
}

/// Whether the open call at a place can't take effect before the end, now, of the one that was
/// asked at a time.
pub(crate) fn comes_later(
    c: &Configuration,
    place: usize,
    asked: u64,
    ahead: &Ahead,
    now: u64,
) -> bool
    requires inside { place < length c.now.opened.items }
    ensures { IsTrue result → (location : ℕ)
        × ComesLater ahead.now now asked c.now place location }
{
    let x = &c.opened[place];
    match x.call {
        Call::UpdateLocation { vlr_location, .. } => {
            x.asked != asked
                && is_seen_later(ahead, vlr_location, now)
                && no_other_sets(c.opened.as_slice(), place, vlr_location)
                && leaves_other_at(c.opened.as_slice(), asked, vlr_location)
        }
        _ => false,
    }
}
