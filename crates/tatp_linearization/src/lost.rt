//! Locations that are lost: no open or later call of the window sets them, and a read that still
//! has to take effect saw them.
ghost use Rattle.std.specs.Prelude.{ℕ, ◌<◌, ◌⊎◌, IsTrue, length};
ghost use Rattle.tatp_history.specs.declared.observed.Observed.{Observed as Asked};
ghost use Rattle.tatp_history.specs.Histories.{IsIn};
ghost use Rattle.tatp_linearization.specs.Doomed.{SawLocation};
ghost use Rattle.tatp_linearization.specs.Ahead.{IsAnsweredBy, Loses, times_in};

use crate::ahead::{Ahead, is_answered_by, times_of};
use crate::configuration::{Configuration, updates_location};
use crate::doomed::none_sets;
use crate::locations::{VLR_LOCATION, sees};
use tatp_history::Observed;

/// Whether a call is a read that saw the location, and ends in the window.
fn is_ended_read(x: &Observed, location: u64, ahead: &Ahead) -> bool
    ensures { IsTrue result → SawLocation location x.now
        × IsAnsweredBy ahead.now.last x.now.outcome }
{
    sees(x, location) && is_answered_by(&x.outcome, ahead.last)
}

/// Whether one of these calls is such a read.
fn is_open_read(opened: &[Observed], location: u64, ahead: &Ahead) -> bool
    ensures { IsTrue result → (x : Asked) × IsIn x opened.now × SawLocation location x
        × IsAnsweredBy ahead.now.last x.outcome }
{
    for i in 0..opened.len() {
        if is_ended_read(&opened[i], location, ahead) {
            return true;
        }
    }
    false
}

/// Whether a read that is open, or is asked later in the window, saw the location, and ends there.
fn is_read_yet(opened: &[Observed], location: u64, ahead: &Ahead, now: u64) -> bool
    ensures { IsTrue result → (now < (times_in ahead.now location).ended)
        ⊎ ((x : Asked) × IsIn x opened.now × SawLocation location x
        × IsAnsweredBy ahead.now.last x.outcome) }
{
    now < times_of(ahead, location).ended || is_open_read(opened, location, ahead)
}

/// Whether the location that is there is lost once the open call at a place took effect.
pub(crate) fn loses_location(c: &Configuration, place: usize, ahead: &Ahead, now: u64) -> bool
    requires inside { place < length c.now.opened.items }
    ensures { IsTrue result → (location : ℕ) × Loses ahead.now now c.now place location }
{
    if ahead.last <= now || !updates_location(&c.home, &c.opened[place].call) {
        return false;
    }
    match c.home.get(VLR_LOCATION, [c.home.s_id(), 0, 0]) {
        Some(location) => {
            times_of(ahead, location).set <= now
                && none_sets(c.opened.as_slice(), location)
                && is_read_yet(c.opened.as_slice(), location, ahead, now)
        }
        None => false,
    }
}
