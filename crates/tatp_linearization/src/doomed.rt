//! Configurations from which no order explains the rest of a window.
ghost use Rattle.std.specs.Prelude.{◌≡◌, ℕ, ◌⊎◌, ◌<◌, IsTrue, false, drop, length};
ghost use Rattle.tatp_history.specs.Configurations.{Configuration as Seen};
ghost use Rattle.tatp_linearization.specs.Held.{AreApart, AreReady, seen};
ghost use Rattle.tatp_linearization.specs.Covering.{OneStandsFor};
ghost use Rattle.tatp_linearization.specs.Doomed.{IsDoomed, NoneHasLocation, NoneSets, NoneSetsUntil};

use crate::configuration::Configuration;
use crate::locations::{VLR_LOCATION, location_seen, sets_location};
use tatp_history::{Event, Observed};
use tatp_homes::{Home, what_holds_of_every_home};

/// Where at most this many configurations are kept, following each costs less than testing it.
const FEW: usize = 4;

/// Whether the subscriber has this location.
pub(crate) fn has_location(home: &Home, location: u64) -> bool
    ensures { result ≡ false → NoneHasLocation location home.now.tables }
{
    what_holds_of_every_home(home);
    home.get(VLR_LOCATION, [home.s_id(), 0, 0]) == Some(location)
}

/// Whether none of these calls sets the location.
pub(crate) fn none_sets(opened: &[Observed], location: u64) -> bool
    ensures { IsTrue result → NoneSets location opened.now }
{
    for i in 0..opened.len() {
        if sets_location(&opened[i].call, location) {
            return false;
        }
    }
    true
}

/// Whether no call that sets the location is asked, from a place in the events on, before the call
/// asked at the time `asked` ends.
fn none_sets_until(events: &[Event], from: usize, location: u64, asked: u64) -> bool
    ensures { IsTrue result → NoneSetsUntil location asked (drop from events.now) }
{
    for i in from..events.len() {
        match &events[i] {
            Event::Asks(x) => {
                if sets_location(&x.call, location) {
                    return false;
                }
            }
            Event::Ends { asked: other, .. } => {
                if *other == asked {
                    return true;
                }
            }
        }
    }
    false
}

/// Whether an open call of the configuration is a read that can't be answered as it was.
fn is_stuck(c: &Configuration, place: usize, events: &[Event], from: usize) -> bool
    requires inside { place < length c.now.opened.items }
    ensures { IsTrue result → IsDoomed (drop from events.now) (seen c.now) }
{
    let x = &c.opened[place];
    match location_seen(x) {
        Some(location) => {
            if has_location(&c.home, location) || !none_sets(c.opened.as_slice(), location) {
                return false;
            }
            none_sets_until(events, from, location, x.asked)
        }
        None => false,
    }
}

/// Whether no order explains the events from a place on, from the configuration on.
fn is_doomed(c: &Configuration, events: &[Event], from: usize) -> bool
    ensures { IsTrue result → IsDoomed (drop from events.now) (seen c.now) }
{
    for i in 0..c.opened.len() {
        if is_stuck(c, i, events, from) {
            return true;
        }
    }
    false
}

/// Drops configurations from which no order explains the events from a place on, where many are
/// kept, and the event that was followed is an end: calls took effect there.
pub(crate) fn drop_doomed(
    set: &mut Vec<Configuration>,
    event: &Event,
    events: &[Event],
    from: usize,
)
    ensures kept { (d : Seen) → OneStandsFor set.new.items d → OneStandsFor set.old.items d }
    ensures found { (d : Seen) → OneStandsFor set.old.items d
        → OneStandsFor set.new.items d ⊎ IsDoomed (drop from events.now) d }
    ensures ready { AreReady set.old.items → AreReady set.new.items }
    ensures apart { (s : ℕ) → AreApart s set.old.items → AreApart s set.new.items }
{
    if matches!(event, Event::Asks(_)) {
        return;
    }
    if set.len() > FEW {
        set.retain(|c| !is_doomed(c, events, from));
    }
}
