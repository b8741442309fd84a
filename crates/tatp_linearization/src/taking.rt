//! One open call takes effect, with what is known of the events that come.
ghost use Rattle.std.specs.Prelude.{◌≡◌, ◌<◌, ◌↔◌, IsTrue, IfOk, Some, length, slice_get};
ghost use Rattle.tatp_history.specs.declared.observed.Observed.{Observed as Asked};
ghost use Rattle.tatp_history.specs.Locality.{AreAccepted};
ghost use Rattle.tatp_linearization.specs.Ahead.{LooksAhead};
ghost use Rattle.tatp_linearization.specs.Held.{Takes};
ghost use Rattle.tatp_linearization.specs.Turns.{TakesAhead, TakesOn};

use crate::ahead::Ahead;
use crate::clusters::let_clusters_go;
use crate::configuration::{Configuration, take, updates_location};
use crate::lost::loses_location;
use std::alloc::{AllocError, Global};
use tatp_homes::what_holds_of_every_home;

/// The configuration that an open call made of one, without the clusters that may go then.
fn with_clusters_gone(
    c: &Configuration,
    i: usize,
    d: Configuration,
    ahead: &Ahead,
    now: u64,
) -> Configuration
    requires inside { i < length c.now.opened.items }
    requires accepted { AreAccepted c.now.opened.items }
    requires taken { Takes c.now i (Some d) }
    ensures { TakesOn (LooksAhead ahead.now now) c.now i result }
{
    if !updates_location(&c.home, &c.opened[i].call) {
        return d;
    }
    let Configuration {
        home,
        mut opened,
        overwritten,
    } = d;
    let_clusters_go(&c.home, &mut opened, ahead, now);
    Configuration {
        home,
        opened,
        overwritten,
    }
}

/// The configuration after its open call at the place `i` took effect, at the time of the event
/// that is followed. `None` means that the call can't take effect there, or that no order leads on.
pub(crate) fn take_ahead(
    alloc: Global,
    c: &Configuration,
    i: usize,
    ahead: &Ahead,
    now: u64,
) -> Result<Option<Configuration>, AllocError>
    requires inside { i < length c.now.opened.items }
    requires accepted { AreAccepted c.now.opened.items }
    ensures { IfOk result (TakesAhead (LooksAhead ahead.now now) c.now i) }
{
    what_holds_of_every_home(&c.home);
    if loses_location(c, i, ahead, now) {
        return Ok(None);
    }
    match take(alloc, c, i)? {
        Some(d) => Ok(Some(with_clusters_gone(c, i, d, ahead, now))),
        None => Ok(None),
    }
}
