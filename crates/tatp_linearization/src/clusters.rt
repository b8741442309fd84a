//! Clusters: open updates of the location, each with the open reads that saw what it set. Where
//! no later read sees that, they take effect right before another update takes effect.
ghost use Rattle.std.specs.Prelude.{◌≡◌, ◌<◌, ◌⊎◌, ◌↔◌, IsTrue, IfSome, Ok, length};
ghost use Rattle.tatp_history.specs.declared.observed.Observed.{Observed as Asked};
ghost use Rattle.tatp_history.specs.Histories.{AreAskedApart};
ghost use Rattle.tatp_history.specs.Locality.{AreAccepted};
ghost use Rattle.tatp_linearization.specs.Clusters.{GoFirst, DropsCalls, GoesWith, IsUnread, LosesNone, ReadsOfLocationFit};

use crate::ahead::{Ahead, is_replaced_after, times_of};
use crate::locations::sees;
use crate::reading::fits_at_once;
use tatp_calls::{Call, Reply};
use tatp_evaluation::evaluate;
use tatp_history::{Observed, Outcome};
use tatp_homes::{Home, what_holds_of_every_home};

/// The location that an open call sets, if it is replaced, and no read sees it later.
fn unread_location(x: &Observed, ahead: &Ahead, now: u64) -> Option<u64>
    ensures { IfSome result (λ location. IsUnread ahead.now now x.now location) }
{
    match (&x.call, &x.outcome) {
        (Call::UpdateLocation { vlr_location, .. }, Outcome::Answered { at, .. }) => {
            if times_of(ahead, *vlr_location).read <= now
                && is_replaced_after(ahead, *vlr_location, *at)
            {
                Some(*vlr_location)
            } else {
                None
            }
        }
        _ => None,
    }
}

/// Whether the open reads that saw the location fit the home. It keeps its rows.
fn reads_of_location_fit(home: &mut Home, opened: &[Observed], location: u64) -> bool
    requires accepted { AreAccepted opened.now }
    ensures fit { IsTrue result → ReadsOfLocationFit location home.old.tables opened.now }
    ensures rows { home.new.tables ≡ home.old.tables }
    ensures own { home.new.s_id ≡ home.old.s_id }
{
    'calls: for i in 0..opened.len() {
        if sees(&opened[i], location) && !fits_at_once(home, &opened[i]) {
            return false;
        }
    }
    true
}

/// Drops the open update at a place, and the reads that saw the location, if all of them may take
/// effect now.
fn let_go_with(home: &mut Home, opened: &mut Vec<Observed>, place: usize, location: u64)
    requires inside { place < length opened.old.items }
    requires accepted { AreAccepted opened.old.items }
    ensures { ((home.new.tables ≡ home.old.tables) × (opened.new.items ≡ opened.old.items))
        ⊎ ((x : Asked) × GoesWith home.old.tables opened.old.items place location x
        home.new.tables opened.new.items) }
{
    let x = opened[place];
    let mut after = home.copy();
    let mut reply = Reply::Refused;
    evaluate(&mut after, &x.call, &mut reply);
    if !x.outcome.allows(&reply)
        || !reads_of_location_fit(&mut after, opened.as_slice(), location)
    {
        return;
    }
    opened.remove(place);
    opened.retain(|z| !sees(z, location));
    *home = after;
}

/// Drops the open call at a place, and the reads that saw what it set, if all may take effect now.
/// The call has to be an update that something overwrites and no read sees later.
fn let_go_at(home: &mut Home, opened: &mut Vec<Observed>, place: usize, ahead: &Ahead, now: u64)
    requires inside { place < length opened.old.items }
    requires accepted { AreAccepted opened.old.items }
    ensures gone { DropsCalls home.old.tables opened.old.items home.new.tables opened.new.items }
    ensures kept { AreAskedApart opened.old.items
        → LosesNone ahead.now now opened.old.items opened.new.items }
{
    what_holds_of_every_home(home);
    match unread_location(&opened[place], ahead, now) {
        Some(location) => let_go_with(home, opened, place, location),
        None => {}
    }
}

/// Drops clusters of the open calls that may take effect one after another from this home on,
/// before an update of the location that takes effect now.
pub(crate) fn let_clusters_go(before: &Home, opened: &mut Vec<Observed>, ahead: &Ahead, now: u64)
    requires accepted { AreAccepted opened.old.items }
    ensures gone { GoFirst before.now.tables opened.old.items opened.new.items }
    ensures kept { AreAskedApart opened.old.items
        → LosesNone ahead.now now opened.old.items opened.new.items }
{
    if ahead.last <= now {
        return;
    }
    let mut home = before.copy();
    let count = opened.len();
    'calls: for i in 0..count {
        let place = count - 1 - i;
        if place < opened.len() {
            let_go_at(&mut home, opened, place, ahead, now);
        }
    }
}
