//! Configurations that stand for others: open calls that were overwritten may be left out.
ghost use Rattle.std.specs.Prelude.{◌≡◌, ℕ, ◌≤◌, ◌<◌, ◌↔◌, IsTrue, OnOk, IsErrOf, Some, false, length, slice_get};
ghost use Rattle.tatp_history.specs.declared.observed.Observed.{Observed as Asked};
ghost use Rattle.tatp_history.specs.Locality.{AreAccepted};
ghost use Rattle.tatp_linearization.specs.declared.configuration.Configuration.{Configuration as Held};
ghost use Rattle.tatp_linearization.specs.Overwritten.{IsBlind};
ghost use Rattle.tatp_linearization.specs.Possible.{AreMoreThan};
ghost use Rattle.tatp_linearization.specs.Held.{AreApart, AreReady, seen};
ghost use Rattle.tatp_linearization.specs.Covering.{AreCovered, AreOther, Covers, Gains, IsKept, IsOther, IsRepresentedOr, StandsFor, own_location};

use crate::comparing::is_same_call;
use crate::configuration::Configuration;
use crate::locations::VLR_LOCATION;
use crate::overwriting::is_blind;
use crate::stopped::Stopped;

/// Whether the configuration also stands for those without its open call at the place `i`: what it
/// sets was overwritten after it was asked.
pub(crate) fn may_be_left_out(c: &Configuration, i: usize) -> bool
    requires inside { i < length c.now.opened.items }
    ensures { IsTrue result ↔ ((x : Asked) → slice_get c.now.opened.items i ≡ Some x
        → (x.asked < c.now.overwritten) × IsBlind c.now.home.tables x) }
{
    c.opened[i].asked < c.overwritten && is_blind(&c.home, &c.opened[i])
}

/// Whether the open calls at two places are the same, and what may be left out at the second may be
/// left out at the first.
fn is_kept(c: &Configuration, i: usize, d: &Configuration, j: usize) -> bool
    requires inside { i < length c.now.opened.items }
    ensures kept { IsTrue result → IsKept c.now i d.now j }
    ensures same { c.now.opened.items ≡ d.now.opened.items → d.now.overwritten ≤ c.now.overwritten
        → i ≡ j → IsTrue result }
{
    j < d.opened.len()
        && is_same_call(&c.opened[i], &d.opened[j])
        && (c.opened[i].asked >= d.overwritten
            || c.opened[i].asked < c.overwritten
            || !is_blind(&c.home, &c.opened[i]))
}

/// Whether the open calls of the second configuration may be those of the first without some that
/// may be left out, by the times at which they were asked. That tells most configurations apart,
/// and is quick.
fn is_asked_within(c: &Configuration, d: &Configuration) -> bool
    ensures { c.now.opened.items ≡ d.now.opened.items → IsTrue result }
{
    let mut j = 0;
    'calls: for i in 0..c.opened.len() {
        if j < d.opened.len() && c.opened[i].asked == d.opened[j].asked {
            j += 1;
        } else if c.opened[i].asked >= c.overwritten {
            return false;
        }
    }
    j == d.opened.len()
}

/// Whether the open calls of the second configuration are those of the first without some that may
/// be left out, and so is each choice of those without which the second may be.
fn is_opened_within(c: &Configuration, d: &Configuration) -> bool
    ensures covers { IsTrue result → c.now.home.tables ≡ d.now.home.tables → Covers c.now d.now }
    ensures same { c.now.opened.items ≡ d.now.opened.items → d.now.overwritten ≤ c.now.overwritten
        → IsTrue result }
{
    let mut j = 0;
    'calls: for i in 0..c.opened.len() {
        if is_kept(c, i, d, j) {
            j += 1;
        } else if !may_be_left_out(c, i) {
            return false;
        }
    }
    j == d.opened.len()
}

/// The location of the configuration's subscriber.
fn location_of(c: &Configuration) -> Option<u64>
    ensures { result ≡ own_location c.now }
{
    c.home.get(VLR_LOCATION, [c.home.s_id(), 0, 0])
}

/// Whether the first configuration may stand for what the second does, by how many calls are open
/// and the locations of both alone. That tells most configurations apart, without a look at any
/// call.
fn is_near(c: &Configuration, here: Option<u64>, d: &Configuration, there: Option<u64>) -> bool
    ensures { seen c.now ≡ seen d.now → here ≡ there → IsTrue result }
{
    d.opened.len() <= c.opened.len() && here == there
}

/// Whether the first configuration, which has the location `here`, stands for each one for which
/// the second does, which has the location `there`.
fn covers(c: &Configuration, here: Option<u64>, d: &Configuration, there: Option<u64>) -> bool
    ensures covers { IsTrue result → Covers c.now d.now }
    ensures other { here ≡ own_location c.now → there ≡ own_location d.now → result ≡ false
        → IsOther c.now d.now }
{
    is_near(c, here, d, there)
        && is_asked_within(c, d)
        && c.home == d.home
        && is_opened_within(c, d)
}

/// Whether one of these covers `d`: it stands for each configuration for which `d` does.
pub(crate) fn is_covered(set: &[Configuration], d: &Configuration) -> bool
    ensures covered { IsTrue result → AreCovered set.now d.now }
    ensures other { (i : ℕ) (c : Held) → slice_get set.now i ≡ Some c
        → c.home.s_id ≡ d.now.home.s_id → seen c ≡ seen d.now
        → d.now.overwritten ≤ c.overwritten → IsTrue result }
{
    let location = location_of(d);
    for i in 0..set.len() {
        let c = &set[i];
        if covers(c, location_of(c), d, location) {
            return true;
        }
    }
    false
}

/// Adds a configuration that none of the set covers, and takes those out for all of which it
/// stands. `Err` means that the set would have more than `most`, or that memory was refused.
pub(crate) fn add_uncovered(
    set: &mut Vec<Configuration>,
    d: Configuration,
    most: usize,
) -> Result<(), Stopped>
    requires accepted { AreAccepted d.opened.items }
    requires other { AreOther set.old.items d }
    ensures gained { OnOk result (Gains (StandsFor d) (StandsFor d) set.old.items set.new.items) }
    ensures ready { OnOk result (AreReady set.old.items → AreReady set.new.items) }
    ensures apart { OnOk result (AreApart d.home.s_id set.old.items
        → AreApart d.home.s_id set.new.items) }
    ensures many { IsErrOf result Stopped.MoreThanMost → AreApart d.home.s_id set.old.items
        → AreMoreThan most (IsRepresentedOr set.old.items (StandsFor d)) }
{
    let location = location_of(&d);
    set.retain(|c| !covers(&d, location, c, location_of(c)));
    if set.len() >= most {
        return Err(Stopped::MoreThanMost);
    }
    set.push(d)?;
    Ok(())
}

/// Adds a configuration in the same way, unless one of the set covers it.
pub(crate) fn add(
    set: &mut Vec<Configuration>,
    d: Configuration,
    most: usize,
) -> Result<(), Stopped>
    requires accepted { AreAccepted d.opened.items }
    ensures gained { OnOk result (Gains (StandsFor d) (StandsFor d) set.old.items set.new.items) }
    ensures ready { OnOk result (AreReady set.old.items → AreReady set.new.items) }
    ensures apart { OnOk result (AreApart d.home.s_id set.old.items
        → AreApart d.home.s_id set.new.items) }
    ensures many { IsErrOf result Stopped.MoreThanMost → AreApart d.home.s_id set.old.items
        → AreMoreThan most (IsRepresentedOr set.old.items (StandsFor d)) }
{
    if is_covered(set.as_slice(), &d) {
        return Ok(());
    }
    add_uncovered(set, d, most)
}
