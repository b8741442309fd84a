//! Configurations of the search.
ghost use Rattle.std.specs.Prelude.{◌≡◌, ◌<◌, ◌≤◌, ◌↔◌, IsTrue, IfOk, OnOk, IsErrOf, length, remove, Ok};
ghost use Rattle.tatp_calls.specs.Arguments.{arguments_accepted};
ghost use Rattle.tatp_history.specs.JustInTime.{NoneAskedAt};
ghost use Rattle.tatp_history.specs.Locality.{AreAccepted};
ghost use Rattle.tatp_linearization.specs.Overwritten.{SetsLocation, earlier as earlier_time};
ghost use Rattle.tatp_linearization.specs.Covering.{IsLetGo};
ghost use Rattle.tatp_linearization.specs.Possible.{AreMoreThan};
ghost use Rattle.tatp_linearization.specs.Held.{Adds, AreApart, AreReady, Has, IsAsked, IsOldOr, StandFirst, Takes, seen};

use crate::comparing::{are_asked_alike, are_same};
use crate::covering::may_be_left_out;
use crate::overwriting::overwritten_before;
use crate::reading::{needs_no_place, settle};
use crate::stopped::Stopped;
use std::alloc::{AllocError, Global};
use tatp_calls::{Call, Reply};
use tatp_evaluation::evaluate;
use tatp_history::Observed;
use tatp_homes::{Home, what_holds_of_every_home};

/// A home, and the open calls that have not taken effect, of which the last asked comes first.
#[derive(Drop)]
pub(crate) struct Configuration {
    pub(crate) home: Home,
    pub(crate) opened: Vec<Observed>,
    /// Open calls that were asked before this time, and set columns whatever these held, may have
    /// taken effect: another one overwrote them since.
    pub(crate) overwritten: u64,
}

/// Whether none of these calls was asked at this time.
fn none_of(opened: &[Observed], asked: u64) -> bool
    ensures { IsTrue result ↔ NoneAskedAt asked opened.now }
{
    for i in 0..opened.len() {
        if opened[i].asked == asked {
            return false;
        }
    }
    true
}

/// Whether none of the open calls was asked at this time.
pub(crate) fn none_asked(c: &Configuration, asked: u64) -> bool
    ensures { IsTrue result ↔ NoneAskedAt asked c.now.opened.items }
{
    none_of(c.opened.as_slice(), asked)
}

/// A copy of the configuration.
pub(crate) fn copy(alloc: Global, c: &Configuration) -> Result<Configuration, AllocError>
    ensures same { IfOk result (λ d. seen d ≡ seen c.now) }
    ensures own { IfOk result (λ d. d.home.s_id ≡ c.now.home.s_id) }
    ensures overwritten { IfOk result (λ d. d.overwritten ≡ c.now.overwritten) }
{
    Ok(Configuration {
        home: c.home.copy(),
        opened: Vec::from_slice(alloc, c.opened.as_slice())?,
        overwritten: c.overwritten,
    })
}

/// Whether two configurations have the same home and the same open calls.
fn is_same(c: &Configuration, d: &Configuration) -> bool
    ensures same { IsTrue result → seen c.now ≡ seen d.now }
    ensures other { c.now.home.s_id ≡ d.now.home.s_id → seen c.now ≡ seen d.now → IsTrue result }
{
    are_asked_alike(c.opened.as_slice(), d.opened.as_slice())
        && c.home == d.home
        && are_same(c.opened.as_slice(), d.opened.as_slice())
}

/// Whether the configuration is one of these.
fn is_among(set: &[Configuration], d: &Configuration) -> bool
    ensures there { IsTrue result → Has set.now (seen d.now) }
    ensures other { AreApart d.now.home.s_id set.now → Has set.now (seen d.now) → IsTrue result }
{
    for i in 0..set.len() {
        if is_same(&set[i], d) {
            return true;
        }
    }
    false
}

/// Adds a configuration, unless the set has it. `Err` means that the set would have more than
/// `most`, or that memory was refused.
pub(crate) fn add_once(
    set: &mut Vec<Configuration>,
    d: Configuration,
    most: usize,
) -> Result<(), Stopped>
    requires accepted { AreAccepted d.opened.items }
    ensures added { OnOk result (Adds set.old.items (λ e. e ≡ seen d) set.new.items) }
    ensures ready { OnOk result (AreReady set.old.items → AreReady set.new.items) }
    ensures apart { OnOk result (AreApart d.home.s_id set.old.items
        → AreApart d.home.s_id set.new.items) }
    ensures first { OnOk result (StandFirst set.old.items set.new.items) }
    ensures room { OnOk result (length set.old.items ≤ most → length set.new.items ≤ most) }
    ensures many { IsErrOf result Stopped.MoreThanMost → AreApart d.home.s_id set.old.items
        → AreMoreThan most (IsOldOr set.old.items (λ e. e ≡ seen d)) }
{
    if is_among(set.as_slice(), &d) {
        return Ok(());
    }
    if set.len() >= most {
        return Err(Stopped::MoreThanMost);
    }
    set.push(d)?;
    Ok(())
}

/// The earlier of two times.
fn earlier(time: u64, other: u64) -> u64
    ensures { result ≡ earlier_time time other }
{
    if time <= other { time } else { other }
}

/// The configuration after a call was asked.
pub(crate) fn ask(
    alloc: Global,
    c: &Configuration,
    x: &Observed,
) -> Result<Configuration, AllocError>
    requires accepted { arguments_accepted x.now.call ≡ Ok tt }
    ensures asked { IfOk result (IsAsked c.now x.now) }
    ensures overwritten { IfOk result (λ d. d.overwritten
        ≡ earlier_time c.now.overwritten x.now.asked) }
{
    let mut home = c.home.copy();
    let overwritten = earlier(c.overwritten, x.asked);
    if needs_no_place(&mut home, x) {
        let opened = Vec::from_slice(alloc, c.opened.as_slice())?;
        return Ok(Configuration {
            home,
            opened,
            overwritten,
        });
    }
    let mut opened = Vec::new(alloc);
    opened.push(*x)?;
    opened.extend_from_slice(c.opened.as_slice())?;
    Ok(Configuration {
        home,
        opened,
        overwritten,
    })
}

/// Whether a call sets the location of the home's subscriber.
pub(crate) fn updates_location(home: &Home, call: &Call) -> bool
    ensures { IsTrue result ↔ SetsLocation home.now.tables call.now }
{
    match call {
        Call::UpdateLocation { sub_nbr, .. } => home.has_number(*sub_nbr),
        _ => false,
    }
}

/// These calls without the one at a place.
fn others(alloc: Global, calls: &[Observed], place: usize) -> Result<Vec<Observed>, AllocError>
    requires inside { place < length calls.now }
    ensures { IfOk result (λ left. left.items ≡ remove calls.now place) }
{
    let mut left = Vec::with_capacity(alloc, calls.len())?;
    left.extend_from_slice(&calls[..place])?;
    left.extend_from_slice(&calls[place + 1..])?;
    Ok(left)
}

/// The configuration after its open call at the place `i` took effect. `None` means that this call
/// changes nothing, or that it can't have ended with the reply that it has there.
pub(crate) fn take(
    alloc: Global,
    c: &Configuration,
    i: usize,
) -> Result<Option<Configuration>, AllocError>
    requires inside { i < length c.now.opened.items }
    requires accepted { AreAccepted c.now.opened.items }
    ensures { IfOk result (Takes c.now i) }
{
    let x = &c.opened[i];
    if x.changes_nothing() {
        return Ok(None);
    }
    let mut home = c.home.copy();
    let mut reply = Reply::Refused;
    evaluate(&mut home, &x.call, &mut reply);
    if !x.outcome.allows(&reply) {
        return Ok(None);
    }
    let mut opened = others(alloc, c.opened.as_slice(), i)?;
    settle(&mut home, &mut opened);
    what_holds_of_every_home(&c.home);
    let overwritten = overwritten_before(&c.home, &home, opened.as_slice(), &x.call, c.overwritten);
    Ok(Some(Configuration {
        home,
        opened,
        overwritten,
    }))
}

/// The configuration without its open call asked at a time, if it also stands for that: the call
/// has taken effect then. `None` means that it doesn't.
pub(crate) fn let_go(
    alloc: Global,
    c: &Configuration,
    asked: u64,
) -> Result<Option<Configuration>, AllocError>
    ensures { IfOk result (IsLetGo asked c.now) }
{
    for i in 0..c.opened.len() {
        if c.opened[i].asked == asked {
            if !may_be_left_out(c, i) {
                return Ok(None);
            }
            let opened = others(alloc, c.opened.as_slice(), i)?;
            return Ok(Some(Configuration {
                home: c.home.copy(),
                opened,
                overwritten: c.overwritten,
            }));
        }
    }
    Ok(None)
}
