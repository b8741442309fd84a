//! Calls that take effect before one is answered.
ghost use Rattle.std.specs.Prelude.{ℕ, ◌⊎◌, IfOk, OnOk, IsErrOf, List, [], ◌∷◌, ◌<◌, length};
ghost use Rattle.tatp_history.specs.declared.event.Event.{Event as Happens};
ghost use Rattle.tatp_history.specs.declared.event.Event.TheVariants.{Ends};
ghost use Rattle.tatp_history.specs.Configurations.{Configuration as Seen};
ghost use Rattle.tatp_history.specs.Locality.{AreAccepted};
ghost use Rattle.tatp_linearization.specs.Possible.{AreMoreThan};
ghost use Rattle.tatp_linearization.specs.Ahead.{LooksAhead};
ghost use Rattle.tatp_linearization.specs.Held.{AreApart, AreReady};
ghost use Rattle.tatp_linearization.specs.Covering.{AreEachApart, AreOf, From, FromOne, Gains, IsApart, IsRepresentedOr, MayAnswer, MayCome, OneStandsFor, StandsFor};
ghost use Rattle.tatp_linearization.specs.Turns.{AreAllServed, AreAnswered, AreServed, AreTriedOut, IsTriedNext, Grow, IsKindAt, TakesTried, WentFrom, WentFromOne};

use crate::ahead::Ahead;
use crate::configuration::{Configuration, copy, none_asked};
use crate::covering::{add, add_uncovered, is_covered};
use crate::kinds::{Kind, is_tried, kind_of};
use crate::later::comes_later;
use crate::stopped::Stopped;
use crate::taking::take_ahead;
use std::alloc::{AllocError, Global};
use tatp_homes::what_holds_of_every_home;

/// Adds a configuration to those that were tried and to those of the next turn, unless one that was
/// tried stands for all for which it does.
fn add_untried(
    alloc: Global,
    d: Configuration,
    most: usize,
    tried: &mut Vec<Configuration>,
    going: &mut Vec<Configuration>,
) -> Result<(), Stopped>
    requires accepted { AreAccepted d.opened.items }
    ensures gained { OnOk result (Gains (StandsFor d) (StandsFor d)
        tried.old.items tried.new.items) }
    ensures goes { OnOk result (IsTriedNext d tried.old.items going.old.items going.new.items) }
    ensures ready { OnOk result (AreReady tried.old.items → AreReady tried.new.items) }
    ensures apart { OnOk result (AreApart d.home.s_id tried.old.items
        → AreApart d.home.s_id tried.new.items) }
    ensures many { IsErrOf result Stopped.MoreThanMost → AreApart d.home.s_id tried.old.items
        → AreMoreThan most (IsRepresentedOr tried.old.items (StandsFor d)) }
{
    if is_covered(tried.as_slice(), &d) {
        return Ok(());
    }
    add_uncovered(tried, copy(alloc, &d)?, most)?;
    going.push(d)?;
    Ok(())
}

/// The kind of the open call that was asked at a time.
fn kind_at(c: &Configuration, asked: u64) -> Option<Kind>
    ensures { IsKindAt asked c.now result }
{
    for i in 0..c.opened.len() {
        let x = &c.opened[i];
        if x.asked == asked {
            return Some(kind_of(&x.call));
        }
    }
    None
}

/// The configuration after its open call at the place `i` took effect, if it is of the kind, before
/// the end, now, of the one that was asked at the time `asked`. `None` means that it isn't, that it
/// can't take effect there, or that no order leads on.
fn take_tried(
    alloc: Global,
    c: &Configuration,
    i: usize,
    kind: Option<Kind>,
    asked: u64,
    ahead: &Ahead,
    now: u64,
) -> Result<Option<Configuration>, AllocError>
    requires inside { i < length c.now.opened.items }
    requires accepted { AreAccepted c.now.opened.items }
    ensures { IfOk result (TakesTried (LooksAhead ahead.now now) kind asked c.now i) }
{
    if !is_tried(kind, &c.opened[i].call) {
        return Ok(None);
    }
    what_holds_of_every_home(&c.home);
    if comes_later(c, i, asked, ahead, now) {
        return Ok(None);
    }
    take_ahead(alloc, c, i, ahead, now)
}

/// Tries one call at a time: an open one that writes, and is of the kind of the one answered, takes
/// effect. Calls of other kinds may do so later. The configuration after that is
/// added to `answered` where the call asked at the time `asked` isn't open, else to the next turn.
fn try_each(
    alloc: Global,
    c: &Configuration,
    asked: u64,
    ahead: &Ahead,
    now: u64,
    most: usize,
    answered: &mut Vec<Configuration>,
    tried: &mut Vec<Configuration>,
    going: &mut Vec<Configuration>,
) -> Result<(), Stopped>
    requires accepted { AreAccepted c.now.opened.items }
    ensures grown { OnOk result (Grow (From MayCome c.now) asked
        (record { answered = answered.old.items; tried = tried.old.items; going = going.old.items })
        (record {
          answered = answered.new.items;
          tried = tried.new.items;
          going = going.new.items;
        })) }
    ensures served { OnOk result (IsApart c.now → (at : ℕ) (rest : List Happens)
        → LooksAhead ahead.now now (Ends asked at ∷ rest)
        → AreServed asked at rest c.now answered.new.items tried.new.items) }
    ensures ready { OnOk result (AreReady answered.old.items → AreReady answered.new.items) }
    ensures left { OnOk result (AreReady tried.old.items → AreReady tried.new.items) }
    ensures apart { OnOk result (AreApart c.now.home.s_id answered.old.items
        → AreApart c.now.home.s_id answered.new.items) }
    ensures distinct { OnOk result (AreApart c.now.home.s_id tried.old.items
        → AreApart c.now.home.s_id tried.new.items) }
    ensures went { OnOk result (WentFrom c.now going.old.items going.new.items) }
    ensures many { IsErrOf result Stopped.MoreThanMost
        → AreApart c.now.home.s_id answered.old.items → AreApart c.now.home.s_id tried.old.items
        → AreMoreThan most (IsRepresentedOr answered.old.items (From MayCome c.now))
        ⊎ AreMoreThan most (IsRepresentedOr tried.old.items (From MayCome c.now)) }
{
    what_holds_of_every_home(&c.home);
    let kind = kind_at(c, asked);
    'calls: for i in 0..c.opened.len() {
        match take_tried(alloc, c, i, kind, asked, ahead, now)? {
            Some(d) => {
                if none_asked(&d, asked) {
                    add(answered, d, most)?;
                } else {
                    add_untried(alloc, d, most, tried, going)?;
                }
            }
            None => {}
        }
    }
    Ok(())
}

/// Does the same with each configuration of the set, and returns those of the next turn.
fn try_all(
    alloc: Global,
    set: &[Configuration],
    asked: u64,
    ahead: &Ahead,
    now: u64,
    most: usize,
    answered: &mut Vec<Configuration>,
    tried: &mut Vec<Configuration>,
) -> Result<Vec<Configuration>, Stopped>
    requires ready { AreReady set.now }
    ensures grown { IfOk result (λ going. Grow (FromOne MayCome set.now) asked
        (record { answered = answered.old.items; tried = tried.old.items; going = [] })
        (record {
          answered = answered.new.items;
          tried = tried.new.items;
          going = going.items;
        })) }
    ensures served { OnOk result (AreEachApart set.now → (at : ℕ) (rest : List Happens)
        → LooksAhead ahead.now now (Ends asked at ∷ rest)
        → AreAllServed asked at rest set.now answered.new.items tried.new.items) }
    ensures ready { OnOk result (AreReady answered.old.items → AreReady answered.new.items) }
    ensures left { OnOk result (AreReady tried.old.items → AreReady tried.new.items) }
    ensures apart { OnOk result ((s : ℕ) → AreApart s answered.old.items
        → AreOf s set.now → AreApart s answered.new.items) }
    ensures distinct { OnOk result ((s : ℕ) → AreApart s tried.old.items
        → AreOf s set.now → AreApart s tried.new.items) }
    ensures went { IfOk result (λ going. WentFromOne set.now going.items) }
    ensures many { IsErrOf result Stopped.MoreThanMost → (s : ℕ) → AreOf s set.now
        → AreApart s answered.old.items → AreApart s tried.old.items
        → AreMoreThan most (IsRepresentedOr answered.old.items (FromOne MayCome set.now))
        ⊎ AreMoreThan most (IsRepresentedOr tried.old.items (FromOne MayCome set.now)) }
{
    let mut going = Vec::new(alloc);
    'configurations: for i in 0..set.len() {
        try_each(
            alloc, &set[i], asked, ahead, now, most, answered, tried, &mut going,
        )?;
    }
    Ok(going)
}

/// Adds what the configuration can become once the call asked at the time `asked` has taken effect,
/// after other calls or none. In every turn one call more takes effect. What was tried before isn't
/// tried again.
pub(crate) fn take_effect(
    alloc: Global,
    c: &Configuration,
    asked: u64,
    ahead: &Ahead,
    now: u64,
    most: usize,
    answered: &mut Vec<Configuration>,
    tried: &mut Vec<Configuration>,
) -> Result<(), Stopped>
    requires accepted { AreAccepted c.now.opened.items }
    ensures kept { OnOk result ((d : Seen) → OneStandsFor answered.old.items d
        → OneStandsFor answered.new.items d) }
    ensures sound { OnOk result ((d : Seen) → OneStandsFor answered.new.items d
        → IsRepresentedOr answered.old.items (From (MayAnswer asked) c.now) d) }
    ensures answered { OnOk result (IsApart c.now → (at : ℕ) (rest : List Happens)
        → LooksAhead ahead.now now (Ends asked at ∷ rest)
        → AreTriedOut asked at rest answered.old.items tried.old.items
        → AreAnswered asked at rest c.now answered.new.items) }
    ensures done { OnOk result (IsApart c.now → (at : ℕ) (rest : List Happens)
        → LooksAhead ahead.now now (Ends asked at ∷ rest)
        → AreTriedOut asked at rest answered.old.items tried.old.items
        → AreTriedOut asked at rest answered.new.items tried.new.items) }
    ensures tried { OnOk result ((d : Seen) → OneStandsFor tried.new.items d
        → IsRepresentedOr tried.old.items (From MayCome c.now) d) }
    ensures ready { OnOk result (AreReady answered.old.items → AreReady answered.new.items) }
    ensures apart { OnOk result (AreApart c.now.home.s_id answered.old.items
        → AreApart c.now.home.s_id answered.new.items) }
    ensures distinct { OnOk result (AreApart c.now.home.s_id tried.old.items
        → AreApart c.now.home.s_id tried.new.items) }
    ensures many { IsErrOf result Stopped.MoreThanMost
        → AreApart c.now.home.s_id answered.old.items → AreApart c.now.home.s_id tried.old.items
        → AreMoreThan most (IsRepresentedOr answered.old.items (From MayCome c.now))
        ⊎ AreMoreThan most (IsRepresentedOr tried.old.items (From MayCome c.now)) }
{
    let mut going = Vec::new(alloc);
    try_each(
        alloc, c, asked, ahead, now, most, answered, tried, &mut going,
    )?;
    'turns: for i in 0..c.opened.len() {
        let next = try_all(
            alloc,
            going.as_slice(),
            asked,
            ahead,
            now,
            most,
            answered,
            tried,
        )?;
        going = next;
    }
    Ok(())
}
