//! Configurations that may follow on others at an event.
ghost use Rattle.std.specs.Prelude.{◌≡◌, ◌↔◌, ◌⊎◌, ℕ, IsTrue, IfOk, OnOk, IsErrOf, List, ◌∷◌};
ghost use Rattle.tatp_history.specs.declared.event.Event.{Event as Happens};
ghost use Rattle.tatp_history.specs.declared.event.Event.TheVariants.{Ends};
ghost use Rattle.tatp_history.specs.Configurations.{Configuration as Seen};
ghost use Rattle.tatp_history.specs.Locality.{AreAccepted};
ghost use Rattle.tatp_linearization.specs.declared.ahead.Ahead.{Ahead as Foresight};
ghost use Rattle.tatp_linearization.specs.AtOnce.{FollowsAtOnce};
ghost use Rattle.tatp_linearization.specs.Ahead.{IsSeenAhead, LooksAhead};
ghost use Rattle.tatp_linearization.specs.Possible.{AreMoreThan};
ghost use Rattle.tatp_linearization.specs.Held.{AreApart, AreReady, IsAcceptedEvent, seen};
ghost use Rattle.tatp_linearization.specs.Covering.{From, FromOne, GainsGone, IsApart, IsLater, IsRepresentedOr, MayAnswer, MayBeTried, MayCome, MayFollow, OneStandsFor, Opens, StandsFor};
ghost use Rattle.tatp_linearization.specs.Turns.{AreFollowed, AreTriedOut, AreTriedOutAt, FollowSet};

use crate::ahead::Ahead;
use crate::configuration::{Configuration, ask, copy, let_go, none_asked};
use crate::covering::add;
use crate::effects::take_effect;
use crate::reading::needs_no_place;
use crate::stopped::Stopped;
use std::alloc::Global;
use tatp_history::Event;

/// Whether an event leaves a configuration as it is: a call is asked that needn't be open, or a
/// call ends that isn't open.
fn leaves(c: &Configuration, event: &Event) -> bool
    requires accepted { IsAcceptedEvent event.now }
    ensures { IsTrue result → (d : Seen) → StandsFor c.now d
        → (e : Seen) → (e ≡ d) ↔ FollowsAtOnce event.now d e }
{
    match event {
        Event::Asks(x) => {
            let mut home = c.home.copy();
            needs_no_place(&mut home, x)
        }
        Event::Ends { asked, .. } => none_asked(c, *asked),
    }
}

/// Whether an event leaves all of these as they are.
pub(crate) fn leaves_all(set: &[Configuration], event: &Event) -> bool
    requires accepted { IsAcceptedEvent event.now }
    ensures { IsTrue result → (ahead : Foresight)
        → FollowSet (IsSeenAhead ahead) event.now set.now set.now }
{
    for i in 0..set.len() {
        if !leaves(&set[i], event) {
            return false;
        }
    }
    true
}

/// Adds the configuration without a call that ends, where the call was overwritten: it has taken
/// effect before that.
fn add_gone(
    alloc: Global,
    c: &Configuration,
    asked: u64,
    most: usize,
    after: &mut Vec<Configuration>,
) -> Result<(), Stopped>
    requires ready { AreAccepted c.now.opened.items }
    requires open { Opens asked (seen c.now) }
    ensures gained { OnOk result (GainsGone asked c.now after.old.items after.new.items) }
    ensures ready { OnOk result (AreReady after.old.items → AreReady after.new.items) }
    ensures apart { OnOk result (AreApart c.now.home.s_id after.old.items
        → AreApart c.now.home.s_id after.new.items) }
    ensures many { IsErrOf result Stopped.MoreThanMost → AreApart c.now.home.s_id after.old.items
        → AreMoreThan most (IsRepresentedOr after.old.items (From MayCome c.now)) }
{
    match let_go(alloc, c, asked)? {
        Some(d) => {
            if none_asked(&d, asked) {
                add(after, d, most)?;
            }
            Ok(())
        }
        None => Ok(()),
    }
}

/// Adds the configurations that may follow on one where an open call ends, at a time.
fn end(
    alloc: Global,
    c: &Configuration,
    asked: u64,
    ahead: &Ahead,
    now: u64,
    most: usize,
    after: &mut Vec<Configuration>,
    tried: &mut Vec<Configuration>,
) -> Result<(), Stopped>
    requires ready { AreAccepted c.now.opened.items }
    requires open { Opens asked (seen c.now) }
    ensures kept { OnOk result ((d : Seen) → OneStandsFor after.old.items d
        → OneStandsFor after.new.items d) }
    ensures sound { OnOk result ((d : Seen) → OneStandsFor after.new.items d
        → IsRepresentedOr after.old.items (From (MayAnswer asked) c.now) d) }
    ensures followed { OnOk result (IsApart c.now → (at : ℕ) (rest : List Happens)
        → LooksAhead ahead.now now (Ends asked at ∷ rest)
        → AreTriedOut asked at rest after.old.items tried.old.items
        → AreFollowed (Ends asked at) rest c.now after.new.items) }
    ensures done { OnOk result (IsApart c.now → (at : ℕ) (rest : List Happens)
        → LooksAhead ahead.now now (Ends asked at ∷ rest)
        → AreTriedOut asked at rest after.old.items tried.old.items
        → AreTriedOut asked at rest after.new.items tried.new.items) }
    ensures tried { OnOk result ((d : Seen) → OneStandsFor tried.new.items d
        → IsRepresentedOr tried.old.items (From MayCome c.now) d) }
    ensures ready { OnOk result (AreReady after.old.items → AreReady after.new.items) }
    ensures apart { OnOk result (AreApart c.now.home.s_id after.old.items
        → AreApart c.now.home.s_id after.new.items) }
    ensures distinct { OnOk result (AreApart c.now.home.s_id tried.old.items
        → AreApart c.now.home.s_id tried.new.items) }
    ensures many { IsErrOf result Stopped.MoreThanMost → AreApart c.now.home.s_id after.old.items
        → AreApart c.now.home.s_id tried.old.items
        → AreMoreThan most (IsRepresentedOr after.old.items (From MayCome c.now))
        ⊎ AreMoreThan most (IsRepresentedOr tried.old.items (From MayCome c.now)) }
{
    add_gone(alloc, c, asked, most, after)?;
    take_effect(alloc, c, asked, ahead, now, most, after, tried)?;
    Ok(())
}

/// Adds the configurations that may follow on one at an event.
fn follow(
    alloc: Global,
    c: &Configuration,
    event: &Event,
    ahead: &Ahead,
    most: usize,
    after: &mut Vec<Configuration>,
    tried: &mut Vec<Configuration>,
) -> Result<(), Stopped>
    requires ready { AreAccepted c.now.opened.items }
    requires accepted { IsAcceptedEvent event.now }
    ensures kept { OnOk result ((d : Seen) → OneStandsFor after.old.items d
        → OneStandsFor after.new.items d) }
    ensures sound { OnOk result ((d : Seen) → OneStandsFor after.new.items d
        → IsRepresentedOr after.old.items (From (MayFollow event.now) c.now) d) }
    ensures followed { OnOk result (IsApart c.now → IsLater event.now c.now
        → (rest : List Happens) → IsSeenAhead ahead.now (event.now ∷ rest)
        → AreTriedOutAt event.now rest after.old.items tried.old.items
        → AreFollowed event.now rest c.now after.new.items) }
    ensures done { OnOk result (IsApart c.now → (rest : List Happens)
        → IsSeenAhead ahead.now (event.now ∷ rest)
        → AreTriedOutAt event.now rest after.old.items tried.old.items
        → AreTriedOutAt event.now rest after.new.items tried.new.items) }
    ensures tried { OnOk result ((d : Seen) → OneStandsFor tried.new.items d
        → IsRepresentedOr tried.old.items (From (MayBeTried event.now) c.now) d) }
    ensures ready { OnOk result (AreReady after.old.items → AreReady after.new.items) }
    ensures apart { OnOk result (AreApart c.now.home.s_id after.old.items
        → AreApart c.now.home.s_id after.new.items) }
    ensures distinct { OnOk result (AreApart c.now.home.s_id tried.old.items
        → AreApart c.now.home.s_id tried.new.items) }
    ensures many { IsErrOf result Stopped.MoreThanMost → AreApart c.now.home.s_id after.old.items
        → AreApart c.now.home.s_id tried.old.items
        → AreMoreThan most (IsRepresentedOr after.old.items (From (MayBeTried event.now) c.now))
        ⊎ AreMoreThan most (IsRepresentedOr tried.old.items (From (MayBeTried event.now) c.now)) }
{
    match event {
        Event::Asks(x) => {
            add(after, ask(alloc, c, x)?, most)?;
            Ok(())
        }
        Event::Ends { asked, at } => {
            if none_asked(c, *asked) {
                add(after, copy(alloc, c)?, most)?;
            } else {
                end(alloc, c, *asked, ahead, *at, most, after, tried)?;
            }
            Ok(())
        }
    }
}

/// The configurations that may follow on any of these at an event.
pub(crate) fn after_event(
    alloc: Global,
    set: &[Configuration],
    event: &Event,
    ahead: &Ahead,
    most: usize,
) -> Result<Vec<Configuration>, Stopped>
    requires ready { AreReady set.now }
    requires accepted { IsAcceptedEvent event.now }
    ensures followed { IfOk result (λ after.
        FollowSet (IsSeenAhead ahead.now) event.now set.now after.items) }
    ensures ready { IfOk result (λ after. AreReady after.items) }
    ensures apart { IfOk result (λ after. (s : ℕ) → AreApart s set.now
        → AreApart s after.items) }
    ensures many { IsErrOf result Stopped.MoreThanMost → (s : ℕ) → AreApart s set.now
        → AreMoreThan most (FromOne (MayBeTried event.now) set.now) }
{
    let mut after = Vec::new(alloc);
    let mut tried = Vec::new(alloc);
    'configurations: for i in 0..set.len() {
        follow(alloc, &set[i], event, ahead, most, &mut after, &mut tried)?;
    }
    Ok(after)
}
