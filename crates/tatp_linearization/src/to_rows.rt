//! Whether calls result in given rows.
ghost use Rattle.std.specs.Prelude.{◌≡◌, ◌≤◌, ℕ, true, IsTrue, IfOk, OnOk, IsErrOf, Ok, List, [], length};
ghost use Rattle.std.specs.List.{AllByRecursion};
ghost use Rattle.tatp_tables.specs.Database.{Database};
ghost use Rattle.tatp_history.specs.declared.event.Event.{Event};
ghost use Rattle.tatp_history.specs.Histories.{IsStrictlySerializableTo};
ghost use Rattle.tatp_history.specs.Events.{TimesRise, HaveEnds, asked_in};
ghost use Rattle.tatp_history.specs.Configurations.{Configuration as Seen};
ghost use Rattle.tatp_history.specs.Locality.{AreAccepted};
ghost use Rattle.tatp_linearization.specs.declared.configuration.Configuration.{Configuration as Held};
ghost use Rattle.tatp_linearization.specs.AtOnce.{TakesOne};
ghost use Rattle.tatp_linearization.specs.Possible.{AreMoreThan, NeedMore};
ghost use Rattle.tatp_linearization.specs.Held.{AreApart, AreReady, TakeSome};
ghost use Rattle.tatp_linearization.specs.Covering.{From, FromOne, Gains, IsRepresentedOr, MayCome, OneStandsFor};
ghost use Rattle.tatp_linearization.specs.Reached.{AreOfSubscriber, AreReached};

use crate::configuration::{Configuration, take};
use crate::covering::add;
use crate::explanations::{Explanations, Standing};
use crate::stopped::Stopped;
use std::alloc::{AllocError, Global};
use tatp_homes::Home;

/// Adds what a configuration can become when one of its open calls that write takes effect.
fn add_taken(
    alloc: Global,
    c: &Configuration,
    most: usize,
    after: &mut Vec<Configuration>,
) -> Result<(), Stopped>
    requires accepted { AreAccepted c.now.opened.items }
    ensures gained { OnOk result (Gains (From MayCome c.now) (From TakesOne c.now)
        after.old.items after.new.items) }
    ensures ready { OnOk result (AreReady after.old.items → AreReady after.new.items) }
    ensures apart { OnOk result (AreApart c.now.home.s_id after.old.items
        → AreApart c.now.home.s_id after.new.items) }
    ensures many { IsErrOf result Stopped.MoreThanMost → AreApart c.now.home.s_id after.old.items
        → AreMoreThan most (IsRepresentedOr after.old.items (From MayCome c.now)) }
{
    'calls: for i in 0..c.opened.len() {
        match take(alloc, c, i)? {
            Some(d) => add(after, d, most)?,
            None => {}
        }
    }
    Ok(())
}

/// What any of these can become when one of its open calls that write takes effect.
fn after_one(
    alloc: Global,
    set: &[Configuration],
    most: usize,
) -> Result<Vec<Configuration>, Stopped>
    requires ready { AreReady set.now }
    ensures gained { IfOk result (λ after. Gains (FromOne MayCome set.now)
        (FromOne TakesOne set.now) [] after.items) }
    ensures ready { IfOk result (λ after. AreReady after.items) }
    ensures apart { IfOk result (λ after. (s : ℕ) → AreApart s set.now
        → AreApart s after.items) }
    ensures many { IsErrOf result Stopped.MoreThanMost → (s : ℕ) → AreApart s set.now
        → AreMoreThan most (FromOne MayCome set.now) }
{
    let mut after = Vec::new(alloc);
    'configurations: for i in 0..set.len() {
        add_taken(alloc, &set[i], most, &mut after)?;
    }
    Ok(after)
}

/// Whether one of these has the rows.
fn have_rows(set: &[Configuration], rows: &Home) -> bool
    ensures there { IsTrue result
        → (d : Seen) × OneStandsFor set.now d × (d.rows ≡ rows.now.tables) }
    ensures other { AreApart rows.now.s_id set.now → (d : Seen) → OneStandsFor set.now d
        → d.rows ≡ rows.now.tables → IsTrue result }
{
    for i in 0..set.len() {
        if set[i].home == *rows {
            return true;
        }
    }
    false
}

/// How many calls are open at most in any of these.
fn most_open(set: &[Configuration]) -> usize
    ensures { AllByRecursion (λ (c : Held). length c.opened.items ≤ result) set.now }
{
    let mut most = 0;
    for i in 0..set.len() {
        let open = set[i].opened.len();
        if open > most {
            most = open;
        }
    }
    most
}

/// Whether one of these has the rows, once some of its open calls that write took effect, or none.
/// One call more takes effect in every turn.
fn may_have_rows(
    alloc: Global,
    set: &[Configuration],
    rows: &Home,
    most: usize,
) -> Result<bool, Stopped>
    requires ready { AreReady set.now }
    requires apart { AreApart rows.now.s_id set.now }
    ensures there { IfOk result (λ yes. IsTrue yes
        → (d : Seen) × FromOne MayCome set.now d × (d.rows ≡ rows.now.tables)) }
    ensures other { IfOk result (λ yes. (d : Seen) → FromOne TakeSome set.now d
        → d.rows ≡ rows.now.tables → IsTrue yes) }
    ensures many { IsErrOf result Stopped.MoreThanMost
        → AreMoreThan most (FromOne MayCome set.now) }
{
    if have_rows(set, rows) {
        return Ok(true);
    }
    let mut going = after_one(alloc, set, most)?;
    'turns: for i in 0..most_open(set) {
        if have_rows(going.as_slice(), rows) {
            return Ok(true);
        }
        let next = after_one(alloc, going.as_slice(), most)?;
        going = next;
    }
    Ok(false)
}

impl Explanations {
    /// Whether an order that explains all calls results in these rows of their subscriber. Calls of
    /// unknown outcome that have not taken effect may do so at the end, or never.
    pub fn leads_to(&self, alloc: Global, rows: &Home) -> Result<Standing, AllocError>
        requires reached { (u : Database) × (past : List Event) × AreReached u past self.now }
        requires own { AreOfSubscriber rows.now.s_id self.now }
        requires exact { self.now.exact ≡ true }
        ensures explained { result ≡ Ok Standing.Explained → (u : Database) (past : List Event)
            → AreReached u past self.now → TimesRise past → HaveEnds past
            → IsStrictlySerializableTo u (asked_in past) rows.now.tables }
        ensures unexplained { result ≡ Ok Standing.Unexplained → (u : Database)
            (past : List Event) → AreReached u past self.now → TimesRise past → HaveEnds past
            → IsStrictlySerializableTo u (asked_in past) rows.now.tables → ⊥ }
        ensures undecided { result ≡ Ok Standing.Undecided → (u : Database) (past : List Event)
            → AreReached u past self.now → NeedMore self.now.most u past }
    {
        match may_have_rows(alloc, self.configurations.as_slice(), rows, self.most) {
            Ok(true) => Ok(Standing::Explained),
            Ok(false) => Ok(Standing::Unexplained),
            Err(Stopped::MoreThanMost) => Ok(Standing::Undecided),
            Err(Stopped::NoMemory) => Err(AllocError),
        }
    }
}
