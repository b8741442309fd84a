//! Why a call would not begin.
ghost use Rattle.std.specs.Prelude.{◌≡◌, ◌↔◌, ◌^◌, ◌-◌, ◌==◌, ◌+◌, ◌<◌, max, if◌then◌else◌, IsTrue, OnOk, is_some};
ghost use Rattle.tatp_numbers.specs.Homes.{home_of_key};
ghost use Rattle.tatp_calls.specs.Asked.{Fits, arities_of, key_asked};

use super::Site;
use crate::{Item, SiteRefusal};
use tatp_calls::Ask;
use tatp_extents::extent_of;
use tatp_homes::{Home, what_holds_of_every_home};
use tatp_numbers::Key;

impl<'m> Site<'m> {
    ghost use Rattle.tatp_partition.specs.Obstacles.{begin_obstacle, greater_stamp, unless};
    ghost use Rattle.tatp_partition.specs.Running.{call_begun};
    ghost use Rattle.tatp_partition.specs.Sound.{IsInPlace};

    /// Why a call that is offered would not begin: [`SiteRefusal::NotHere`] where it is away.
    pub fn check_item(&self, item: &Item) -> Result<(), SiteRefusal>
        ensures value { result ≡ unless (begin_obstacle self.now item.now) }
        ensures place { OnOk result (
            IsInPlace self.now (call_begun self.now item.now) item.now.home) }
        ensures stamp { OnOk result (
            greater_stamp self.now item.now.seen item.now.home + 1 < 2 ^ 64) }
    {
        if self.running.is_some() {
            return Err(SiteRefusal::Running);
        }
        if self.stopped {
            return Err(SiteRefusal::Stopped);
        }
        match item.home {
            None => {
                if self.partition != 0 {
                    return Err(SiteRefusal::NotHere);
                }
                stamp_left(item.seen, self.homeless.last_stamp())
            }
            Some(s_id) => match self.slots.get(extent_of(s_id)) {
                None => Err(SiteRefusal::NotHere),
                Some(extent) => match extent.home(s_id) {
                    None => Err(SiteRefusal::NotHere),
                    Some(home) => {
                        what_holds_of_every_home(home);
                        if !is_named(&item.ask, home) {
                            return Err(SiteRefusal::WrongHome);
                        }
                        stamp_left(item.seen, extent.last_stamp())
                    }
                },
            },
        }
    }

    /// Whether the module of the site has the procedure that is asked, with as many arguments,
    /// which are in their domains where it is a transaction.
    pub fn fits(&self, item: &Item) -> bool
        ensures { IsTrue result ↔ Fits (arities_of self.now.modul) item.now.ask }
    {
        item.ask.fits_module(self.loaded.module())
    }
}

/// Whether the key of what is asked names the home's subscriber.
fn is_named(ask: &Ask, home: &Home) -> bool
    ensures { result ≡ is_some (home_of_key home.now.tables.subscribers (key_asked ask.now)) }
{
    match ask.key() {
        Key::Id(s_id) => home.has_sub(s_id),
        Key::Number(number) => home.has_number(number),
    }
}

/// Whether there is a stamp above both.
fn stamp_left(seen: u64, last: u64) -> Result<(), SiteRefusal>
    ensures { result ≡ (if max seen last == 2 ^ 64 - 1 then Err SiteRefusal.StampFull else Ok tt) }
{
    if seen.max(last) == u64::MAX {
        Err(SiteRefusal::StampFull)
    } else {
        Ok(())
    }
}
