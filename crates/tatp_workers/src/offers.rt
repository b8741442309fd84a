//! A call is offered to a site.
ghost use Rattle.std.specs.Prelude.{◌≡◌};
ghost use Rattle.tatp_workers.specs.Offering.{Offers, is_again, has_begun};

use std::alloc::Global;
use tatp_partition::{Item, Offer, Site, SiteRefusal};

/// What became of a call that an executor offered to its site.
#[derive(Clone, Copy, Debug, PartialEq, Eq)]
pub enum Offered {
    /// It runs.
    Began,
    /// It is to be offered again.
    Again,
    /// Its home isn't here.
    Away,
    /// Memory was refused to it.
    Denied,
    /// It can never begin here.
    Dropped,
}

impl Offered {
    /// Whether the call is to be offered again.
    pub(crate) fn is_again(&self) -> bool
        ensures { result ≡ is_again self.now }
    {
        matches!(self, Offered::Again)
    }

    /// Whether the call runs.
    pub(crate) fn has_begun(&self) -> bool
        ensures { result ≡ has_begun self.now }
    {
        matches!(self, Offered::Began)
    }
}

/// Offers a call to a site whose lock is held.
pub fn offer(site: &mut Site<'_>, alloc: Global, item: &Item) -> Offered
    ensures { Offers site.old item.now result site.new }
{
    if !site.fits(item) {
        return Offered::Dropped;
    }
    match site.offer_begin(alloc, item) {
        Ok(Offer::Began) => Offered::Began,
        Ok(Offer::Away(_)) => Offered::Away,
        Ok(Offer::Denied(_)) => Offered::Denied,
        Err(SiteRefusal::Running) => Offered::Again,
        Err(SiteRefusal::Stopped) => Offered::Again,
        Err(_) => Offered::Dropped,
    }
}
