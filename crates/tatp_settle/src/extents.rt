//! The causes that concern an extent.
ghost use Rattle.std.specs.Prelude.{◌≡◌, ◌≤◌, ◌==◌, ◌↔◌, IsTrue, count_by};
ghost use Rattle.std.specs.List.{list_any};
ghost use Rattle.tatp_extents.specs.Extents.{ExtentState};
ghost use Rattle.tatp_settle.specs.Closings.{ClosedSiteState, is_here, times_standing};
ghost use Rattle.tatp_settle.specs.Causes.{IsMixed};
ghost use Rattle.tatp_settle.specs.CallPlaces.{IsFirstNumber};
ghost use Rattle.tatp_settle.specs.Runs.{shown};
ghost use Rattle.tatp_settle.specs.ExtentTests.{mixed_here, mixed_as, IsExtentCause};

use crate::logs::log_count;
use crate::run::Run;
use crate::{Closed, ClosedSite};
use tatp_extents::Extent;

/// The causes that concern an extent.
#[derive(Clone, Copy)]
pub(crate) enum ExtentCause {
    /// It is mixed.
    IsAsMixed,
    /// It came in a parcel.
    InParcel,
    /// It is there twice.
    StandsTwice,
}

/// The least extent that is such a cause.
pub(crate) fn first_extent(cause: ExtentCause, run: &Run<'_>) -> Option<u64>
    ensures { IsFirstNumber (IsExtentCause cause (shown run.now)) result }
{
    run.closed.what_holds();
    (0..log_count(run.closed)).find(|number| is_cause(cause, run, *number))
}

/// Whether the extent of a number is such a cause.
fn is_cause(cause: ExtentCause, run: &Run<'_>, number: u64) -> bool
    ensures { IsTrue result ↔ IsExtentCause cause (shown run.now) number }
{
    match cause {
        ExtentCause::IsAsMixed => is_mixed(run.closed, number),
        ExtentCause::InParcel => is_one_of(run.closed.parcels(), number),
        ExtentCause::StandsTwice => is_doubled(run.closed, number),
    }
}

/// Whether a log of the number is mixed.
fn is_mixed(closed: &Closed, number: u64) -> bool
    ensures { IsTrue result ↔ IsMixed closed.now number }
{
    is_mixed_at(closed.sites(), number) || is_mixed_in(closed.parcels(), number)
}

/// Whether a log of the number that was at one of the sites is mixed.
fn is_mixed_at(sites: &[ClosedSite], number: u64) -> bool
    ensures { result ≡ list_any (λ (site : ClosedSiteState). mixed_here site number) sites.now }
{
    sites.iter().any(|site| is_mixed_here(site, number))
}

/// Whether a log of the number that was at the site is mixed.
fn is_mixed_here(site: &ClosedSite, number: u64) -> bool
    ensures { result ≡ mixed_here site.now number }
{
    if number == 0 && site.partition() == 0 && site.homeless_mixed() {
        return true;
    }
    match site.extent(number) {
        Some(extent) => extent.is_mixed(),
        None => false,
    }
}

/// Whether one of these extents has the number and is mixed.
fn is_mixed_in(extents: &[Extent], number: u64) -> bool
    ensures { result ≡ list_any (mixed_as number) extents.now }
{
    extents.iter().any(|extent| extent.number() as u64 == number && extent.is_mixed())
}

/// Whether one of these extents has the number.
fn is_one_of(extents: &[Extent], number: u64) -> bool
    ensures { result ≡ list_any (λ (x : ExtentState). x.number == number) extents.now }
{
    extents
        .iter()
        .any(|extent| extent.number() as u64 == number)
}

/// Whether the number occurs twice.
fn is_doubled(closed: &Closed, number: u64) -> bool
    ensures { IsTrue result ↔ (2 ≤ times_standing closed.now number) }
{
    let at_sites = times_at(closed.sites(), number);
    let in_parcels = times_in(closed.parcels(), number);
    at_sites.saturating_add(in_parcels) >= 2
}

/// At how many of these sites the number was.
fn times_at(sites: &[ClosedSite], number: u64) -> usize
    ensures { result ≡ count_by (λ (site : ClosedSiteState). is_here site number) sites.now }
{
    sites.iter().filter(|site| stood_at(site, number)).count()
}

/// Whether the number was at the site.
fn stood_at(site: &ClosedSite, number: u64) -> bool
    ensures { result ≡ is_here site.now number }
{
    if number == 0 {
        site.partition() == 0
    } else {
        site.extent(number).is_some()
    }
}

/// How many of these extents have the number.
fn times_in(extents: &[Extent], number: u64) -> usize
    ensures { result ≡ count_by (λ (x : ExtentState). x.number == number) extents.now }
{
    extents
        .iter()
        .filter(|extent| extent.number() as u64 == number)
        .count()
}
