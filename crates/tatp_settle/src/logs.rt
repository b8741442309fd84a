//! What sites and parcels have under a number: extents and logs.
ghost use Rattle.std.specs.Prelude.{◌≡◌, ◌≤◌, ◌^◌, ◌==◌, ℕ, find, [], None, All};
ghost use Rattle.std.specs.Option.{option_copied, option_map};
ghost use Rattle.tatp_extents.specs.Extents.{ExtentState};
ghost use Rattle.tatp_settle.specs.ChapterTables.{entries_of_some};
ghost use Rattle.tatp_settle.specs.Closings.{ClosedSiteState, ExtentLog, extents_at, extents_numbered, extent_numbered, log_numbered, entries_since, chapter_count, most_places, above_all, least_above, IsClosedSite};

use crate::log_parts::LogPart;
use crate::{Closed, ClosedSite};
use tatp_extents::Extent;

/// The first of these extents that has a number.
fn first_of(extents: &[Extent], number: u64) -> Option<&Extent>
    ensures { option_copied result ≡ find (λ (x : ExtentState). x.number == number) extents.now }
{
    extents
        .iter()
        .find(|extent| extent.number() as u64 == number)
}

/// The first extent that was in these sites under a number.
fn extent_at(sites: &[ClosedSite], number: u64) -> Option<&Extent>
    requires { All IsClosedSite sites.now }
    ensures { option_copied result
        ≡ find (λ (x : ExtentState). x.number == number) (extents_at sites.now) }
{
    'sites: for site in sites {
        if let Some(extent) = site.extent(number) {
            return Some(extent);
        }
    }
    None
}

/// The first extent that has a number.
pub(crate) fn extent_numbered(closed: &Closed, number: u64) -> Option<&Extent>
    ensures { option_copied result ≡ extent_numbered closed.now number }
{
    match extent_at(closed.sites(), number) {
        Some(extent) => Some(extent),
        None => first_of(closed.parcels(), number),
    }
}

/// The first site that kept a log of calls without a home.
fn homeless_at(sites: &[ClosedSite]) -> Option<&ClosedSite>
    ensures { option_copied result
        ≡ find (λ (site : ClosedSiteState). site.partition == 0) sites.now }
{
    sites.iter().find(|site| site.partition() == 0)
}

/// The first log that has a number, and the homes from which it starts; that of the calls without
/// a home has the number 0, and no homes.
pub(crate) fn last_part(closed: &Closed, number: u64) -> Option<LogPart<'_>>
    ensures before { option_map (λ (part : LogPart). part.before.now) result
        ≡ option_map (λ (log : ExtentLog). log.opening) (log_numbered closed.now number) }
    ensures entries { entries_of_some result ≡ entries_since closed.now number }
{
    if number == 0 {
        let site = homeless_at(closed.sites())?;
        return Some(LogPart {
            before: &[],
            entries: site.homeless_log(),
        });
    }
    let extent = extent_numbered(closed, number)?;
    Some(LogPart {
        before: extent.opening(),
        entries: extent.log(),
    })
}

/// How many chapters were handed out of a number, 0 where it isn't there.
pub(crate) fn chapter_count(closed: &Closed, number: u64) -> u16
    ensures { result ≡ chapter_count closed.now number }
{
    if number == 0 {
        return match homeless_at(closed.sites()) {
            Some(site) => site.homeless_chapters(),
            None => 0,
        };
    }
    match extent_numbered(closed, number) {
        Some(extent) => extent.chapters(),
        None => 0,
    }
}

/// How many places the site has that has the most: a number above that of each extent that was
/// there.
fn places_of(sites: &[ClosedSite]) -> u64
    ensures { result ≡ most_places sites.now }
{
    sites
        .iter()
        .fold(0, |most: u64, site| most.max(site.places()))
}

/// The least number above those of these extents.
fn numbers_of(extents: &[Extent]) -> u64
    ensures value { result ≡ above_all extents.now }
    ensures most { result ≤ 2 ^ 32 }
{
    let mut count = 0;
    'extents: for extent in extents {
        count = (extent.number() as u64 + 1).max(count);
    }
    count
}

/// A number above that of each extent and log, and above 0.
pub(crate) fn log_count(closed: &Closed) -> u64
    ensures value { result ≡ least_above closed.now }
    ensures least { 1 ≤ result }
    ensures logs { (e : ℕ) → result ≤ e → log_numbered closed.now e ≡ None }
    ensures extents { (e : ℕ) → result ≤ e → extents_numbered closed.now e ≡ [] }
{
    places_of(closed.sites())
        .max(numbers_of(closed.parcels()))
        .max(1)
}
