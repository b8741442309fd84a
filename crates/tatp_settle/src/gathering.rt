//! What sites, parcels and chapters leave is gathered.
ghost use Rattle.std.specs.Prelude.{◌≡◌, ◌+◌, ◌<◌, ◌≤◌, ◌^◌, ◌==◌, ◌||◌, ◌↔◌, IsTrue, ℕ, IfOk, IfErr, IfSome, IfNone, [], All, List, length, map, vec_len};
ghost use Rattle.std.specs.Vec.{vec_capacity};
ghost use Rattle.std.specs.List.{list_any};
ghost use Rattle.tatp_extents.specs.Extents.{ExtentState, IsExtent};
ghost use Rattle.tatp_extents.specs.Chapters.{ChapterState, IsChapter};
ghost use Rattle.tatp_partition.specs.Sites.{SiteState};
ghost use Rattle.tatp_partition.specs.Sound.{IsSite};
ghost use Rattle.tatp_settle.specs.Closings.{closed_of, closed_site, greatest_place, is_here, times_standing, IsClosedSite, IsMissing, IsClosed};
ghost use Rattle.tatp_settle.specs.Settlements.{IsLeastMissing, RefusesToGather};

use crate::{Closed, ClosedSite, GatherError, NotGathered};
use std::alloc::Global;
use tatp_extents::{Chapter, Extent, first_subscriber, what_holds_of_every_chapter};
use tatp_partition::{Parcel, Site, what_holds_of_every_parcel, what_holds_of_every_site};

/// What these sites, parcels and chapters leave: each extent and each log in its place, running
/// calls set back. Refused, they come back.
pub fn gather<'m>(
    alloc: Global,
    sites: Vec<Site<'m>>,
    parcels: Vec<Parcel>,
    chapters: Vec<Chapter>,
) -> Result<Closed, NotGathered<'m>>
    ensures closed { IfOk result (λ closed.
        closed ≡ closed_of sites.entry.items parcels.items chapters.items) }
    ensures whole { IfOk result IsClosed }
    ensures sound { All IsClosedSite
        (closed_of sites.entry.items parcels.items chapters.items).sites }
    ensures refusal { IfErr result (λ refused.
        RefusesToGather (closed_of sites.entry.items parcels.items chapters.items)
        refused.error) }
    ensures sites { IfErr result (λ refused. refused.sites.items ≡ sites.entry.items) }
    ensures parcels { IfErr result (λ refused. refused.parcels.items ≡ parcels.items) }
    ensures chapters { IfErr result (λ refused. refused.chapters.items ≡ chapters.items) }
{
    what_holds_of_these_chapters(&chapters);
    if let Some(number) = least_missing(&sites, &parcels) {
        return Err(NotGathered {
            error: GatherError::ExtentMissing(number),
            sites,
            parcels,
            chapters,
        });
    }
    let Ok(mut closed) = Vec::with_capacity(alloc, sites.len()) else {
        return Err(NotGathered {
            error: GatherError::NoMemory,
            sites,
            parcels,
            chapters,
        });
    };
    let Ok(mut extents) = Vec::with_capacity(alloc, parcels.len()) else {
        closed.destroy_empty();
        return Err(NotGathered {
            error: GatherError::NoMemory,
            sites,
            parcels,
            chapters,
        });
    };
    close_all(&mut closed, sites);
    unpack_all(&mut extents, parcels);
    Ok(Closed {
        sites: closed,
        parcels: extents,
        chapters,
    })
}

/// The least extent in no site and no parcel.
fn least_missing(sites: &[Site<'_>], parcels: &[Parcel]) -> Option<u64>
    ensures sound { All IsClosedSite (closed_of sites.now parcels.now []).sites }
    ensures missing { IfSome result (IsLeastMissing (closed_of sites.now parcels.now [])) }
    ensures none { IfNone result ((e : ℕ) → IsMissing (closed_of sites.now parcels.now []) e → ⊥) }
{
    what_holds_of_these_sites(sites);
    let greatest = greatest_number(sites) as u64;
    (0..greatest + 1).find(|number| is_missing(sites, parcels, *number))
}

/// The greatest number of an extent that one of the sites has a place for, 0 without a site.
fn greatest_number(sites: &[Site<'_>]) -> u32
    ensures { (parcels : List ExtentState) (chapters : List ChapterState)
        → result ≡ greatest_place (closed_of sites.now parcels chapters) }
{
    sites
        .iter()
        .fold(0, |most: u32, site| most.max(site.slots()))
}

/// Whether an extent is in no site and no parcel.
fn is_missing(sites: &[Site<'_>], parcels: &[Parcel], number: u64) -> bool
    requires few { number < 2 ^ 32 }
    requires sound { All IsSite sites.now }
    ensures { IsTrue result
        ↔ (times_standing (closed_of sites.now parcels.now []) number ≡ 0) }
{
    !stands(sites, parcels, number)
}

/// Whether an extent is in a site or a parcel.
fn stands(sites: &[Site<'_>], parcels: &[Parcel], number: u64) -> bool
    requires { number < 2 ^ 32 }
    ensures { result
        ≡ (list_any (λ (site : SiteState). is_here (closed_site site) number) sites.now
        || list_any (λ (x : ExtentState). x.number == number) parcels.now) }
{
    stands_at_one(sites, number) || is_one_of(parcels, number)
}

/// Whether an extent is in one of the sites.
fn stands_at_one(sites: &[Site<'_>], number: u64) -> bool
    requires { number < 2 ^ 32 }
    ensures { result
        ≡ list_any (λ (site : SiteState). is_here (closed_site site) number) sites.now }
{
    sites.iter().any(|site| stands_at(site, number))
}

/// Whether an extent came in one of the parcels.
fn is_one_of(parcels: &[Parcel], number: u64) -> bool
    ensures { result ≡ list_any (λ (x : ExtentState). x.number == number) parcels.now }
{
    parcels
        .iter()
        .any(|parcel| parcel.number() as u64 == number)
}

/// What holds of every site holds of these.
fn what_holds_of_these_sites(sites: &[Site<'_>])
    ensures { All IsSite sites.now }
{
    'sites: for site in sites {
        what_holds_of_every_site(site);
    }
}

/// What holds of every chapter holds of these.
fn what_holds_of_these_chapters(chapters: &[Chapter])
    ensures { All IsChapter chapters.now }
{
    'chapters: for chapter in chapters {
        what_holds_of_every_chapter(chapter);
    }
}

/// Whether an extent is in a site. The log of the calls without a home is in that of
/// partition 0.
fn stands_at(site: &Site<'_>, number: u64) -> bool
    requires { number < 2 ^ 32 }
    ensures { result ≡ is_here (closed_site site.now) number }
{
    what_holds_of_every_site(site);
    if number == 0 {
        site.partition() == 0
    } else {
        site.home(first_subscriber(number as u32)).is_some()
    }
}

/// What is left of sites, in their order.
fn close_all(closed: &mut Vec<ClosedSite>, sites: Vec<Site<'_>>)
    requires empty { closed.old.items ≡ [] }
    requires room { vec_len sites ≤ vec_capacity closed.old }
    ensures closed { closed.new.items ≡ map closed_site sites.entry.items }
    ensures holds { All IsClosedSite closed.new.items }
{
    let mut rest = sites;
    while let Some(site) = rest.pop() {
        closed.push_reserved(close(site));
    }
    rest.destroy_empty();
    closed.reverse();
}

/// What is left of a site.
fn close(site: Site<'_>) -> ClosedSite
    ensures value { result ≡ closed_site site.entry }
    ensures holds { IsClosedSite result }
{
    let partition = site.partition();
    let (slots, homeless) = site.close();
    ClosedSite {
        partition,
        slots,
        homeless,
    }
}

/// The extents of parcels, in their order.
fn unpack_all(extents: &mut Vec<Extent>, parcels: Vec<Parcel>)
    requires empty { extents.old.items ≡ [] }
    requires room { vec_len parcels ≤ vec_capacity extents.old }
    ensures extents { extents.new.items ≡ parcels.items }
    ensures holds { All IsExtent extents.new.items }
{
    let mut rest = parcels;
    while let Some(parcel) = rest.pop() {
        what_holds_of_every_parcel(&parcel);
        extents.push_reserved(parcel.unpack());
    }
    rest.destroy_empty();
    extents.reverse();
}
