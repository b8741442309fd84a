//! The sites of all partitions: opened with the extents that are dealt to them, and spent.
ghost use Rattle.std.specs.Prelude.{◌≡◌, ℕ, [], ◌≤◌, ◌<◌, ◌^◌, IfOk, Some, length, slice_get};
ghost use Rattle.tatp_tables.specs.Database.{Database};
ghost use Rattle.tatp_extents.specs.Opening.{opened_extents};
ghost use Rattle.tatp_partition.specs.Opening.{AreNumbered};
ghost use Rattle.tatp_partition.specs.Sites.{SiteState};
ghost use Rattle.tatp_partition.specs.Moving.{HasPlaceFor};
ghost use Rattle.tatp_partition.specs.Dealing.{AreSitesDealt, AreSitesOpened, LandsAt};

use crate::{Parcel, Site};
use std::alloc::{AllocError, Global};
use tatp_extents::{Discard, Extent, discard_all};
use tatp_loader::Loaded;

/// The sites of all partitions, for `count` extents, none of which is there yet.
fn open_without_extents<'m>(
    alloc: Global,
    loaded: &'m Loaded,
    partitions: u8,
    count: u32,
) -> Result<Vec<Site<'m>>, AllocError>
    ensures { IfOk result (λ sites. AreSitesDealt loaded.now partitions count [] sites.items) }
{
    let mut sites = Vec::with_capacity(alloc, partitions as usize)?;
    for partition in 0..partitions {
        match Site::open(alloc, loaded, partition, count, Vec::new(alloc)) {
            Ok(site) => sites.push_reserved(site),
            Err(none) => {
                discard_all(none);
                discard_all(sites);
                return Err(AllocError);
            }
        }
    }
    Ok(sites)
}

/// An extent lands at a site, where its slot is empty.
fn land_at(sites: &mut Vec<Site<'_>>, p: usize, extent: Extent)
    requires site { p < length sites.old.items }
    requires place { (s : SiteState)
        → slice_get sites.old.items p ≡ Some s → HasPlaceFor s extent.number }
    ensures { LandsAt sites.old.items p extent sites.new.items }
{
    match sites[p].give(Parcel::new(extent)) {
        Ok(landed) => landed.discard(),
        Err(_back) => unreachable!(),
    }
}

/// The sites of all partitions, with these extents dealt to them. Where memory ran out, the extents
/// are spent.
pub fn open_sites<'m>(
    alloc: Global,
    loaded: &'m Loaded,
    partitions: u8,
    extents: Vec<Extent>,
) -> Result<Vec<Site<'m>>, AllocError>
    requires some { 1 ≤ partitions }
    requires few { length extents.items < 2 ^ 32 }
    requires numbers { AreNumbered (length extents.items) extents.items }
    ensures { IfOk result (λ sites.
        AreSitesOpened loaded.now partitions extents.items sites.items) }
{
    let mut sites = match open_without_extents(alloc, loaded, partitions, extents.len() as u32) {
        Ok(sites) => sites,
        Err(error) => {
            discard_all(extents);
            return Err(error);
        }
    };
    let mut rest = extents;
    while let Some(extent) = rest.pop() {
        let p = extent.number().saturating_sub(1) % partitions as u32;
        land_at(&mut sites, p as usize, extent);
    }
    rest.destroy_empty();
    Ok(sites)
}

/// Law: the extents that rows are opened into have the numbers from 1 on, each once.
pub fn opened_extents_are_numbered()
    ensures { (u : Database) (n : ℕ)
        → AreNumbered (length (opened_extents u n)) (opened_extents u n) }
{}
