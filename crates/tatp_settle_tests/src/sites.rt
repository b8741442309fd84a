//! Sites and parcels, and calls at a site.

use crate::rows::clean_rows;
use std::alloc::{AllocError, Global};
use tatp_extents::{Discard, discard_all, open};
use tatp_loader::Loaded;
use tatp_partition::{
    Completion, Item, NotGiven, Offer, Parcel, Site, SiteRefusal, Stepped,
    opened_extents_are_numbered,
};
use tatp_procs::standard;

/// The standard module, of which no test here has to know more.
pub fn module(alloc: Global) -> Result<Loaded, AllocError> {
    standard(alloc)
}

/// The site of a partition with all extents of these subscribers.
pub fn opened<'m>(
    alloc: Global,
    loaded: &'m Loaded,
    subscribers: u64,
    partition: u8,
) -> Result<Site<'m>, AllocError> {
    match open(alloc, clean_rows(alloc, subscribers, &[])?, 1) {
        Err(_) => Err(AllocError),
        Ok((extents, _directory)) => {
            opened_extents_are_numbered();
            let count = extents.len() as u32;
            match Site::open(alloc, loaded, partition, count, extents) {
                Ok(site) => Ok(site),
                Err(extents) => {
                    discard_all(extents);
                    Err(AllocError)
                }
            }
        }
    }
}

/// Spends a site.
pub fn spend_site(site: Site<'_>) {
    let (mut slots, _homeless) = site.close();
    while let Some(slot) = slots.pop() {
        match slot {
            None => {}
            Some(extent) => {
                let _ = extent.close();
            }
        }
    }
    slots.destroy_empty();
}

/// Spends parcels.
pub fn spend_parcels(parcels: Vec<Parcel>) {
    let mut rest = parcels;
    while let Some(parcel) = rest.pop() {
        let _ = parcel.unpack().close();
    }
    rest.destroy_empty();
}

/// Offers a call; whether it began.
pub fn begins(site: &mut Site<'_>, alloc: Global, item: Item) -> Result<bool, SiteRefusal> {
    if !site.fits(&item) {
        return Ok(false);
    }
    match site.offer_begin(alloc, &item) {
        Ok(Offer::Began) => Ok(true),
        Ok(_) => Ok(false),
        Err(refusal) => Err(refusal),
    }
}

/// Steps the running call to its end, in at most 256 steps.
pub fn ended(site: &mut Site<'_>) -> Option<Completion> {
    for _ in 0..256 {
        match site.step() {
            Ok(Stepped::Moved) => {}
            Ok(Stepped::Ended(completion)) => return Some(completion),
            Err(_) => return None,
        }
    }
    None
}

/// Gives a parcel; whether it landed.
pub fn lands(site: &mut Site<'_>, parcel: Parcel) -> bool {
    match site.give(parcel) {
        Ok(landed) => {
            landed.discard();
            true
        }
        Err(NotGiven { refusal: _, parcel }) => {
            let _ = parcel.unpack().close();
            false
        }
    }
}

/// Why an extent isn't taken.
pub fn refused_take(site: &mut Site<'_>, e: u32) -> Option<SiteRefusal> {
    match site.take(e) {
        Err(refusal) => Some(refusal),
        Ok(parcel) => {
            let _ = parcel.unpack().close();
            None
        }
    }
}
