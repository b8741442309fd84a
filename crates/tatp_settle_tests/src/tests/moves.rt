//! Extents that leave a site and land at one.

use crate::sites::{lands, module, opened, refused_take, spend_site};
use std::test::Fail;
use tatp_extents::Discard;
use tatp_partition::{NotGiven, Site, SiteRefusal};

/// Takes an extent and gives it back, so often; how often that was done.
fn moved(site: &mut Site<'_>, e: u32, times: u32) -> u32 {
    for i in 0..times {
        match site.take(e) {
            Err(_) => return i,
            Ok(parcel) => {
                if !lands(site, parcel) {
                    return i;
                }
            }
        }
    }
    times
}

/// Why a parcel comes back from a site, its number and its moves; whether the other site has it
/// again.
fn given_back(
    from: &mut Site<'_>,
    to: &mut Site<'_>,
    e: u32,
) -> Option<(SiteRefusal, u32, u16, bool)> {
    match from.take(e) {
        Err(_) => None,
        Ok(parcel) => match to.give(parcel) {
            Ok(landed) => {
                landed.discard();
                None
            }
            Err(NotGiven { refusal, parcel }) => {
                let number = parcel.number();
                let moves = parcel.moves();
                Some((refusal, number, moves, lands(from, parcel)))
            }
        },
    }
}

#[test]
fn moves_are_counted(rt: HostRuntime) -> Result<(), Fail> {
    let loaded = module(rt.alloc())?;
    let mut site = opened(rt.alloc(), &loaded, 130, 0)?;
    let often = moved(&mut site, 3, 65535);
    let full = refused_take(&mut site, 3);
    let there = site.home(129).is_some();
    let none = refused_take(&mut site, 4);
    let places = site.slots();
    spend_site(site);
    assert_eq!(rt; (often, there, places), (65535, true, 3));
    assert_eq!(rt;
        (full, none),
        (Some(SiteRefusal::MoveCountFull), Some(SiteRefusal::NotHere))
    );
    Ok(())
}

#[test]
fn a_foreign_parcel_comes_back(rt: HostRuntime) -> Result<(), Fail> {
    let loaded = module(rt.alloc())?;
    let mut site = opened(rt.alloc(), &loaded, 130, 0)?;
    match opened(rt.alloc(), &loaded, 130, 0) {
        Err(error) => {
            spend_site(site);
            Err(error.into())
        }
        Ok(mut other) => {
            let back = given_back(&mut site, &mut other, 3);
            spend_site(site);
            spend_site(other);
            assert_eq!(rt; back, Some((SiteRefusal::NoSlot, 3, 1, true)));
            Ok(())
        }
    }
}
