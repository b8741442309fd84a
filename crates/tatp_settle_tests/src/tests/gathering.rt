//! What isn't gathered, and what comes back.

use crate::events::{Event, Left, left_at};
use crate::sites::{module, spend_parcels};
use std::alloc::{AllocError, Global};
use std::test::Fail;
use std::thread::Threads;
use tatp_extents::discard_all;
use tatp_settle::{Closed, NotGathered, gather};

/// How many sites, parcels and chapters came back, and the extent of the first parcel.
type Back = (usize, usize, usize, Option<u32>);

/// The text of why nothing is gathered, and what came back. None where all was gathered.
fn refused<R: Threads + Sync>(
    rt: &R,
    alloc: Global,
    gathered: Result<Closed, NotGathered<'_>>,
) -> Result<Option<(String, Back)>, AllocError> {
    match gathered {
        Ok(closed) => {
            closed.discard(rt);
            Ok(None)
        }
        Err(
            NotGathered {
                error,
                sites,
                parcels,
                chapters,
            },
        ) => {
            let first = parcels.first().map(|parcel| parcel.number());
            let back = (sites.len(), parcels.len(), chapters.len(), first);
            discard_all(sites);
            spend_parcels(parcels);
            discard_all(chapters);
            Ok(Some((format!(in alloc; "{error}")?, back)))
        }
    }
}

/// The same of what a run at the sites of these partitions leaves. None also where one of its
/// events did not happen.
fn refused_of<R: Threads + Sync>(
    rt: &R,
    alloc: Global,
    partitions: &[u8],
    events: &[Event],
) -> Result<Option<(String, Back)>, AllocError> {
    let loaded = module(alloc)?;
    match left_at(alloc, &loaded, partitions, events)? {
        None => Ok(None),
        Some(
            Left {
                sites,
                parcels,
                chapters,
            },
        ) => refused(rt, alloc, gather(alloc, sites, parcels, chapters)),
    }
}

/// The partitions, the events, why nothing is gathered, and what comes back.
type Case<'a> = (&'a [u8], &'a [Event], &'a str, Back);

/// An extent is missing at the sites.
static MISSING: [Case<'static>; 5] = [
    (&[], &[], "44 ExtentMissing 0", (0, 0, 0, None)),
    (&[1], &[], "44 ExtentMissing 0", (1, 0, 0, None)),
    (
        &[0],
        &[Event::Lost(3)],
        "44 ExtentMissing 3",
        (1, 0, 0, None),
    ),
    (
        &[0],
        &[Event::Kept(3), Event::Lost(3), Event::Taken(1)],
        "44 ExtentMissing 3",
        (1, 1, 1, Some(1)),
    ),
    (
        &[0],
        &[Event::Lost(3), Event::Taken(1), Event::Lost(2)],
        "44 ExtentMissing 2",
        (1, 1, 0, Some(1)),
    ),
];

#[test]
fn missing_extents(rt: HostRuntime) -> Result<(), Fail> {
    for (partitions, events, text, back) in &MISSING {
        match refused_of(&rt, rt.alloc(), partitions, events)? {
            None => return Err("an event that did not happen, or gathered".into()),
            Some((said, came)) => {
                assert_eq!(rt; said.as_str(), *text);
                assert_eq!(rt; came, *back);
            }
        }
    }
    Ok(())
}
