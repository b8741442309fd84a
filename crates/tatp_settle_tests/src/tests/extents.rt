//! Extents that are the cause why a run isn't settled.

use super::told::{Run, expect_cause, told_of};
use crate::events::Event;
use crate::rows::clean_rows;
use std::alloc::{AllocError, Global};
use std::test::Fail;
use std::thread::Threads;
use tatp_settle::Settled;

/// Subscribers, those elsewhere, the partitions, the events, and the text of the cause.
type ExtentCase<'a> = (u64, &'a [u64], &'a [u8], &'a [Event], &'a str);

/// In each row later causes hold too, for one that no client's call has a receipt.
static EXTENTS: [ExtentCase<'static>; 11] = [
    (
        192,
        &[129, 65],
        &[0],
        &[
            Event::HandedOut(1),
            Event::Raw(129),
            Event::Raw(65),
            Event::Taken(1),
        ],
        "45 Unsettled Mixed 2",
    ),
    (
        192,
        &[],
        &[0],
        &[Event::Raw(65), Event::RawHomeless],
        "45 Unsettled Mixed 0",
    ),
    (
        192,
        &[],
        &[0, 0],
        &[Event::Taken(3), Event::Taken(2)],
        "45 Unsettled ParcelLeft 2",
    ),
    (
        192,
        &[129],
        &[0, 0],
        &[Event::HandedOut(1)],
        "45 Unsettled Doubled 0",
    ),
    (
        192,
        &[],
        &[0, 1],
        &[Event::Lost(1)],
        "45 Unsettled Doubled 2",
    ),
    (
        192,
        &[1],
        &[0],
        &[Event::HandedOut(3), Event::HandedOut(2)],
        "45 Unsettled ChapterMissing 2 0",
    ),
    (128, &[], &[0], &[], "45 Unsettled ChapterDiffers 3 0"),
    (194, &[], &[0], &[], "45 Unsettled ChapterDiffers 4 0"),
    (
        192,
        &[129, 65],
        &[0],
        &[],
        "45 Unsettled ChapterDiffers 2 0",
    ),
    (
        192,
        &[129, 65],
        &[0],
        &[Event::Kept(1), Event::Kept(2)],
        "45 Unsettled ChapterDiffers 2 0",
    ),
    (192, &[], &[0], &[], "45 Unsettled CallMissing 0 0"),
];

/// The verdict on a run in which the first client asked one subscriber, and got nothing.
fn told_of_extents<R: Threads + Sync>(
    rt: &R,
    alloc: Global,
    case: &ExtentCase<'_>,
) -> Result<Option<Result<Settled, String>>, AllocError> {
    let (subscribers, elsewhere, partitions, events, _) = *case;
    let population = clean_rows(alloc, subscribers, elsewhere)?;
    let run = Run {
        partitions,
        events,
        beside: None,
        calls: &[&[1]],
        got: &[],
    };
    told_of(rt, alloc, &population, run)
}

#[test]
fn extents_that_are_causes(rt: HostRuntime) -> Result<(), Fail> {
    for case in &EXTENTS {
        expect_cause(&rt, told_of_extents(&rt, rt.alloc(), case)?, case.4)?;
    }
    Ok(())
}
