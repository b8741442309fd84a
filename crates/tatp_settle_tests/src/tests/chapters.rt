//! Chapters that are the cause why a run isn't settled.

use super::told::{Beside, Run, expect_cause, told_of};
use crate::events::Event;
use crate::rows::clean_rows;
use std::alloc::{AllocError, Global};
use std::test::Fail;
use std::thread::Threads;
use tatp_settle::Settled;

/// Events, those of the run beside, and the text of the cause.
type ChapterCase<'a> = (&'a [Event], Beside<'a>, &'a str);

/// No chapters beside.
const NONE: Beside<'static> = Beside {
    subscribers: 192,
    events: &[],
};

/// Chapters that did not come, came twice, or don't join. In each row the first client's call has
/// no receipt either.
static CHAPTERS: [ChapterCase<'static>; 15] = [
    (
        &[Event::Call(1, 0, 1), Event::HandedOut(1)],
        NONE,
        "45 Unsettled ChapterMissing 1 0",
    ),
    (
        &[Event::Homeless(1, 0, 193), Event::HandedOut(0)],
        NONE,
        "45 Unsettled ChapterMissing 0 0",
    ),
    (
        &[Event::HandedOut(3), Event::Kept(2), Event::HandedOut(2)],
        NONE,
        "45 Unsettled ChapterMissing 2 1",
    ),
    // One that came twice comes later.
    (
        &[Event::Kept(1), Event::HandedOut(2)],
        Beside {
            subscribers: 192,
            events: &[Event::Kept(1)],
        },
        "45 Unsettled ChapterMissing 2 0",
    ),
    (
        &[Event::Kept(2), Event::Kept(1)],
        Beside {
            subscribers: 192,
            events: &[Event::Kept(2), Event::Kept(1)],
        },
        "45 Unsettled ChapterTwice 1 0",
    ),
    (
        &[Event::Kept(0)],
        Beside {
            subscribers: 192,
            events: &[Event::Kept(0)],
        },
        "45 Unsettled ChapterTwice 0 0",
    ),
    (
        &[Event::Kept(3)],
        Beside {
            subscribers: 192,
            events: &[Event::HandedOut(3), Event::HandedOut(3), Event::Kept(3)],
        },
        "45 Unsettled ChapterTwice 3 2",
    ),
    (
        &[],
        Beside {
            subscribers: 256,
            events: &[Event::Kept(4)],
        },
        "45 Unsettled ChapterTwice 4 0",
    ),
    // A chapter that doesn't join comes later.
    (
        &[Event::HandedOut(1), Event::Kept(1)],
        Beside {
            subscribers: 256,
            events: &[Event::Updated(1), Event::Kept(1), Event::Kept(4)],
        },
        "45 Unsettled ChapterTwice 4 0",
    ),
    (
        &[Event::HandedOut(2), Event::Kept(2)],
        Beside {
            subscribers: 192,
            events: &[Event::Updated(65), Event::Kept(2)],
        },
        "45 Unsettled ChapterDiffers 2 1",
    ),
    (
        &[Event::HandedOut(2), Event::HandedOut(2)],
        Beside {
            subscribers: 192,
            events: &[Event::Kept(2), Event::Updated(65), Event::Kept(2)],
        },
        "45 Unsettled ChapterDiffers 2 2",
    ),
    // The stamp 1 after the stamp 7, in a chapter, in the log, and in that of calls without a home.
    (
        &[Event::HandedOut(2), Event::Call(0, 1, 65), Event::Kept(2)],
        Beside {
            subscribers: 192,
            events: &[Event::Late(0, 0, 65, 6), Event::Kept(2)],
        },
        "45 Unsettled ChapterDiffers 2 1",
    ),
    (
        &[Event::HandedOut(2), Event::Call(0, 1, 65)],
        Beside {
            subscribers: 192,
            events: &[Event::Late(0, 0, 65, 6), Event::Kept(2)],
        },
        "45 Unsettled ChapterDiffers 2 1",
    ),
    (
        &[Event::HandedOut(0), Event::Homeless(0, 1, 193)],
        Beside {
            subscribers: 192,
            events: &[
                Event::Homeless(1, 0, 193),
                Event::Homeless(1, 1, 193),
                Event::Kept(0),
            ],
        },
        "45 Unsettled ChapterDiffers 0 1",
    ),
    // A chapter without entries keeps the stamp before it.
    (
        &[
            Event::HandedOut(2),
            Event::HandedOut(2),
            Event::Call(0, 1, 65),
        ],
        Beside {
            subscribers: 192,
            events: &[Event::Late(0, 0, 65, 6), Event::Kept(2), Event::Kept(2)],
        },
        "45 Unsettled ChapterDiffers 2 2",
    ),
];

/// The verdict on a run at one site and the chapters of the one beside it, in which the first
/// client asked one subscriber, and got nothing.
fn told_of_chapters<R: Threads + Sync>(
    rt: &R,
    alloc: Global,
    case: &ChapterCase<'_>,
) -> Result<Option<Result<Settled, String>>, AllocError> {
    let (events, beside, _) = *case;
    let population = clean_rows(alloc, 192, &[])?;
    let run = Run {
        partitions: &[0],
        events,
        beside: Some(beside),
        calls: &[&[1]],
        got: &[],
    };
    told_of(rt, alloc, &population, run)
}

#[test]
fn chapters_that_are_causes(rt: HostRuntime) -> Result<(), Fail> {
    for case in &CHAPTERS {
        expect_cause(&rt, told_of_chapters(&rt, rt.alloc(), case)?, case.2)?;
    }
    Ok(())
}
