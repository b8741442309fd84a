//! Calls, receipts and entries that are the cause why a run isn't settled.

use super::told::{expect_cause, told_of_calls};
use crate::events::{Event, Got};
use std::test::Fail;

/// Events, calls, receipts, and the text of the cause.
type Case<'a> = (&'a [Event], &'a [&'a [u64]], &'a [&'a [Got]], &'a str);

/// Calls without their receipts, entries without theirs, and two entries of one call.
static LACKING: [Case<'static>; 8] = [
    (
        &[],
        &[&[1, 1], &[1]],
        &[&[Got::Failed(0, 0, 1, 1, 1)], &[]],
        "45 Unsettled CallMissing 0 1",
    ),
    (
        &[],
        &[&[]],
        &[&[Got::Refused(0, 0)]],
        "45 Unsettled CallMissing 0 0",
    ),
    (
        &[],
        &[&[1]],
        &[&[Got::Refused(1, 0)]],
        "45 Unsettled CallMissing 0 0",
    ),
    (
        &[],
        &[&[1]],
        &[&[Got::Refused(0, 1)]],
        "45 Unsettled CallMissing 0 0",
    ),
    (
        &[Event::Call(0, 0, 1)],
        &[&[], &[1]],
        &[],
        "45 Unsettled CallMissing 1 0",
    ),
    (
        &[Event::Call(1, 0, 1), Event::Call(0, 1, 65)],
        &[],
        &[],
        "45 Unsettled ReceiptMissing 0 1",
    ),
    (
        &[Event::Call(0, 0, 1), Event::Call(0, 0, 65)],
        &[&[1]],
        &[&[Got::Failed(0, 0, 1, 1, 1)]],
        "45 Unsettled ReceiptMissing 0 0",
    ),
    (
        &[Event::Call(1, 0, 1)],
        &[&[1]],
        &[&[Got::Failed(0, 0, 1, 1, 1)]],
        "45 Unsettled ReceiptMissing 1 0",
    ),
];

/// Receipts and asks that aren't those of the call's entry.
static DIFFERING: [Case<'static>; 7] = [
    (
        &[Event::Call(0, 0, 1)],
        &[&[1]],
        &[&[Got::Failed(0, 0, 2, 1, 1)]],
        "45 Unsettled ReplyDiffers 0 0",
    ),
    (
        &[Event::Call(0, 0, 1)],
        &[&[1]],
        &[&[Got::Failed(0, 0, 1, 2, 1)]],
        "45 Unsettled ReplyDiffers 0 0",
    ),
    (
        &[Event::Call(0, 0, 1)],
        &[&[1]],
        &[&[Got::Failed(0, 0, 1, 1, 2)]],
        "45 Unsettled ReplyDiffers 0 0",
    ),
    (
        &[Event::Call(0, 0, 1)],
        &[&[2]],
        &[&[Got::Failed(0, 0, 1, 1, 1)]],
        "45 Unsettled ReplyDiffers 0 0",
    ),
    (
        &[Event::Call(0, 0, 1)],
        &[&[1]],
        &[&[Got::Refused(0, 0)]],
        "45 Unsettled ReplyDiffers 0 0",
    ),
    (
        &[],
        &[&[1]],
        &[&[Got::Failed(0, 0, 1, 1, 1)]],
        "45 Unsettled ReplyDiffers 0 0",
    ),
    // The stamp of 0 1 falls.
    (
        &[
            Event::Late(0, 0, 65, 6),
            Event::Call(0, 1, 1),
            Event::Call(1, 1, 2),
            Event::Call(1, 0, 3),
        ],
        &[&[65, 1], &[3, 2]],
        &[
            &[Got::Failed(0, 0, 1, 2, 7), Got::Failed(0, 1, 1, 1, 1)],
            &[Got::Refused(1, 0), Got::Refused(1, 1)],
        ],
        "45 Unsettled ReplyDiffers 1 0",
    ),
];

/// Stamps that don't rise, and calls without a home whose key names a subscriber.
static STAMPED: [Case<'static>; 4] = [
    (
        &[Event::Late(0, 0, 65, 6), Event::Call(0, 1, 1)],
        &[&[65, 1]],
        &[&[Got::Failed(0, 0, 1, 2, 7), Got::Failed(0, 1, 1, 1, 1)]],
        "45 Unsettled StampOrder 0 1",
    ),
    (
        &[Event::Call(0, 0, 65), Event::Call(0, 1, 1)],
        &[&[65, 1]],
        &[&[Got::Failed(0, 0, 1, 2, 1), Got::Failed(0, 1, 1, 1, 1)]],
        "45 Unsettled StampOrder 0 1",
    ),
    // The call 0 0 has a home.
    (
        &[
            Event::Homeless(0, 0, 1),
            Event::Call(0, 2, 1),
            Event::Call(1, 0, 65),
            Event::Call(1, 1, 129),
        ],
        &[&[1, 5, 1], &[65, 129]],
        &[
            &[
                Got::Failed(0, 0, 1, 0, 1),
                Got::Refused(0, 1),
                Got::Failed(0, 2, 1, 1, 1),
            ],
            &[Got::Failed(1, 0, 1, 2, 1), Got::Failed(1, 1, 1, 3, 1)],
        ],
        "45 Unsettled StampOrder 0 2",
    ),
    (
        &[
            Event::Homeless(1, 0, 1),
            Event::Homeless(0, 0, 193),
            Event::Homeless(0, 1, 2),
        ],
        &[&[193, 2], &[1]],
        &[
            &[Got::Failed(0, 0, 1, 0, 2), Got::Failed(0, 1, 1, 0, 3)],
            &[Got::Failed(1, 0, 1, 0, 1)],
        ],
        "45 Unsettled HasHome 0 1",
    ),
];

#[test]
fn calls_that_are_causes(rt: HostRuntime) -> Result<(), Fail> {
    for cases in [&LACKING[..], &DIFFERING[..], &STAMPED[..]] {
        for (events, calls, got, text) in cases {
            let told = told_of_calls(&rt, rt.alloc(), events, calls, got)?;
            expect_cause(&rt, told, text)?;
        }
    }
    Ok(())
}
