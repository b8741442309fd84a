//! What a settled run counts.

use super::told::told_of_calls;
use crate::events::{Event, Got};
use std::process::Abort;
use std::test::Fail;
use tatp_audits::Verdict;
use tatp_settle::Settled;

/// Events, calls and receipts of a run that is settled. The second case hands out chapters.
static SETTLED: [(&[Event], &[&[u64]], &[&[Got]]); 2] = [
    (
        &[
            Event::Call(0, 0, 1),
            Event::Moved(1),
            Event::Moved(3),
            Event::Moved(3),
            Event::Homeless(1, 0, 193),
            Event::Late(1, 2, 65, 1),
        ],
        CALLS,
        GOT,
    ),
    (
        &[
            Event::Kept(1),
            Event::Call(0, 0, 1),
            Event::Kept(1),
            Event::Moved(1),
            Event::Kept(0),
            Event::Moved(3),
            Event::Kept(3),
            Event::Moved(3),
            Event::Homeless(1, 0, 193),
            Event::Kept(0),
            Event::Late(1, 2, 65, 1),
            Event::Kept(1),
        ],
        CALLS,
        GOT,
    ),
];

const CALLS: &[&[u64]] = &[&[1], &[193, 7, 65]];

const GOT: &[&[Got]] = &[
    &[Got::Failed(0, 0, 1, 1, 1)],
    &[
        Got::Failed(1, 0, 1, 0, 1),
        Got::Refused(1, 1),
        Got::Failed(1, 2, 1, 2, 2),
    ],
];

/// What a settled run counts: three calls that read nothing and one refused, of one kind, and three
/// moves.
fn expect_counts(rt: &impl Abort, settled: &Settled) {
    assert_eq!(rt;
        (settled.completed(), settled.refused(), settled.moves()),
        (3, 1, 3)
    );
    assert_eq!(rt; settled.kinds(), [0, 0, 4, 0, 0, 0, 0]);
    let clean = Verdict::Clean {
        subscribers: 192,
        accesses: 192,
        facilities: 192,
        forwardings: 0,
    };
    assert_eq!(rt; settled.verdict(), clean);
}

#[test]
fn settled_runs(rt: HostRuntime) -> Result<(), Fail> {
    for (events, calls, got) in &SETTLED {
        match told_of_calls(&rt, rt.alloc(), events, calls, got)? {
            None => return Err("no run".into()),
            Some(Err(_)) => return Err("not settled".into()),
            Some(Ok(settled)) => expect_counts(&rt, &settled),
        }
    }
    Ok(())
}
