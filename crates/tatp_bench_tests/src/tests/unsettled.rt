//! Runs that `bench` doesn't settle, each with its own cause.

use std::alloc::{AllocError, Global};
use std::test::*;
use std::thread::Threads;
use tatp_audits::{Verdict, audit};
use tatp_bench::{BenchFault, SettledRun, settle_run};
use tatp_extents::discard_all;
use tatp_settle::Unsettled;
use tatp_settle_tests::events::{Event, Left, are_few, left_at, readings};
use tatp_settle_tests::rows::clean_rows;
use tatp_settle_tests::sites::{module, spend_parcels};
use tatp_threads::RunOutcomeParts;

/// The verdict on a run at one site, in which the first client asked one subscriber and got
/// nothing. None where one of its events did not happen.
fn told_of<R: Threads + Sync>(
    rt: &R,
    alloc: Global,
    events: &[Event],
) -> Result<Option<Result<SettledRun, BenchFault>>, AllocError> {
    let population = clean_rows(alloc, 192, &[])?;
    let calls = readings(alloc, &[&[1]])?;
    if !are_few(&calls) || !audit(alloc, &population)?.is_clean() {
        return Ok(None);
    }
    let loaded = module(alloc)?;
    match left_at(alloc, &loaded, &[0], events)? {
        None => Ok(None),
        Some(
            Left {
                sites,
                parcels,
                chapters,
            },
        ) => {
            let mut lists = Vec::new(alloc);
            if let Err(refused) = lists.push(chapters) {
                discard_all(refused.value);
                lists.destroy_empty();
                discard_all(sites);
                spend_parcels(parcels);
                return Err(AllocError);
            }
            let parts = RunOutcomeParts {
                sites,
                parcels,
                receipts: Vec::new(alloc),
                chapters: lists,
            };
            Ok(Some(settle_run(rt, alloc, &population, parts, &calls)))
        }
    }
}

/// Events, and the text of the fault.
static UNSETTLED: [(&[Event], &str); 5] = [
    (&[Event::Kept(2), Event::Lost(2)], "44 ExtentMissing 2"),
    (&[Event::HandedOut(2)], "45 Unsettled ChapterMissing 2 0"),
    (&[Event::Kept(2)], "45 Unsettled CallMissing 0 0"),
    (&[Event::Taken(2)], "45 Unsettled ParcelLeft 2"),
    (&[], "45 Unsettled CallMissing 0 0"),
];

#[test]
fn runs_that_are_not_settled(rt: HostRuntime) -> Result<(), Fail> {
    for (events, text) in &UNSETTLED {
        match told_of(&rt, rt.alloc(), events)? {
            None => return Err("no run".into()),
            Some(Ok(_)) => return Err("settled".into()),
            Some(Err(fault)) => {
                let said = format!(in rt.alloc(); "{fault}")?;
                assert_eq!(rt; said.as_str(), *text);
            }
        }
    }
    Ok(())
}

// No run here leaves rows that aren't clean: what is said of them is seen of the fault alone.
#[test]
fn the_verdict_on_rows_that_are_not_clean_is_told(rt: HostRuntime) -> Result<(), Fail> {
    let fault = BenchFault::Unsettled(Unsettled::Audit(Verdict::Counts(7)));
    let said = format!(in rt.alloc(); "{fault}")?;
    assert_eq!(rt; said.as_str(), "45 Unsettled Audit A6 7");
    Ok(())
}
