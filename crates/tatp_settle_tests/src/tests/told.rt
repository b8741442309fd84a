//! The verdict on a run: what it counts where it is settled, or the text of its first cause.
ghost use Rattle.std.specs.Prelude.{◌<◌, ◌^◌, length};
ghost use Rattle.tatp_tables.specs.Clean.{IsClean};
ghost use Rattle.tatp_logs.specs.Lists.{lists_of};
ghost use Rattle.tatp_settle.specs.Runs.{joined};

use crate::events::{Event, Got, Left, are_few, left_at, left_of, readings, receipts};
use crate::rows::clean_rows;
use crate::sites::{module, spend_parcels};
use std::alloc::{AllocError, Global};
use std::process::Abort;
use std::test::Fail;
use std::thread::Threads;
use tatp_audits::audit;
use tatp_calls::Ask;
use tatp_extents::{Chapter, discard_all};
use tatp_logs::Receipts;
use tatp_settle::{Closed, NotGathered, NotSettled, Settled, gather, settle};
use tatp_tables::Rows;

/// Another run, on a number of subscribers at one site.
#[derive(Clone, Copy)]
pub struct Beside<'a> {
    pub subscribers: u64,
    pub events: &'a [Event],
}

/// A run at the sites of these partitions, its events at the last of them, to which the chapters of
/// another run came; and for each client the subscribers whose data it asked, and what it got.
#[derive(Clone, Copy)]
pub struct Run<'a> {
    pub partitions: &'a [u8],
    pub events: &'a [Event],
    pub beside: Option<Beside<'a>>,
    pub calls: &'a [&'a [u64]],
    pub got: &'a [&'a [Got]],
}

/// What a settled run counts, or the text of why it isn't settled.
fn told<R: Threads + Sync>(
    rt: &R,
    alloc: Global,
    population: &Rows,
    closed: Closed,
    receipts: &[Receipts],
    calls: &[Vec<Ask>],
) -> Result<Result<Settled, String>, AllocError>
    requires clean { IsClean population.now }
    requires few { length (joined (lists_of calls.now)) < 2 ^ 64 }
{
    match settle(rt, alloc, population, closed, receipts, calls) {
        Ok(settled) => Ok(Ok(settled)),
        Err(NotSettled { error, closed }) => {
            closed.discard(rt);
            Ok(Err(format!(in alloc; "{error}")?))
        }
    }
}

/// The chapters of another run, none without one. None where one of its events did not happen.
fn chapters_of(
    alloc: Global,
    beside: Option<Beside<'_>>,
) -> Result<Option<Vec<Chapter>>, AllocError> {
    let Some(
        Beside {
            subscribers,
            events,
        },
    ) = beside
    else {
        return Ok(Some(Vec::new(alloc)));
    };
    let loaded = module(alloc)?;
    match left_of(alloc, &loaded, subscribers, &[0], events)? {
        None => Ok(None),
        Some(
            Left {
                sites,
                parcels,
                chapters,
            },
        ) => {
            discard_all(sites);
            spend_parcels(parcels);
            Ok(Some(chapters))
        }
    }
}

/// What is left of a run, gathered with chapters that come first. None where an extent is missing.
fn gathered(
    alloc: Global,
    left: Left<'_>,
    first: Vec<Chapter>,
) -> Result<Option<Closed>, AllocError> {
    let Left {
        sites,
        parcels,
        chapters: mut more,
    } = left;
    let mut chapters = first;
    if chapters.append(&mut more).is_err() {
        discard_all(sites);
        spend_parcels(parcels);
        discard_all(chapters);
        discard_all(more);
        return Err(AllocError);
    }
    more.destroy_empty();
    match gather(alloc, sites, parcels, chapters) {
        Ok(closed) => Ok(Some(closed)),
        Err(
            NotGathered {
                error: _,
                sites,
                parcels,
                chapters,
            },
        ) => {
            discard_all(sites);
            spend_parcels(parcels);
            discard_all(chapters);
            Ok(None)
        }
    }
}

/// What a run leaves, gathered. None where one of its events, or of those beside it, did not
/// happen, or an extent is missing.
fn closed(alloc: Global, run: Run<'_>) -> Result<Option<Closed>, AllocError> {
    let Some(chapters) = chapters_of(alloc, run.beside)? else {
        return Ok(None);
    };
    let loaded = match module(alloc) {
        Ok(loaded) => loaded,
        Err(error) => {
            discard_all(chapters);
            return Err(error);
        }
    };
    match left_at(alloc, &loaded, run.partitions, run.events) {
        Ok(Some(left)) => gathered(alloc, left, chapters),
        Ok(None) => {
            discard_all(chapters);
            Ok(None)
        }
        Err(error) => {
            discard_all(chapters);
            Err(error)
        }
    }
}

/// The verdict on a run from these rows. None where nothing is gathered of it, or the rows aren't
/// clean.
pub fn told_of<R: Threads + Sync>(
    rt: &R,
    alloc: Global,
    population: &Rows,
    run: Run<'_>,
) -> Result<Option<Result<Settled, String>>, AllocError> {
    let calls = readings(alloc, run.calls)?;
    let receipts = receipts(alloc, run.got)?;
    if !are_few(&calls) || !audit(alloc, population)?.is_clean() {
        return Ok(None);
    }
    match closed(alloc, run)? {
        None => Ok(None),
        Some(closed) => Ok(Some(told(rt, alloc, population, closed, &receipts, &calls)?)),
    }
}

/// The verdict on a run at one site, on the rows of 192 subscribers.
pub fn told_of_calls<'a, R: Threads + Sync>(
    rt: &R,
    alloc: Global,
    events: &'a [Event],
    calls: &'a [&'a [u64]],
    got: &'a [&'a [Got]],
) -> Result<Option<Result<Settled, String>>, AllocError> {
    let population = clean_rows(alloc, 192, &[])?;
    let run = Run {
        partitions: &[0],
        events,
        beside: None,
        calls,
        got,
    };
    told_of(rt, alloc, &population, run)
}

/// The run isn't settled, and this is the text of why.
pub fn expect_cause(
    rt: &impl Abort,
    told: Option<Result<Settled, String>>,
    text: &str,
) -> Result<(), Fail> {
    match told {
        None => Err("no run".into()),
        Some(Ok(_)) => Err("settled".into()),
        Some(Err(said)) => {
            assert_eq!(rt; said.as_str(), text);
            Ok(())
        }
    }
}
