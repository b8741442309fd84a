//! What a run left is gathered and settled.
ghost use Rattle.std.specs.Prelude.{◌≡◌, ◌<◌, ◌^◌, IfOk, IfErr, length};
ghost use Rattle.tatp_tables.specs.Clean.{IsClean};
ghost use Rattle.tatp_logs.specs.Lists.{lists_of};
ghost use Rattle.tatp_settle.specs.Runs.{joined};
ghost use Rattle.tatp_bench.specs.SettledRuns.{run_left, SettlesRun, RefusesToSettleRun};

use crate::BenchFault;
use crate::chapters::join_chapters;
use crate::freeing::free_receipts;
use std::alloc::Global;
use std::thread::Threads;
use tatp_calls::Ask;
use tatp_extents::discard_all;
use tatp_logs::Receipts;
use tatp_settle::{NotGathered, NotSettled, Settled, gather, settle};
use tatp_tables::Rows;
use tatp_threads::RunOutcomeParts;

/// What a settled run counts, and the receipts of its clients.
#[derive(Drop)]
pub struct SettledRun {
    /// What it counts.
    pub settled: Settled,
    /// The receipts of each client.
    pub receipts: Vec<Receipts>,
}

/// Gathers what a run of the clients' lists of calls left, and settles it. The parts are consumed,
/// on a refusal too; the receipts of a settled run are given back.
pub fn settle_run<R: Threads + Sync>(
    rt: &R,
    alloc: Global,
    population: &Rows,
    parts: RunOutcomeParts<'_>,
    lists: &[Vec<Ask>],
) -> Result<SettledRun, BenchFault>
    requires clean { IsClean population.now }
    requires few { length (joined (lists_of lists.now)) < 2 ^ 64 }
    ensures settled { IfOk result
        (λ run. SettlesRun (run_left population.now parts.entry lists.now) run.settled) }
    ensures receipts { IfOk result (λ run. run.receipts.items ≡ parts.entry.receipts.items) }
    ensures refusal { IfErr result
        (RefusesToSettleRun (run_left population.now parts.entry lists.now)) }
{
    let RunOutcomeParts {
        sites,
        parcels,
        chapters,
        receipts,
    } = parts;
    let chapters = match join_chapters(alloc, chapters) {
        Ok(chapters) => chapters,
        Err(error) => {
            discard_all(sites);
            discard_all(parcels);
            return Err(BenchFault::from(error));
        }
    };
    let closed = match gather(alloc, sites, parcels, chapters) {
        Ok(closed) => closed,
        Err(
            NotGathered {
                error,
                sites,
                parcels,
                chapters,
            },
        ) => {
            discard_all(sites);
            discard_all(parcels);
            discard_all(chapters);
            return Err(BenchFault::from(error));
        }
    };
    match settle(rt, alloc, population, closed, receipts.as_slice(), lists) {
        Ok(settled) => Ok(SettledRun { settled, receipts }),
        Err(NotSettled { error, closed }) => {
            free_receipts(rt, alloc, receipts);
            closed.discard(rt);
            Err(BenchFault::from(error))
        }
    }
}
