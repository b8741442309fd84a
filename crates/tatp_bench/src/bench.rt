//! A run of the benchmark.
ghost use Rattle.std.specs.Prelude.{◌≡◌, ◌+◌, ◌*◌, IfOk, IfErr};
ghost use Rattle.tatp_tables.specs.Clean.{IsClean};
ghost use Rattle.tatp_tasks.specs.Plans.{IsPlan};
ghost use Rattle.tatp_logs.specs.Lists.{lists_of};
ghost use Rattle.tatp_workload.specs.Drawn.{rows_drawn, calls_drawn};
ghost use Rattle.tatp_workload.specs.Workloads.{IsWorkload};
ghost use Rattle.tatp_bench.specs.Benching.{SettlesPlan, ReceivesPlan, RefusesBench, kinds_drawn};
ghost use Rattle.tatp_bench.specs.Works.{IsWorkOf};

use crate::freeing::{free_calls, free_receipts};
use crate::{BenchFault, BenchPlan, Progress, SettledRun, Work, run_work, settle_run};
use std::alloc::Global;
use std::sync::Wait;
use std::thread::Threads;
use tatp_calls::Ask;
use tatp_logs::Receipts;
use tatp_procs::standard;
use tatp_settle::Settled;
use tatp_tables::Rows;
use tatp_threads::RunPlan;
use tatp_workload::{Workload, generate_workload};

/// Runs the work of a plan, and settles beside its population what the run left.
fn run_and_settle<R: Threads + Wait + Sync, P: Progress + Sync>(
    rt: &R,
    alloc: Global,
    plan: &BenchPlan,
    population: &Rows,
    work: Work<'_, '_>,
    progress: &P,
) -> Result<SettledRun, BenchFault>
    requires plan { IsPlan plan.now }
    requires population { population.now ≡ rows_drawn plan.now }
    requires clean { IsClean (rows_drawn plan.now) }
    requires work { IsWorkOf plan.now work }
    ensures settled { IfOk result
        (λ run. ReceivesPlan plan.now run.receipts.items run.settled) }
    ensures kinds { IfOk result (λ run. run.settled.kinds ≡ kinds_drawn plan.now) }
    ensures calls { IfOk result (λ run. run.settled.completed + run.settled.refused
        ≡ plan.now.clients * plan.now.calls) }
    ensures refusal { IfErr result (RefusesBench plan.now) }
{
    let lists = work.run.lists;
    match run_work(rt, alloc, plan, work, progress) {
        Err(fault) => Err(fault),
        Ok(ran) => {
            let parts = ran.parts();
            progress.after_run(&parts);
            settle_run(rt, alloc, population, parts, lists)
        }
    }
}

/// What a settled run of a plan counts, and what its clients asked and received.
#[derive(Drop)]
pub struct BenchRun {
    pub(crate) settled: Settled,
    pub(crate) lists: Vec<Vec<Ask>>,
    pub(crate) receipts: Vec<Receipts>,
}

impl BenchRun {
    /// Spends it: what it counts. The clients' lists are freed, by several threads.
    pub fn settled<R: Threads + Sync>(self, rt: &R, alloc: Global) -> Settled
        ensures { result ≡ self.settled }
    {
        let BenchRun {
            settled,
            lists,
            receipts,
        } = self;
        free_calls(rt, alloc, lists);
        free_receipts(rt, alloc, receipts);
        settled
    }
}

/// Runs what was drawn for a plan under the standard module, by threads that `progress` watches,
/// and settles what the run left. No clause says which run of the plan it was, since threads may
/// meet in any order: [`settle_run`] says of the run at hand that it is settled, or why it isn't.
pub fn run_drawn<R: Threads + Wait + Sync, P: Progress + Sync>(
    rt: &R,
    alloc: Global,
    plan: &BenchPlan,
    drawn: Workload,
    progress: &P,
) -> Result<BenchRun, BenchFault>
    requires plan { IsPlan plan.now }
    requires drawn { IsWorkload plan.now drawn }
    ensures settled { IfOk result
        (λ run. ReceivesPlan plan.now run.receipts.items run.settled) }
    ensures asked { IfOk result (λ run. lists_of run.lists.items ≡ calls_drawn plan.now) }
    ensures kinds { IfOk result (λ run. run.settled.kinds ≡ kinds_drawn plan.now) }
    ensures calls { IfOk result (λ run. run.settled.completed + run.settled.refused
        ≡ plan.now.clients * plan.now.calls) }
    ensures refusal { IfErr result (RefusesBench plan.now) }
{
    let loaded = standard(alloc)?;
    let Workload {
        population,
        rows,
        lists,
        moves,
        stops,
    } = drawn;
    let work = Work {
        loaded: &loaded,
        rows,
        run: RunPlan {
            partitions: plan.partitions,
            lists: lists.as_slice(),
            moves: moves.as_slice(),
            stops: stops.as_slice(),
            chapter: plan.chapter,
        },
    };
    match run_and_settle(rt, alloc, plan, &population, work, progress) {
        Err(fault) => {
            free_calls(rt, alloc, lists);
            Err(fault)
        }
        Ok(SettledRun { settled, receipts }) => Ok(BenchRun {
            settled,
            lists,
            receipts,
        }),
    }
}

/// Runs the benchmark: draws the population and each client's calls from the plan's seed, runs the
/// calls by threads while extents move and partitions stop, and settles what the run left. All
/// draws are made before the threads of the run start.
pub fn run_bench<R: Threads + Wait + Sync, P: Progress + Sync>(
    rt: &R,
    alloc: Global,
    plan: &BenchPlan,
    progress: &P,
) -> Result<Settled, BenchFault>
    requires { IsPlan plan.now }
    ensures settled { IfOk result (SettlesPlan plan.now) }
    ensures kinds { IfOk result (λ settled. settled.kinds ≡ kinds_drawn plan.now) }
    ensures calls { IfOk result
        (λ settled. settled.completed + settled.refused ≡ plan.now.clients * plan.now.calls) }
    ensures refusal { IfErr result (RefusesBench plan.now) }
{
    let drawn = generate_workload(rt, alloc, plan)?;
    let run = run_drawn(rt, alloc, plan, drawn, progress)?;
    Ok(run.settled(rt, alloc))
}
