//! What was drawn for a plan is run by threads.
ghost use Rattle.std.specs.Prelude.{◌≡◌, ◌⊎◌, IfOk, IfErr, vec_len};
ghost use Rattle.tatp_tables.specs.Clean.{IsClean};
ghost use Rattle.tatp_workload.specs.Drawn.{rows_drawn};
ghost use Rattle.tatp_tasks.specs.Plans.{IsPlan};
ghost use Rattle.tatp_bench.specs.Works.{IsWorkOf};

use crate::{BenchFault, BenchPlan};
use std::alloc::Global;
use std::sync::Wait;
use std::thread::Threads;
use tatp_loader::Loaded;
use tatp_tables::Rows;
use tatp_threads::{Gate, RunOutcome, RunPlan, RunRefusal, run_clean_calls};

/// What the threads of a run are handed.
pub struct Work<'m, 'w> {
    /// The module of the procedures.
    pub loaded: &'m Loaded,
    /// The rows that are opened.
    pub rows: Rows,
    /// What the threads are to do.
    pub run: RunPlan<'w>,
}

/// Why a plan's calls aren't run: drawn rows and calls are never refused.
fn fault_of(refusal: RunRefusal) -> BenchFault
    requires { (refusal ≡ RunRefusal.NoMemory) ⊎ (refusal ≡ RunRefusal.NoThread) }
    ensures { ((refusal ≡ RunRefusal.NoMemory) × (result ≡ BenchFault.NoMemory))
        ⊎ ((refusal ≡ RunRefusal.NoThread) × (result ≡ BenchFault.NoThread)) }
{
    match refusal {
        RunRefusal::NoMemory => BenchFault::NoMemory,
        RunRefusal::NoThread => BenchFault::NoThread,
        _ => unreachable!(),
    }
}

/// Runs the work of a plan by threads that the gate watches, and returns the result, which
/// [`settle_run`](crate::settle_run) settles. The plan is what the clauses name; all that the
/// threads get is in the work. No clause says what they did with it: that they move, stop and hand
/// out as it asks is tested.
pub fn run_work<'m, R: Threads + Wait + Sync, G: Gate + Sync>(
    rt: &R,
    alloc: Global,
    plan: &BenchPlan,
    work: Work<'m, '_>,
    gate: &G,
) -> Result<RunOutcome<'m>, BenchFault>
    requires plan { IsPlan plan.now }
    requires work { IsWorkOf plan.now work }
    requires clean { IsClean (rows_drawn plan.now) }
    ensures sites { IfOk result (λ ran. vec_len ran.parts.sites ≡ plan.now.partitions) }
    ensures receipts { IfOk result (λ ran. vec_len ran.parts.receipts ≡ plan.now.clients) }
    ensures refusal { IfErr result
        (λ fault. (fault ≡ BenchFault.NoMemory) ⊎ (fault ≡ BenchFault.NoThread)) }
{
    let Work { loaded, rows, run } = work;
    match run_clean_calls(rt, alloc, loaded, rows, run, gate) {
        Err(refusal) => Err(fault_of(refusal)),
        Ok(ran) => Ok(ran),
    }
}
