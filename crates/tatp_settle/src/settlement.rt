//! What was gathered is settled.
ghost use Rattle.std.specs.Prelude.{◌≡◌, ◌<◌, ◌^◌, IfOk, IfErr, OnOk, length};
ghost use Rattle.tatp_tables.specs.Clean.{IsClean};
ghost use Rattle.tatp_settle.specs.Causes.{HasNoCause};
ghost use Rattle.tatp_logs.specs.Lists.{lists_of};
ghost use Rattle.tatp_settle.specs.Runs.{joined, run_of};
ghost use Rattle.tatp_settle.specs.Interleaving.{IsOneHistoryInAnyOrder};
ghost use Rattle.tatp_settle.specs.Settlements.{IsSettled, RefusesToSettle};

use crate::judgement::judge;
use crate::run::Run;
use crate::{Closed, NotSettled, SettleError, Settled};
use std::alloc::Global;
use std::thread::Threads;
use tatp_calls::Ask;
use tatp_logs::Receipts;
use tatp_tables::Rows;

/// Whether the run is one history: from the population, whose rows are clean, through all chapters
/// and the logs since in the order of stamp and extent, to the rows that are left; and each
/// client's receipts are its calls in that history. Refused, what was gathered comes back.
pub fn settle<R: Threads + Sync>(
    rt: &R,
    alloc: Global,
    population: &Rows,
    closed: Closed,
    receipts: &[Receipts],
    calls: &[Vec<Ask>],
) -> Result<Settled, NotSettled>
    requires clean { IsClean population.now }
    requires few { length (joined (lists_of calls.now)) < 2 ^ 64 }
    ensures settled { IfOk result
        (IsSettled (run_of population.now closed receipts.now calls.now)) }

    // Whatever order keeps that of each log, as the order in time of their appends does. It follows
    // from the clause above.
    ensures any_order { OnOk result
        (IsOneHistoryInAnyOrder (run_of population.now closed receipts.now calls.now)) }
    ensures no_cause { OnOk result
        (HasNoCause (run_of population.now closed receipts.now calls.now)) }
    ensures refusal { IfErr result (λ refused.
        RefusesToSettle (run_of population.now closed receipts.now calls.now) refused.error) }
    ensures back { IfErr result (λ refused. refused.closed ≡ closed) }
{
    let run = Run {
        population,
        closed: &closed,
        receipts,
        calls,
    };
    closed.what_holds();
    match judge(rt, alloc, &run) {
        Ok(settled) => {
            closed.discard(rt);
            Ok(settled)
        }
        Err(error) => Err(NotSettled { error, closed }),
    }
}
