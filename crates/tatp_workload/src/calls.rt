//! What the clients ask, drawn from random words by several threads.
ghost use Rattle.std.specs.Prelude.{◌≡◌, ◌≤◌, ◌<◌, IfOk, map};
ghost use denote.Param.Send.{IsSync};
ghost use Rattle.tatp_driver.specs.DrawnCalls.{next_calls};
ghost use Rattle.tatp_driver.specs.DrawnWords.{words_of};
ghost use Rattle.tatp_logs.specs.Lists.{lists_of};
ghost use Rattle.tatp_tasks.specs.Plans.{IsPlan};
ghost use Rattle.tatp_workload.specs.Drawn.{calls_drawn, calls_of_clients};

use std::alloc::{AllocError, Global};
use std::thread::{Threads, join};
use tatp_calls::Ask;
use tatp_driver::Driver;
use tatp_tasks::BenchPlan;

/// How often the clients are halved, where each half is drawn by a thread of its own, where one can
/// be made.
const HALVINGS: u32 = 3;

/// The next `count` calls of a driver. All memory is reserved before the first word is taken.
fn draw_list(alloc: Global, driver: Driver, count: u64) -> Result<Vec<Ask>, AllocError>
    ensures { IfOk result
        (λ list. list.items ≡ map Ask.Txn (next_calls driver.distribution driver.subscribers count
        (words_of driver.generator)).0) }
{
    let mut driver = driver;
    let mut list = Vec::with_capacity(alloc, count as usize)?;
    for _ in 0..count {
        list.push_reserved(Ask::Txn(driver.next_call()));
    }
    Ok(list)
}

/// What these clients ask, each by its number, drawn by this thread alone.
fn draw_in_turn(
    alloc: Global,
    plan: &BenchPlan,
    from: u64,
    to: u64,
) -> Result<Vec<Vec<Ask>>, AllocError>
    requires plan { IsPlan plan.now }
    requires some { from ≤ to }
    ensures { IfOk result (λ lists. lists_of lists.items ≡ calls_of_clients plan.now from to) }
{
    let mut lists = Vec::with_capacity(alloc, (to - from) as usize)?;
    for client in from..to {
        let driver = Driver::new(plan.seed, client, plan.subscribers, plan.distribution);
        lists.push_reserved(draw_list(alloc, driver, plan.calls)?);
    }
    Ok(lists)
}

/// What these clients ask.
#[cycle(halves)]
fn draw_lists<R: Threads + Sync>(
    rt: &R,
    alloc: Global,
    plan: &BenchPlan,
    from: u64,
    to: u64,
    halvings: u32,
) -> Result<Vec<Vec<Ask>>, AllocError>
    requires plan { IsPlan plan.now }
    requires some { from ≤ to }
    ensures { IfOk result (λ lists. lists_of lists.items ≡ calls_of_clients plan.now from to) }
{
    if halvings == 0 || to - from < 2 {
        return draw_in_turn(alloc, plan, from, to);
    }
    let middle = from + (to - from) / 2;
    let lower = || -> Result<Vec<Vec<Ask>>, AllocError>
        requires { IsSync R.row × IsPlan plan.now × (0 < halvings) × (from ≤ middle) }
        ensures { IfOk result
            (λ lists. lists_of lists.items ≡ calls_of_clients plan.entry.now from middle) }
    { draw_lists(rt, alloc, plan, from, middle, halvings - 1) };
    let upper = || -> Result<Vec<Vec<Ask>>, AllocError>
        requires { IsSync R.row × IsPlan plan.now × (0 < halvings) × (middle ≤ to) }
        ensures { IfOk result
            (λ lists. lists_of lists.items ≡ calls_of_clients plan.entry.now middle to) }
    { draw_lists(rt, alloc, plan, middle, to, halvings - 1) };
    let (front, back) = join(rt, lower, upper);
    let mut lists = front?;
    let mut rest = back?;
    lists.append(&mut rest)?;
    Ok(lists)
}

/// What each client asks: its calls, one after another.
pub(crate) fn draw_calls<R: Threads + Sync>(
    rt: &R,
    alloc: Global,
    plan: &BenchPlan,
) -> Result<Vec<Vec<Ask>>, AllocError>
    requires { IsPlan plan.now }
    ensures { IfOk result (λ lists. lists_of lists.items ≡ calls_drawn plan.now) }
{
    draw_lists(rt, alloc, plan, 0, plan.clients as u64, HALVINGS)
}
