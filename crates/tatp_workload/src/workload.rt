//! What is drawn for a run.
ghost use Rattle.std.specs.Prelude.{◌≡◌, IfOk};
ghost use denote.Param.Send.{IsSync};
ghost use Rattle.tatp_tables.specs.Clean.{IsClean};
ghost use Rattle.tatp_tasks.specs.Plans.{IsPlan};
ghost use Rattle.tatp_logs.specs.Lists.{lists_of};
ghost use Rattle.tatp_workload.specs.Drawn.{rows_drawn, calls_drawn, moves_drawn, stops_drawn};
ghost use Rattle.tatp_workload.specs.Workloads.{IsWorkload};

use crate::calls::draw_calls;
use crate::moves::{draw_moves, draw_stops};
use rand_pcg::Pcg64;
use std::alloc::{AllocError, Global};
use std::thread::{Threads, join};
use tatp_calls::Ask;
use tatp_extents::extent_count;
use tatp_population::generate;
use tatp_tables::Rows;
use tatp_tasks::BenchPlan;

/// What is drawn for a run: all that depends on its seed. [`generate_workload`] makes it.
#[derive(Drop)]
pub struct Workload {
    /// The population, beside which the run is settled.
    pub population: Rows,
    /// The population again, which the run consumes.
    pub rows: Rows,
    /// What each client asks, client 0 first.
    pub lists: Vec<Vec<Ask>>,
    /// What the mover does: extents, and the partitions to which they are to be moved.
    pub moves: Vec<(u32, u8)>,
    /// What the debugger does: the partitions that are to be stopped.
    pub stops: Vec<u8>,
}

/// The population of a plan.
fn draw_rows(alloc: Global, plan: &BenchPlan) -> Result<Rows, AllocError>
    requires { IsPlan plan.now }
    ensures drawn { IfOk result (λ rows. rows ≡ rows_drawn plan.now) }
    ensures clean { IfOk result (λ rows. IsClean rows) }
{
    generate(
        alloc,
        plan.subscribers,
        &mut Pcg64::new(plan.seed as u128, 0),
    )
}

/// What the mover does, and what the debugger does.
fn draw_work(alloc: Global, plan: &BenchPlan) -> Result<(Vec<(u32, u8)>, Vec<u8>), AllocError>
    requires { IsPlan plan.now }
    ensures moves { IfOk result (λ work. work.0.items ≡ moves_drawn plan.now) }
    ensures stops { IfOk result (λ work. work.1.items ≡ stops_drawn plan.now) }
{
    let extents = extent_count(plan.subscribers) as u32;
    let mut mover = Pcg64::new(plan.seed as u128, plan.clients as u128 + 1);
    let mut debugger = Pcg64::new(plan.seed as u128, plan.clients as u128 + 2);
    let moves = draw_moves(alloc, plan.moves, extents, plan.partitions, &mut mover)?;
    let stops = draw_stops(alloc, plan.stops, plan.partitions, &mut debugger)?;
    Ok((moves, stops))
}

/// The population, and what each client asks: each by a thread of its own, where one can be made.
fn draw_rows_beside_calls<R: Threads + Sync>(
    rt: &R,
    alloc: Global,
    plan: &BenchPlan,
) -> (Result<Rows, AllocError>, Result<Vec<Vec<Ask>>, AllocError>)
    requires { IsPlan plan.now }
    ensures rows { IfOk result.0 (λ rows. rows ≡ rows_drawn plan.now) }
    ensures calls { IfOk result.1 (λ lists. lists_of lists.items ≡ calls_drawn plan.now) }
{
    let rows = || -> Result<Rows, AllocError>
        requires { IsPlan plan.now }
        ensures { IfOk result (λ rows. rows ≡ rows_drawn plan.entry.now) }
    { draw_rows(alloc, plan) };
    let calls = || -> Result<Vec<Vec<Ask>>, AllocError>
        requires { IsSync R.row × IsPlan plan.now }
        ensures { IfOk result (λ lists. lists_of lists.items ≡ calls_drawn plan.entry.now) }
    { draw_calls(rt, alloc, plan) };
    join(rt, rows, calls)
}

/// Draws the population, the calls of the clients, the moves and the stops of a plan, each from a
/// stream of words of its own, by several threads, where they can be made. The calls are the same
/// whatever the partitions, the moves and the stops.
pub fn generate_workload<R: Threads + Sync>(
    rt: &R,
    alloc: Global,
    plan: &BenchPlan,
) -> Result<Workload, AllocError>
    requires { IsPlan plan.now }
    ensures { IfOk result (IsWorkload plan.now) }
{
    let population = || -> Result<Rows, AllocError>
        requires { IsPlan plan.now }
        ensures drawn { IfOk result (λ rows. rows ≡ rows_drawn plan.entry.now) }
        ensures clean { IfOk result (λ rows. IsClean rows) }
    { draw_rows(alloc, plan) };
    let others = || -> (Result<Rows, AllocError>, Result<Vec<Vec<Ask>>, AllocError>)
        requires { IsSync R.row × IsPlan plan.now }
        ensures rows { IfOk result.0 (λ rows. rows ≡ rows_drawn plan.entry.now) }
        ensures calls { IfOk result.1
            (λ lists. lists_of lists.items ≡ calls_drawn plan.entry.now) }
    { draw_rows_beside_calls(rt, alloc, plan) };
    let (population, (rows, lists)) = join(rt, population, others);
    let population = population?;
    let rows = rows?;
    let lists = lists?;
    let (moves, stops) = draw_work(alloc, plan)?;
    Ok(Workload {
        population,
        rows,
        lists,
        moves,
        stops,
    })
}
