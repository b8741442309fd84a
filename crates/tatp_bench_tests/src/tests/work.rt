//! What the threads of a run do with the work of a plan, by what they leave.
ghost use Rattle.tatp_tasks.specs.Plans.{IsPlan};

use std::alloc::Global;
use std::sync::Wait;
use std::test::*;
use std::thread::Threads;
use tatp_bench::{BenchPlan, Work, Workload, generate_workload, run_work, settle_run};
use tatp_logs::{ReceiptRef, Receipts};
use tatp_partition::Site;
use tatp_procs::standard;
use tatp_settle_tests::events::are_few;
use tatp_tasks::Distribution;
use tatp_threads::{NoGate, RunOutcomeParts, RunPlan};

/// One call on 100 extents, beside which extents are moved and partitions stopped.
const MOVED: BenchPlan = BenchPlan {
    subscribers: 6400,
    partitions: 3,
    clients: 1,
    calls: 1,
    seed: 1,
    distribution: Distribution::Uniform,
    moves: 50,
    stops: 30,
    chapter: 1000,
};

/// 60 calls on the one extent there is.
const LOGGED: BenchPlan = BenchPlan {
    subscribers: 64,
    partitions: 2,
    clients: 3,
    calls: 20,
    seed: 1,
    distribution: Distribution::Uniform,
    moves: 0,
    stops: 0,
    chapter: 7,
};

/// How often the sites of partitions 0, 1 and 2 were stopped.
fn stops_made(sites: &[Site<'_>]) -> (u64, u64, u64) {
    let mut made: (u64, u64, u64) = (0, 0, 0);
    for site in sites {
        match site.partition() {
            0 => made.0 = site.stops(),
            1 => made.1 = site.stops(),
            2 => made.2 = site.stops(),
            _ => {}
        }
    }
    made
}

/// How many chapters the executors kept, and how many of these have `calls` calls.
fn chapters_kept(parts: &RunOutcomeParts<'_>, calls: usize) -> (u64, u64) {
    let mut kept: u64 = 0;
    let mut full: u64 = 0;
    for list in &parts.chapters {
        for chapter in list {
            kept = kept.saturating_add(1);
            if chapter.entries().len() == calls {
                full = full.saturating_add(1);
            }
        }
    }
    (kept, full)
}

/// The extent of the first call of the first client.
fn first_asked(receipts: &[Receipts]) -> Option<u32> {
    match receipts.first()?.get(0) {
        Some(ReceiptRef::Done { extent, .. }) => Some(extent),
        _ => None,
    }
}

/// What is seen of the work of a plan.
#[derive(Drop)]
struct Seen {
    /// How often partitions 0, 1 and 2 were stopped.
    stops: (u64, u64, u64),
    /// How often extents were moved.
    moves: u64,
    /// How many chapters were kept, and how many of these have the plan's number of calls.
    chapters: (u64, u64),
    /// Whether the first call's extent was to be moved: while the call runs it can't be.
    may_be_held: bool,
}

/// Runs the work of a plan, and settles what the run left.
fn seen_of<R: Threads + Wait + Sync>(rt: &R, alloc: Global, plan: &BenchPlan) -> Result<Seen, Fail>
    requires { IsPlan plan.now }
{
    let loaded = standard(alloc)?;
    let Workload {
        population,
        rows,
        lists,
        moves,
        stops,
    } = generate_workload(rt, alloc, plan)?;
    if !are_few(&lists) {
        return Err("too many calls".into());
    }
    let work = Work {
        loaded: &loaded,
        rows,
        run: RunPlan {
            partitions: plan.partitions,
            lists: lists.as_slice(),
            moves: moves.as_slice(),
            stops: stops.as_slice(),
            chapter: plan.chapter,
        },
    };
    match run_work(rt, alloc, plan, work, &NoGate) {
        Err(_) => Err("no run".into()),
        Ok(ran) => {
            let parts = ran.parts();
            let stops = stops_made(&parts.sites);
            let chapters = chapters_kept(&parts, plan.chapter as usize);
            let asked = first_asked(&parts.receipts);
            let may_be_held = moves.iter().any(|step| Some(step.0) == asked);
            match settle_run(rt, alloc, &population, parts, lists.as_slice()) {
                Err(_) => Err("not settled".into()),
                Ok(run) => Ok(Seen {
                    stops,
                    moves: run.settled.moves(),
                    chapters,
                    may_be_held,
                }),
            }
        }
    }
}

// 37 of the 50 moves are to another partition than the extent is in. Drawn by the published
// generator; a run that leaves out some of them, or stops, leaves other numbers.
#[test]
fn extents_are_moved_and_partitions_stopped_as_drawn(rt: HostRuntime) -> Result<(), Fail> {
    let seen = seen_of(&rt, rt.alloc(), &MOVED)?;
    assert!(rt; !seen.may_be_held);
    assert_eq!(rt; (seen.stops, seen.moves), ((9, 14, 7), 37));
    Ok(())
}

// 8 times 7 calls are handed out, and 4 are left.
#[test]
fn logs_are_handed_out_at_the_plans_number_of_calls(rt: HostRuntime) -> Result<(), Fail> {
    let seen = seen_of(&rt, rt.alloc(), &LOGGED)?;
    assert_eq!(rt; seen.chapters, (8, 8));
    assert_eq!(rt; (seen.stops, seen.moves), ((0, 0, 0), 0));
    Ok(())
}
