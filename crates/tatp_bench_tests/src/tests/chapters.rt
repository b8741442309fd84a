//! Chapters that executors keep while calls run.

use std::alloc::Global;
use std::sync::Wait;
use std::test::*;
use std::thread::Threads;
use tatp_audits::audit;
use tatp_bench::settle_run;
use tatp_extents::Chapter;
use tatp_settle_tests::events::{are_few, readings};
use tatp_settle_tests::rows::clean_rows;
use tatp_settle_tests::sites::module;
use tatp_threads::{NoGate, RunPlan, run_calls};

/// Whom three clients ask, of 130 subscribers: one who isn't there, and then five times one of
/// extent 1, three times one of extent 2, and one of extent 3.
static ASKED: [&[u64]; 3] = [&[131, 1, 65, 2, 64], &[66, 1, 1], &[129, 128]];

/// How many chapters there are of each extent, 0 to 3, and how many calls they have.
type Counts = [(u64, u64); 4];

/// How many chapters there are of an extent, and how many calls they have.
fn count(lists: &[Vec<Chapter>], extent: u32) -> (u64, u64) {
    let mut chapters: u64 = 0;
    let mut calls: u64 = 0;
    for list in lists {
        for chapter in list {
            if chapter.extent() == extent {
                chapters = chapters.saturating_add(1);
                calls = calls.saturating_add(chapter.entries().len() as u64);
            }
        }
    }
    (chapters, calls)
}

/// The chapters of a run, of which each has `chapter` calls or more, and how many calls were
/// completed once it is settled.
fn handed_out<R: Threads + Wait + Sync>(
    rt: &R,
    alloc: Global,
    chapter: u64,
) -> Result<(Counts, u64), Fail> {
    let loaded = module(alloc)?;
    let population = clean_rows(alloc, 130, &[])?;
    let rows = clean_rows(alloc, 130, &[])?;
    let lists = readings(alloc, &ASKED)?;
    if !are_few(&lists) || !audit(alloc, &population)?.is_clean() {
        return Err("no population".into());
    }
    if lists.is_empty() || lists.len() > 64 {
        return Err("no clients".into());
    }
    let plan = RunPlan {
        partitions: 2,
        lists: lists.as_slice(),
        moves: &[],
        stops: &[],
        chapter,
    };
    match run_calls(rt, alloc, &loaded, rows, plan, &NoGate) {
        Err(_) => Err("no run".into()),
        Ok(ran) => {
            let parts = ran.parts();
            let kept = &parts.chapters;
            let counts = [
                count(kept, 0),
                count(kept, 1),
                count(kept, 2),
                count(kept, 3),
            ];
            match settle_run(rt, alloc, &population, parts, &lists) {
                Err(_) => Err("not settled".into()),
                Ok(run) => Ok((counts, run.settled.completed())),
            }
        }
    }
}

/// How many calls a chapter has to have, and the chapters of the run.
const FULL: [(u64, Counts); 6] = [
    (0, [(1, 1), (5, 5), (3, 3), (1, 1)]),
    (1, [(1, 1), (5, 5), (3, 3), (1, 1)]),
    (2, [(0, 0), (2, 4), (1, 2), (0, 0)]),
    (3, [(0, 0), (1, 3), (1, 3), (0, 0)]),
    (5, [(0, 0), (1, 5), (0, 0), (0, 0)]),
    (6, [(0, 0), (0, 0), (0, 0), (0, 0)]),
];

// Each end is followed by a checkpoint where the log is full, and no other is made.
#[test]
fn full_logs_are_handed_out(rt: HostRuntime) -> Result<(), Fail> {
    let full = FULL;
    for (chapter, counts) in &full {
        let told = handed_out(&rt, rt.alloc(), *chapter)?;
        assert_eq!(rt; told, (*counts, 10));
    }
    Ok(())
}
