//! The chapters that a run leaves, under the executors that kept them.

use super::threads::spend;
use std::alloc::{AllocError, Global};
use std::test::*;
use tatp_calls::{Ask, Call};
use tatp_extents::Chapter;
use tatp_settle_tests::rows::clean_rows;
use tatp_settle_tests::sites::module;
use tatp_threads::{NoGate, RunOutcome, RunPlan, run_calls};

/// Whom the one client asks: two subscribers of extent 1, two of extent 2, two of extent 3, and
/// again two of extent 1.
static ASKED: [u64; 8] = [1, 2, 65, 66, 129, 130, 64, 1];

/// An executor's partition, and of a chapter that it kept the extent and how many calls it has.
type Kept = (usize, u32, usize);

/// The chapters that each executor kept, one after another.
fn kept(alloc: Global, lists: &[Vec<Chapter>]) -> Result<Vec<Kept>, AllocError> {
    let mut kept = Vec::new(alloc);
    for partition in 0..lists.len() {
        for chapter in &lists[partition] {
            kept.push((partition, chapter.extent(), chapter.entries().len()))?;
        }
    }
    Ok(kept)
}

/// The chapters of what a run leaves, which is spent.
fn kept_by(alloc: Global, ran: RunOutcome<'_>) -> Result<Vec<Kept>, AllocError> {
    let parts = ran.parts();
    let chapters = kept(alloc, &parts.chapters);
    spend(parts);
    chapters
}

// The extents 1 and 3 are in partition 0, and extent 2 is in partition 1.
#[test]
fn chapters_stand_under_the_executors_that_kept_them(rt: HostRuntime) -> Result<(), Fail> {
    let alloc = rt.alloc();
    let mut asks = Vec::new(alloc);
    for s_id in &ASKED {
        asks.push(Ask::Txn(Call::GetSubscriberData { s_id: *s_id }))?;
    }
    let lists = vec![in alloc; asks]?;
    let plan = RunPlan {
        partitions: 2,
        lists: lists.as_slice(),
        moves: &[],
        stops: &[],
        chapter: 2,
    };
    let loaded = module(alloc)?;
    let rows = clean_rows(alloc, 130, &[])?;
    let chapters = match run_calls(&rt, alloc, &loaded, rows, plan, &NoGate) {
        Err(_) => return Err("no run".into()),
        Ok(ran) => kept_by(alloc, ran)?,
    };
    let expected = [(0, 1, 2), (0, 3, 2), (0, 1, 2), (1, 2, 2)];
    assert_eq!(rt; chapters.as_slice(), expected.as_slice());
    Ok(())
}
