//! A run whose gate holds the first step.

use std::sync::atomic::{AtomicU64, Ordering};
use std::test::*;
use std::thread;
use std::time::{Clock, Duration};
use tatp_bench::{BenchPlan, Progress, run_bench};
use tatp_debug::Snapshot;
use tatp_partition::SiteRefusal;
use tatp_tasks::Distribution;
use tatp_threads::{Gate, RunOutcomeParts};

/// Holds the first step of the run, in whichever partition it comes, until a call ends in the other
/// one.
#[derive(Drop)]
struct HoldFirst<'a, R: Clock> {
    clock: &'a R,
    /// How many steps have come.
    steps: AtomicU64,
    /// How many calls ended in partition 0.
    ends_in_first: AtomicU64,
    /// How many calls ended in partition 1.
    ends_in_second: AtomicU64,
    /// Whether the first step was let go while none had ended in the other partition.
    late: AtomicU64,
}

impl<R: Clock> Gate for HoldFirst<'_, R> {
    fn before_step(&self, partition: u8, _client: u64, _pc: usize) {
        if self.steps.fetch_add(1, Ordering::SeqCst) != 0 {
            return;
        }
        let others = if partition == 0 {
            &self.ends_in_second
        } else {
            &self.ends_in_first
        };
        for _ in 0..20_000 {
            if others.load(Ordering::SeqCst) > 0 {
                return;
            }
            thread::sleep(self.clock, Duration::from_millis(1));
        }
        self.late.store(1, Ordering::SeqCst);
    }

    fn after_end(&self, partition: u8, _client: u64) {
        let own = if partition == 0 {
            &self.ends_in_first
        } else {
            &self.ends_in_second
        };
        own.fetch_add(1, Ordering::SeqCst);
    }

    fn after_look(&self, _partition: u8, _seen: &Result<Snapshot, SiteRefusal>) {}
}

impl<R: Clock> Progress for HoldFirst<'_, R> {
    fn tell(&self, _line: &str) {}

    fn after_run(&self, _parts: &RunOutcomeParts<'_>) {}
}

// All calls by one thread, or under one lock, are late here.
#[test]
fn a_partition_goes_on_while_the_first_step_is_held(rt: HostRuntime) -> Result<(), Fail> {
    let plan = BenchPlan {
        subscribers: 130,
        partitions: 2,
        clients: 64,
        calls: 1,
        seed: 1,
        distribution: Distribution::Uniform,
        moves: 0,
        stops: 0,
        chapter: 1000,
    };
    let gate = HoldFirst {
        clock: &rt,
        steps: AtomicU64::new(0),
        ends_in_first: AtomicU64::new(0),
        ends_in_second: AtomicU64::new(0),
        late: AtomicU64::new(0),
    };
    match run_bench(&rt, rt.alloc(), &plan, &gate) {
        Err(_) => return Err("not settled".into()),
        Ok(settled) => {
            assert_eq!(rt; (settled.completed(), settled.refused()), (64, 0));
        }
    }
    assert_eq!(rt; gate.late.load(Ordering::SeqCst), 0);
    Ok(())
}
