//! Runs that are settled.

use std::process::Abort;
use std::sync::atomic::{AtomicU64, Ordering};
use std::test::*;
use tatp_bench::{BenchPlan, Progress, run_bench};
use tatp_debug::Snapshot;
use tatp_partition::SiteRefusal;
use tatp_tasks::Distribution;
use tatp_threads::{Gate, NoGate, RunOutcomeParts};

/// Counts first steps and ends, and adds up whose they are.
#[derive(Drop)]
struct Count {
    firsts: AtomicU64,
    clients_of_firsts: AtomicU64,
    ends: AtomicU64,
    clients_of_ends: AtomicU64,
}

impl Gate for Count {
    fn before_step(&self, _partition: u8, client: u64, pc: usize) {
        if pc == 0 {
            self.firsts.fetch_add(1, Ordering::SeqCst);
            self.clients_of_firsts.fetch_add(client, Ordering::SeqCst);
        }
    }

    fn after_end(&self, _partition: u8, client: u64) {
        self.ends.fetch_add(1, Ordering::SeqCst);
        self.clients_of_ends.fetch_add(client, Ordering::SeqCst);
    }

    fn after_look(&self, _partition: u8, _seen: &Result<Snapshot, SiteRefusal>) {}
}

impl Progress for Count {
    fn tell(&self, _line: &str) {}

    fn after_run(&self, _parts: &RunOutcomeParts<'_>) {}
}

/// 200 calls of each of four clients: 200 x (0 + 1 + 2 + 3) is 1200.
fn expect_all(rt: &impl Abort, gate: &Count) {
    let firsts = gate.firsts.load(Ordering::SeqCst);
    let ends = gate.ends.load(Ordering::SeqCst);
    assert_eq!(rt; (firsts, ends), (800, 800));
    let clients_of_firsts = gate.clients_of_firsts.load(Ordering::SeqCst);
    let clients_of_ends = gate.clients_of_ends.load(Ordering::SeqCst);
    assert_eq!(rt; (clients_of_firsts, clients_of_ends), (1200, 1200));
}

#[test]
fn each_call_begins_and_ends_under_the_gate(rt: HostRuntime) -> Result<(), Fail> {
    let plan = BenchPlan {
        subscribers: 130,
        partitions: 2,
        clients: 4,
        calls: 200,
        seed: 1,
        distribution: Distribution::Skewed,
        moves: 50,
        stops: 0,
        chapter: 10,
    };
    let gate = Count {
        firsts: AtomicU64::new(0),
        clients_of_firsts: AtomicU64::new(0),
        ends: AtomicU64::new(0),
        clients_of_ends: AtomicU64::new(0),
    };
    match run_bench(&rt, rt.alloc(), &plan, &gate) {
        Err(_) => return Err("not settled".into()),
        Ok(settled) => {
            assert_eq!(rt; (settled.completed(), settled.refused()), (800, 0));
        }
    }
    expect_all(&rt, &gate);
    Ok(())
}

#[test]
fn extents_move_while_calls_run(rt: HostRuntime) -> Result<(), Fail> {
    let plan = BenchPlan {
        subscribers: 6400,
        partitions: 2,
        clients: 1,
        calls: 1,
        seed: 1,
        distribution: Distribution::Skewed,
        moves: 50,
        stops: 0,
        chapter: 1000,
    };
    match run_bench(&rt, rt.alloc(), &plan, &NoGate) {
        Err(_) => Err("not settled".into()),
        Ok(settled) => {
            assert!(rt; settled.moves() > 0);
            Ok(())
        }
    }
}
