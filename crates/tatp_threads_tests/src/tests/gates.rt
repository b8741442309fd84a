//! Runs under gates that hold a second step or an end.

use super::threads::receipts_of_run;
use std::alloc::{AllocError, Global};
use std::process::Abort;
use std::sync::atomic::{AtomicU64, Ordering};
use std::test::*;
use std::thread;
use std::time::{Clock, Duration};
use tatp_calls::{Ask, Call};
use tatp_debug::Snapshot;
use tatp_partition::SiteRefusal;
use tatp_threads::Gate;

/// A client that reads one subscriber.
fn reading(alloc: Global, s_id: u64) -> Result<Vec<Ask>, AllocError> {
    Ok(vec![in alloc; Ask::Txn(Call::GetSubscriberData { s_id })]?)
}

/// Holds client 0 before its second step until client 1 is answered.
#[derive(Drop)]
struct HoldSecond<'a, R: Clock> {
    clock: &'a R,
    /// Whether client 1 was answered.
    answered: AtomicU64,
    /// Whether client 0 was let go before that.
    late: AtomicU64,
    ends: AtomicU64,
}

impl<R: Clock> Gate for HoldSecond<'_, R> {
    fn before_step(&self, _partition: u8, client: u64, pc: usize) {
        if client != 0 || pc != 1 {
            return;
        }
        for _ in 0..20_000 {
            if self.answered.load(Ordering::SeqCst) == 1 {
                return;
            }
            thread::sleep(self.clock, Duration::from_millis(1));
        }
        self.late.store(1, Ordering::SeqCst);
    }

    fn after_end(&self, _partition: u8, client: u64) {
        self.ends.fetch_add(1, Ordering::SeqCst);
        if client == 1 {
            self.answered.store(1, Ordering::SeqCst);
        }
    }

    fn after_look(&self, _partition: u8, _seen: &Result<Snapshot, SiteRefusal>) {}
}

// Two executors and two partitions at once: all calls by one thread, or under one lock, are late
// here. A gate that isn't called before a second step counts no step.
#[test]
fn a_partition_goes_on_while_a_second_step_is_held(rt: HostRuntime) -> Result<(), Fail> {
    let alloc = rt.alloc();
    let lists = vec![in alloc; reading(alloc, 1)?, reading(alloc, 65)?]?;
    let gate = HoldSecond {
        clock: &rt,
        answered: AtomicU64::new(0),
        late: AtomicU64::new(0),
        ends: AtomicU64::new(0),
    };
    let receipts = receipts_of_run(&rt, alloc, lists.as_slice(), &gate)?;
    assert_eq!(rt; receipts.as_slice(), [1, 1].as_slice());
    let late = gate.late.load(Ordering::SeqCst);
    let ends = gate.ends.load(Ordering::SeqCst);
    assert_eq!(rt; (late, ends), (0, 2));
    Ok(())
}

/// Holds each end, but the last, of a client's calls until its next call makes its first step.
#[derive(Drop)]
struct HoldEnds<'a, R: Clock> {
    clock: &'a R,
    /// How many calls the client makes.
    calls: u64,
    firsts: AtomicU64,
    ends: AtomicU64,
    /// Whether an end was let go before that.
    late: AtomicU64,
}

impl<R: Clock> Gate for HoldEnds<'_, R> {
    fn before_step(&self, _partition: u8, _client: u64, pc: usize) {
        if pc == 0 {
            self.firsts.fetch_add(1, Ordering::SeqCst);
        }
    }

    fn after_end(&self, _partition: u8, _client: u64) {
        let before = self.ends.fetch_add(1, Ordering::SeqCst);
        let ended = before.saturating_add(1);
        if ended >= self.calls {
            return;
        }
        for _ in 0..20_000 {
            if self.firsts.load(Ordering::SeqCst) > ended {
                return;
            }
            thread::sleep(self.clock, Duration::from_millis(1));
        }
        self.late.store(1, Ordering::SeqCst);
    }

    fn after_look(&self, _partition: u8, _seen: &Result<Snapshot, SiteRefusal>) {}
}

// Each call is in another partition than the one before. Where the gate sees an end before
// the reply is in the slot, the client asks nothing more while the end is held.
#[test]
fn an_end_is_told_once_the_reply_can_be_taken(rt: HostRuntime) -> Result<(), Fail> {
    let alloc = rt.alloc();
    let mut asks = reading(alloc, 1)?;
    asks.push(Ask::Txn(Call::GetSubscriberData { s_id: 65 }))?;
    asks.push(Ask::Txn(Call::GetSubscriberData { s_id: 2 }))?;
    let lists = vec![in alloc; asks]?;
    let gate = HoldEnds {
        clock: &rt,
        calls: 3,
        firsts: AtomicU64::new(0),
        ends: AtomicU64::new(0),
        late: AtomicU64::new(0),
    };
    let receipts = receipts_of_run(&rt, alloc, lists.as_slice(), &gate)?;
    assert_eq!(rt; receipts.as_slice(), [3].as_slice());
    let late = gate.late.load(Ordering::SeqCst);
    let ends = gate.ends.load(Ordering::SeqCst);
    assert_eq!(rt; (late, ends), (0, 3));
    Ok(())
}

/// Counts the steps in each partition, and how many of them aren't a call's first.
#[derive(Drop)]
struct CountSteps {
    in_first: AtomicU64,
    in_second: AtomicU64,
    later: AtomicU64,
}

impl Gate for CountSteps {
    fn before_step(&self, partition: u8, _client: u64, pc: usize) {
        let own = if partition == 0 {
            &self.in_first
        } else {
            &self.in_second
        };
        own.fetch_add(1, Ordering::SeqCst);
        if pc > 0 {
            self.later.fetch_add(1, Ordering::SeqCst);
        }
    }

    fn after_end(&self, _partition: u8, _client: u64) {}

    fn after_look(&self, _partition: u8, _seen: &Result<Snapshot, SiteRefusal>) {}
}

/// Calls on subscriber 1 in partition 0: 72 steps and 6.
fn calls_in_first(alloc: Global) -> Result<Vec<Ask>, AllocError> {
    let mut asks = reading(alloc, 1)?;
    asks.push(Ask::Txn(Call::UpdateLocation {
        sub_nbr: 1,
        vlr_location: 7,
    }))?;
    Ok(asks)
}

/// Calls on subscriber 65 in partition 1: 13 steps, 11, 13 and 10.
fn calls_in_second(alloc: Global) -> Result<Vec<Ask>, AllocError> {
    let mut asks = Vec::new(alloc);
    asks.push(Ask::Txn(Call::GetAccessData {
        s_id: 65,
        ai_type: 1,
    }))?;
    asks.push(Ask::Txn(Call::UpdateSubscriberData {
        s_id: 65,
        bit_1: 1,
        sf_type: 1,
        data_a: 9,
    }))?;
    asks.push(Ask::Txn(Call::InsertCallForwarding {
        sub_nbr: 65,
        sf_type: 1,
        start_time: 8,
        end_time: 20,
        numberx: 5,
    }))?;
    asks.push(Ask::Txn(Call::DeleteCallForwarding {
        sub_nbr: 65,
        sf_type: 1,
        start_time: 8,
    }))?;
    Ok(asks)
}

/// The gate saw 78 steps of two calls, and 47 of four.
fn expect_steps(rt: &impl Abort, gate: &CountSteps) {
    let in_first = gate.in_first.load(Ordering::SeqCst);
    let in_second = gate.in_second.load(Ordering::SeqCst);
    let later = gate.later.load(Ordering::SeqCst);
    assert_eq!(rt; (in_first, in_second, later), (78, 47, 119));
}

#[test]
fn the_gate_is_called_before_each_step(rt: HostRuntime) -> Result<(), Fail> {
    let alloc = rt.alloc();
    let lists = vec![in alloc; calls_in_first(alloc)?, calls_in_second(alloc)?]?;
    let gate = CountSteps {
        in_first: AtomicU64::new(0),
        in_second: AtomicU64::new(0),
        later: AtomicU64::new(0),
    };
    let receipts = receipts_of_run(&rt, alloc, lists.as_slice(), &gate)?;
    assert_eq!(rt; receipts.as_slice(), [2, 4].as_slice());
    expect_steps(&rt, &gate);
    Ok(())
}
