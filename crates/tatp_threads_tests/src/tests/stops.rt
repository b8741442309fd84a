//! What the debugger does at the sites that it stops. The gate sees the steps of executors and
//! not the debugger's, but what the debugger sees of a call before it has it make a step.

use super::real_time::counters;
use super::threads::{plan_of, receipts_and_stops};
use std::alloc::{AllocError, Global};
use std::process::Abort;
use std::sync::Wait;
use std::sync::atomic::{AtomicU64, Ordering};
use std::test::*;
use std::thread;
use std::thread::Threads;
use std::time::{Clock, Duration};
use tatp_calls::{Ask, Call};
use tatp_debug::Snapshot;
use tatp_partition::SiteRefusal;
use tatp_threads::Gate;

/// How many steps a call makes that reads a subscriber: one from each position, in order.
const STEPS: u64 = 72;

/// How often the partition of the slow call is stopped.
const STOPS: u64 = 8;

/// Stops of partition 1, in which no call is: in that time a call of partition 0 begins.
const BEFORE: u64 = 5000;

/// Counts looks, and the steps of a call: those that the executor makes, a millisecond before each,
/// and those that the debugger makes where it sees the call.
#[derive(Drop)]
struct SlowSteps<'a, R: Clock> {
    clock: &'a R,
    /// How many steps are made from each position.
    steps: Vec<AtomicU64>,
    /// How many looks see the call.
    running: AtomicU64,
    /// How many looks see that no call runs in partition 0.
    idle_in_first: AtomicU64,
    /// How many looks see that no call runs in partition 1.
    idle_in_second: AtomicU64,
}

impl<'a, R: Clock> SlowSteps<'a, R> {
    fn new(clock: &'a R, alloc: Global) -> Result<SlowSteps<'a, R>, AllocError> {
        Ok(SlowSteps {
            clock,
            steps: counters(alloc, STEPS)?,
            running: AtomicU64::new(0),
            idle_in_first: AtomicU64::new(0),
            idle_in_second: AtomicU64::new(0),
        })
    }

    /// A step is made from this position.
    fn count(&self, pc: usize) {
        if let Some(made) = self.steps.get(pc) {
            made.fetch_add(1, Ordering::SeqCst);
        }
    }

    /// From how many positions one step is made.
    fn once(&self) -> u64 {
        let mut once: u64 = 0;
        for made in &self.steps {
            if made.load(Ordering::SeqCst) == 1 {
                once = once.saturating_add(1);
            }
        }
        once
    }
}

impl<R: Clock> Gate for SlowSteps<'_, R> {
    fn before_step(&self, _partition: u8, _client: u64, pc: usize) {
        self.count(pc);
        thread::sleep(self.clock, Duration::from_millis(1));
    }

    fn after_end(&self, _partition: u8, _client: u64) {}

    fn after_look(&self, partition: u8, seen: &Result<Snapshot, SiteRefusal>) {
        let looks = match seen {
            Ok(snapshot) => {
                if snapshot.steps_made == snapshot.pc {
                    self.count(snapshot.pc);
                }
                &self.running
            }
            Err(_) if partition == 0 => &self.idle_in_first,
            Err(_) => &self.idle_in_second,
        };
        looks.fetch_add(1, Ordering::SeqCst);
    }
}

/// `in_second` stops of partition 1, and then `in_first` of partition 0.
fn stops_of(alloc: Global, in_second: u64, in_first: u64) -> Result<Vec<u8>, AllocError> {
    let mut stops = Vec::new(alloc);
    for _ in 0..in_second {
        stops.push(1)?;
    }
    for _ in 0..in_first {
        stops.push(0)?;
    }
    Ok(stops)
}

/// At how many stops of its partition a slow call runs. There is one look at each stop. From each
/// position one step is made, by the executor or at a stop where the call is seen there.
fn stops_met<R: Threads + Wait + Clock + Sync>(rt: &R, alloc: Global) -> Result<u64, Fail> {
    let gate = SlowSteps::new(rt, alloc)?;
    let lists = vec![in alloc; vec![in alloc; Ask::Txn(Call::GetSubscriberData { s_id: 1 })]?]?;
    let asked = stops_of(alloc, BEFORE, STOPS)?;
    let plan = plan_of(lists.as_slice(), &[], asked.as_slice());
    let (receipts, stops) = receipts_and_stops(rt, alloc, plan, &gate)?;
    if receipts.as_slice() != [1].as_slice() || stops.as_slice() != [BEFORE, STOPS].as_slice() {
        return Err("other receipts or stops".into());
    }
    let running = gate.running.load(Ordering::SeqCst);
    let in_first = running.saturating_add(gate.idle_in_first.load(Ordering::SeqCst));
    let in_second = gate.idle_in_second.load(Ordering::SeqCst);
    if (gate.once(), in_first, in_second) != (STEPS, STOPS, BEFORE) {
        return Err("other steps or looks".into());
    }
    Ok(running)
}

// At each stop of the partition of a running call the debugger sees it, and has it make one step. A
// stop that comes before the call has begun makes none: so several runs are tried.
#[test]
fn a_stop_sees_the_call_and_makes_one_step(rt: HostRuntime) -> Result<(), Fail> {
    let mut most: u64 = 0;
    for _ in 0..20 {
        if most < STOPS {
            most = stops_met(&rt, rt.alloc())?.max(most);
        }
    }
    assert_eq!(rt; most, STOPS);
    Ok(())
}

/// How many calls the client makes in each of two partitions, by turns.
const TURNS: u64 = 40;

/// The position from which a call that sets a location makes its last step.
const LAST: usize = 5;

/// Counts the ends, and the last steps in partition 0. Holds each end there until the client's next
/// call, in partition 1, makes its first step, but none once one was held too long.
#[derive(Drop)]
struct HoldAnswers<'a, R: Clock> {
    clock: &'a R,
    last_steps: AtomicU64,
    /// How many calls of partition 1 made their first steps: it isn't stopped, so all are seen.
    firsts: AtomicU64,
    ends: AtomicU64,
    ends_in_first: AtomicU64,
    /// Whether an end was let go before that.
    late: AtomicU64,
}

impl<R: Clock> Gate for HoldAnswers<'_, R> {
    fn before_step(&self, partition: u8, _client: u64, pc: usize) {
        if partition == 1 {
            if pc == 0 {
                self.firsts.fetch_add(1, Ordering::SeqCst);
            }
            return;
        }
        if pc == LAST {
            self.last_steps.fetch_add(1, Ordering::SeqCst);
        }
        thread::sleep(self.clock, Duration::from_millis(1));
    }

    fn after_end(&self, partition: u8, _client: u64) {
        self.ends.fetch_add(1, Ordering::SeqCst);
        if partition == 1 {
            return;
        }
        let before = self.ends_in_first.fetch_add(1, Ordering::SeqCst);
        for _ in 0..20_000 {
            let firsts = self.firsts.load(Ordering::SeqCst);
            if firsts > before || self.late.load(Ordering::SeqCst) == 1 {
                return;
            }
            thread::sleep(self.clock, Duration::from_millis(1));
        }
        self.late.store(1, Ordering::SeqCst);
    }

    fn after_look(&self, _partition: u8, _seen: &Result<Snapshot, SiteRefusal>) {}
}

/// Calls in both partitions by turns.
fn calls_by_turns(alloc: Global) -> Result<Vec<Ask>, AllocError> {
    let mut asks = Vec::new(alloc);
    for _ in 0..TURNS {
        asks.push(Ask::Txn(Call::UpdateLocation {
            sub_nbr: 1,
            vlr_location: 7,
        }))?;
        asks.push(Ask::Txn(Call::UpdateLocation {
            sub_nbr: 65,
            vlr_location: 7,
        }))?;
    }
    Ok(asks)
}

/// What a run leaves beside stops of partition 0: how many receipts each client has, how often each
/// partition was stopped, and what the gate counted: ends, those in partition 0, late ones there,
/// and last steps there that executors made.
type Beside = (Vec<usize>, Vec<u64>, [u64; 4]);

/// Runs the calls beside stops of partition 0.
fn run_beside_stops<R: Threads + Wait + Clock + Sync>(
    rt: &R,
    alloc: Global,
) -> Result<Beside, Fail> {
    let gate = HoldAnswers {
        clock: rt,
        last_steps: AtomicU64::new(0),
        firsts: AtomicU64::new(0),
        ends: AtomicU64::new(0),
        ends_in_first: AtomicU64::new(0),
        late: AtomicU64::new(0),
    };
    let lists = vec![in alloc; calls_by_turns(alloc)?]?;
    let asked = stops_of(alloc, 0, 20_000)?;
    let plan = plan_of(lists.as_slice(), &[], asked.as_slice());
    let (receipts, stops) = receipts_and_stops(rt, alloc, plan, &gate)?;
    let counted = [
        gate.ends.load(Ordering::SeqCst),
        gate.ends_in_first.load(Ordering::SeqCst),
        gate.late.load(Ordering::SeqCst),
        gate.last_steps.load(Ordering::SeqCst),
    ];
    Ok((receipts, stops, counted))
}

/// In how many runs the debugger may come too early or too late to make a last step.
const TRIES: u64 = 100;

// Where the debugger makes the last step of a call, its client is answered, and then the gate is
// called.
#[test]
fn ends_by_the_debugger_are_told_once_the_reply_can_be_taken(rt: HostRuntime) -> Result<(), Fail> {
    let mut by_executors = TURNS;
    for _ in 0..TRIES {
        let (receipts, stops, [ends, first, late, last_steps]) = run_beside_stops(&rt, rt.alloc())?;
        assert_eq!(rt; receipts.as_slice(), [TURNS as usize * 2].as_slice());
        assert_eq!(rt; stops.as_slice(), [0, 20_000].as_slice());
        assert_eq!(rt; (ends, first, late), (TURNS * 2, TURNS, 0));
        by_executors = last_steps;
        if by_executors < TURNS {
            break;
        }
    }
    assert!(rt; by_executors < TURNS);
    Ok(())
}
