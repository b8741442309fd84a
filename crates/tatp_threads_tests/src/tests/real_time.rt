//! The order in time of the calls' last steps is a serial order of a run: its calls, made again one
//! after another in that order, get the same replies and leave the same rows.
ghost use Rattle.std.specs.Prelude.{◌≤◌, length};

use super::threads::unpack;
use std::alloc::{AllocError, Global};
use std::process::Abort;
use std::sync::Wait;
use std::sync::atomic::{AtomicU64, Ordering};
use std::test::*;
use std::thread::Threads;
use tatp_calls::{Ask, Call, ReplyRef};
use tatp_debug::Snapshot;
use tatp_dispatch::World;
use tatp_extents::discard_all;
use tatp_logs::{ReceiptRef, Receipts};
use tatp_partition::{Site, SiteRefusal};
use tatp_settle_tests::rows::clean_rows;
use tatp_settle_tests::sites::module;
use tatp_tables::Rows;
use tatp_threads::{Gate, RunOutcome, RunPlan, run_calls};

/// How many subscribers there are, in three extents.
const SUBSCRIBERS: u64 = 130;

/// How many clients call, and how many calls each makes.
const CLIENTS: u64 = 8;

const CALLS: u64 = 30;

/// Numbers the steps of all partitions, and keeps for each call the number of its last step that an
/// executor made: a moment between its asking and its answer, under the lock of its site.
#[derive(Drop)]
struct StepClock {
    steps: AtomicU64,
    /// Past the position of each client's last step: positions rise within a call, so a step from
    /// below this is the first that is seen of the next call. The debugger's steps aren't seen.
    past: Vec<AtomicU64>,
    /// How many calls of each client were seen.
    begun: Vec<AtomicU64>,
    /// The number of the last step of each client's calls.
    last: Vec<Vec<AtomicU64>>,
}

/// Counters at 0.
pub fn counters(alloc: Global, count: u64) -> Result<Vec<AtomicU64>, AllocError> {
    let mut made = Vec::new(alloc);
    for _ in 0..count {
        made.push(AtomicU64::new(0))?;
    }
    Ok(made)
}

impl StepClock {
    fn new(alloc: Global) -> Result<StepClock, AllocError> {
        let mut last = Vec::new(alloc);
        for _ in 0..CLIENTS {
            last.push(counters(alloc, CALLS)?)?;
        }
        Ok(StepClock {
            steps: AtomicU64::new(0),
            past: counters(alloc, CLIENTS)?,
            begun: counters(alloc, CLIENTS)?,
            last,
        })
    }

    /// The number of the last step of a client's call; none past its last.
    fn end_of(&self, client: usize, call: usize) -> Option<u64> {
        Some(self.last.get(client)?.get(call)?.load(Ordering::SeqCst))
    }

    /// Whether each call of each client was seen. One isn't where the debugger made all its steps,
    /// or its first ones after a call of which it made all but the first.
    fn saw_all(&self) -> bool {
        for begun in &self.begun {
            if begun.load(Ordering::SeqCst) != CALLS {
                return false;
            }
        }
        true
    }

    /// A call of a client makes a step from this position.
    fn keep(&self, client: usize, number: u64, pc: u64) -> Option<()> {
        let past = self.past.get(client)?;
        let begun = self.begun.get(client)?;
        if pc < past.load(Ordering::SeqCst) || begun.load(Ordering::SeqCst) == 0 {
            begun.fetch_add(1, Ordering::SeqCst);
        }
        past.store(pc.saturating_add(1), Ordering::SeqCst);
        let call = begun.load(Ordering::SeqCst).checked_sub(1)?;
        self.last
            .get(client)?
            .get(call as usize)?
            .store(number, Ordering::SeqCst);
        Some(())
    }
}

impl Gate for StepClock {
    fn before_step(&self, _partition: u8, client: u64, pc: usize) {
        let number = self.steps.fetch_add(1, Ordering::SeqCst);
        let _kept = self.keep(client as usize, number, pc as u64);
    }

    fn after_end(&self, _partition: u8, _client: u64) {}

    fn after_look(&self, _partition: u8, _seen: &Result<Snapshot, SiteRefusal>) {}
}

/// A call on one of six subscribers, two of each extent: half of the calls change rows.
fn call_by(word: u64) -> Call {
    let s_id = match word % 6 {
        0 => 1,
        1 => 64,
        2 => 65,
        3 => 128,
        4 => 129,
        _ => 130,
    };
    match word / 6 % 4 {
        0 => Call::GetSubscriberData { s_id },
        1 => Call::UpdateLocation {
            sub_nbr: s_id,
            vlr_location: 1 + word / 64 % 1_000_000,
        },
        2 => Call::InsertCallForwarding {
            sub_nbr: s_id,
            sf_type: 1,
            start_time: 8,
            end_time: 16,
            numberx: word / 64 % 1_000_000,
        },
        _ => Call::DeleteCallForwarding {
            sub_nbr: s_id,
            sf_type: 1,
            start_time: 8,
        },
    }
}

/// The next of a series of words.
fn next_word(word: u64) -> u64 {
    let mixed = word
        .wrapping_mul(6364136223846793005)
        .wrapping_add(1442695040888963407);
    mixed ^ (mixed >> 29)
}

/// The clients' calls, by a seed.
fn lists_by(alloc: Global, seed: u64) -> Result<Vec<Vec<Ask>>, AllocError> {
    let mut word = seed;
    let mut lists = Vec::new(alloc);
    for _ in 0..CLIENTS {
        let mut asks = Vec::new(alloc);
        for _ in 0..CALLS {
            word = next_word(word);
            asks.push(Ask::Txn(call_by(word >> 8)))?;
        }
        lists.push(asks)?;
    }
    Ok(lists)
}

/// Moves of the three extents, and stops, by a seed.
fn moves_by(alloc: Global, seed: u64) -> Result<(Vec<(u32, u8)>, Vec<u8>), AllocError> {
    let mut word = !seed;
    let mut moves = Vec::new(alloc);
    let mut stops = Vec::new(alloc);
    for _ in 0..40 {
        word = next_word(word);
        moves.push((1 + ((word >> 8) % 3) as u32, ((word >> 40) % 3) as u8))?;
        stops.push(((word >> 50) % 3) as u8)?;
    }
    Ok((moves, stops))
}

/// The rows at sites, extent by extent.
fn rows_at(alloc: Global, sites: &[Site<'_>]) -> Result<Rows, AllocError> {
    let mut rows = Rows::new(alloc);
    for e in 1..4 {
        for site in sites {
            if let Some(extent) = site.extent(e) {
                extent.add_rows(&mut rows)?;
            }
        }
    }
    Ok(rows)
}

/// What a run of threads leaves.
#[derive(Drop)]
struct Left {
    rows: Rows,
    receipts: Vec<Receipts>,
}

/// The rows and the receipts of what a run leaves. None where a parcel is left.
fn left_of(alloc: Global, ran: RunOutcome<'_>) -> Result<Option<Left>, AllocError> {
    let (sites, parcels, receipts) = unpack(ran);
    let rows = rows_at(alloc, &sites);
    discard_all(sites);
    let rows = rows?;
    if parcels == 0 {
        Ok(Some(Left { rows, receipts }))
    } else {
        Ok(None)
    }
}

/// What a run by a seed leaves: over three partitions, with moves and stops, and with chapters of
/// few calls.
fn left_by<R: Threads + Wait + Sync>(
    rt: &R,
    alloc: Global,
    lists: &[Vec<Ask>],
    seed: u64,
    clock: &StepClock,
) -> Result<Left, Fail>
    requires some_clients { 1 ≤ length lists.now }
    requires few_clients { length lists.now ≤ 64 }
{
    let loaded = module(alloc)?;
    let rows = clean_rows(alloc, SUBSCRIBERS, &[])?;
    let (moves, stops) = moves_by(alloc, seed)?;
    let plan = RunPlan {
        partitions: 3,
        lists,
        moves: moves.as_slice(),
        stops: stops.as_slice(),
        chapter: 1 + seed % 8,
    };
    match run_calls(rt, alloc, &loaded, rows, plan, clock) {
        Err(_) => Err("no run".into()),
        Ok(ran) => match left_of(alloc, ran)? {
            None => Err("a parcel is left".into()),
            Some(left) => Ok(left),
        },
    }
}

/// Of the clients that have calls left, the one whose next call ended first.
fn next_client(clock: &StepClock, made: &[usize; CLIENTS as usize]) -> Option<usize> {
    let mut next = None;
    let mut first = u64::MAX;
    for client in 0..CLIENTS as usize {
        if let Some(end) = clock.end_of(client, made[client]) {
            if end < first {
                first = end;
                next = Some(client);
            }
        }
    }
    next
}

/// Whether a reply is that of a receipt.
fn is_reply(reply: ReplyRef<'_>, seen: ReplyRef<'_>) -> bool {
    match (reply, seen) {
        (ReplyRef::Values(values), ReplyRef::Values(seen)) => values == seen,
        (ReplyRef::Failed(failure), ReplyRef::Failed(seen)) => failure == seen,
        _ => false,
    }
}

/// Whether a client got the reply that its call gets when it is made again.
fn is_same(
    world: &mut World<'_>,
    client: usize,
    ask: Option<&Ask>,
    receipt: Option<ReceiptRef<'_>>,
) -> bool {
    match (ask, receipt) {
        (Some(ask), Some(ReceiptRef::Done { reply, .. })) => {
            match world.call(client as u64, *ask) {
                Ok(again) => is_reply(again, reply),
                Err(_) => false,
            }
        }
        _ => false,
    }
}

/// How many calls, made again one after another in the order of their last steps, get the same
/// reply as in the run.
fn same_replies(
    world: &mut World<'_>,
    lists: &[Vec<Ask>],
    receipts: &[Receipts],
    clock: &StepClock,
) -> u64 {
    let mut made = [0; CLIENTS as usize];
    let mut same: u64 = 0;
    for _ in 0..CLIENTS * CALLS {
        let Some(client) = next_client(clock, &made) else {
            return same;
        };
        let Some(number) = made.get_mut(client) else {
            return same;
        };
        let call = *number;
        *number = call.saturating_add(1);
        let ask = lists.get(client).and_then(|list| list.get(call));
        let receipt = receipts.get(client).and_then(|list| list.get(call));
        if is_same(world, client, ask, receipt) {
            same = same.saturating_add(1);
        }
    }
    same
}

/// Whether both have the same rows.
fn are_same(left: &Rows, right: &Rows) -> bool {
    left.subscribers.as_slice() == right.subscribers.as_slice()
        && left.accesses.as_slice() == right.accesses.as_slice()
        && left.facilities.as_slice() == right.facilities.as_slice()
        && left.forwardings.as_slice() == right.forwardings.as_slice()
}

/// How many calls of a run get the same reply when they are made again, and whether the same rows
/// are left. None where a call wasn't seen.
fn made_again<R: Threads + Wait + Sync>(
    rt: &R,
    alloc: Global,
    seed: u64,
) -> Result<Option<(u64, bool)>, Fail> {
    let loaded = module(alloc)?;
    let lists = lists_by(alloc, seed)?;
    let clock = StepClock::new(alloc)?;
    if lists.is_empty() || lists.len() > 64 {
        return Err("no clients".into());
    }
    let left = left_by(rt, alloc, &lists, seed, &clock)?;
    if !clock.saw_all() {
        return Ok(None);
    }
    let rows = clean_rows(alloc, SUBSCRIBERS, &[])?;
    match World::open(alloc, &loaded, rows, 1, CLIENTS as u16) {
        Err(_) => Err("not opened".into()),
        Ok(mut world) => {
            let same = same_replies(&mut world, &lists, &left.receipts, &clock);
            let rows = world.gather(alloc);
            world.close();
            Ok(Some((same, are_same(&rows?, &left.rows))))
        }
    }
}

#[test]
fn runs_are_serial_in_the_order_of_their_last_steps(rt: HostRuntime) -> Result<(), Fail> {
    let mut judged: u64 = 0;
    for seed in 0..60 {
        if let Some(again) = made_again(&rt, rt.alloc(), seed)? {
            assert_eq!(rt; again, (CLIENTS * CALLS, true));
            judged = judged.saturating_add(1);
        }
    }
    assert!(rt; judged >= 50);
    Ok(())
}
