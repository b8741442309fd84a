//! The gates that report how far a run of the benchmark is.
ghost use Rattle.tatp_tasks.specs.Plans.{IsPlan};

use std::sync::atomic::{AtomicU64, Ordering};
use std::time::{Clock, Duration};
use tatp_debug::Snapshot;
use tatp_extents::Chapter;
use tatp_partition::{Site, SiteRefusal};
use tatp_tasks::BenchPlan;
use tatp_threads::{Gate, NoGate, RunOutcomeParts};

/// A gate that also gets what is done before and after the calls.
pub trait Progress: Gate {
    /// Gets a line about what was done.
    fn tell(&self, line: &str);

    /// Gets what the threads of the run left, once they have ended.
    fn after_run(&self, parts: &RunOutcomeParts<'_>);
}

impl Progress for NoGate {
    fn tell(&self, _line: &str) {}

    fn after_run(&self, _parts: &RunOutcomeParts<'_>) {}
}

/// In how many parts the ends of calls are reported.
const PARTS: u64 = 20;

/// How many nanoseconds a second has.
const NANOSECONDS: u128 = 1_000_000_000;

/// Reports on standard error how far a run is, a line each: that the rows were drawn and opened,
/// each twentieth of the calls as it ends, how long they took, how much was done beside them, and
/// that the run is settled. Or it reports nothing: one type for both, since each type of gate has
/// all that the threads do compiled for it.
#[derive(Drop)]
pub struct Reporter<'a, R> {
    rt: &'a R,
    reports: bool,
    /// How many calls there are.
    calls: u64,
    /// When the calls began, in nanoseconds of the system's clock.
    began: AtomicU64,
    /// For how many nanoseconds they lasted.
    took: AtomicU64,
    /// How many calls have ended.
    ended: AtomicU64,
}

impl<'a, R> Reporter<'a, R> {
    /// Makes the reporter of a run of this plan, before its first call begins, or one that reports
    /// nothing.
    pub fn new(rt: &'a R, plan: &BenchPlan, reports: bool) -> Reporter<'a, R>
        requires { IsPlan plan.now }
    {
        Reporter {
            rt,
            reports,
            calls: plan.clients as u64 * plan.calls,
            began: AtomicU64::new(0),
            took: AtomicU64::new(0),
            ended: AtomicU64::new(0),
        }
    }
}

/// The nanoseconds of the system's clock, from some start; 0 where it can't be read.
fn nanoseconds<R: Clock>(rt: &R) -> u64 {
    match rt.monotonic() {
        Ok(time) => u64::try_from(time.as_nanos()).unwrap_or(0),
        Err(_) => 0,
    }
}

/// How many whole parts of `calls` calls have ended when `ended` of them have.
fn parts(ended: u64, calls: u64) -> u64 {
    if calls == 0 {
        0
    } else {
        u64::try_from(ended as u128 * PARTS as u128 / calls as u128).unwrap_or(PARTS)
    }
}

/// How often the extents that are at these sites were moved.
fn moves_made(sites: &[Site<'_>]) -> u64 {
    let mut made: u64 = 0;
    for site in sites {
        for e in 0..=site.slots() {
            if let Some(extent) = site.extent(e) {
                made = made.saturating_add(extent.moves() as u64);
            }
        }
    }
    made
}

/// How often these sites were stopped.
fn stops_made(sites: &[Site<'_>]) -> u64 {
    let mut made: u64 = 0;
    for site in sites {
        made = made.saturating_add(site.stops());
    }
    made
}

/// How many chapters executors kept.
fn chapters_kept(lists: &[Vec<Chapter>]) -> u64 {
    let mut kept: u64 = 0;
    for chapters in lists {
        kept = kept.saturating_add(chapters.len() as u64);
    }
    kept
}

impl<R: Eprint + Clock> Gate for Reporter<'_, R> {
    fn before_step(&self, _partition: u8, _client: u64, _pc: usize) {}

    fn after_end(&self, _partition: u8, _client: u64) {
        if !self.reports {
            return;
        }
        let before = self.ended.fetch_add(1, Ordering::SeqCst);
        let told = parts(before, self.calls);
        let reached = parts(before.saturating_add(1), self.calls);
        if reached > told {
            let calls = self.calls;
            let _printed = eprintln!(self.rt; "{reached}/{PARTS} of {calls} calls ended");
        }
    }

    fn after_look(&self, _partition: u8, _seen: &Result<Snapshot, SiteRefusal>) {}

    fn before_calls(&self) {
        self.tell("rows opened");
        self.began.store(nanoseconds(self.rt), Ordering::SeqCst);
    }

    fn after_calls(&self) {
        let began = self.began.load(Ordering::SeqCst);
        let took = nanoseconds(self.rt).saturating_sub(began);
        self.took.store(took, Ordering::SeqCst);
    }
}

impl<R: Eprint + Clock> Progress for Reporter<'_, R> {
    /// Where the line can't be written, the run continues without it.
    fn tell(&self, line: &str) {
        if self.reports {
            let _printed = eprintln!(self.rt; "{line}");
        }
    }

    fn after_run(&self, parts: &RunOutcomeParts<'_>) {
        if !self.reports {
            return;
        }
        let took = Duration::from_nanos(self.took.load(Ordering::SeqCst));
        let seconds = took.as_secs();
        let microseconds = took.subsec_micros();
        let rate = self.calls as u128 * NANOSECONDS / took.as_nanos().max(1);
        let _printed = eprintln!(self.rt;
            "calls took {seconds}.{microseconds:06} seconds, {rate} a second"
        );
        let moves = moves_made(&parts.sites);
        let stops = stops_made(&parts.sites);
        let chapters = chapters_kept(&parts.chapters);
        let _printed = eprintln!(self.rt;
            "{moves} moves, {stops} stops and {chapters} chapters made"
        );
    }
}
