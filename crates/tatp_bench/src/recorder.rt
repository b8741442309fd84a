//! The gate that keeps the order in time of what clients ask and are answered.
ghost use Rattle.tatp_tasks.specs.Plans.{IsPlan};

use crate::{BenchPlan, Progress};
use std::alloc::{AllocError, Global};
use tatp_debug::Snapshot;
use tatp_partition::SiteRefusal;
use tatp_run_history::Numbers;
use tatp_threads::{Gate, RunOutcomeParts};

/// Numbers what clients ask and are answered, and passes all else on to another gate.
#[derive(Drop)]
pub(crate) struct Recorder<'p, P> {
    progress: &'p P,
    numbers: Numbers,
}

impl<'p, P: Progress> Recorder<'p, P> {
    /// Makes the recorder of a run of this plan, with capacity for the numbers of all calls.
    pub(crate) fn new(
        alloc: Global,
        plan: &BenchPlan,
        progress: &'p P,
    ) -> Result<Recorder<'p, P>, AllocError>
        requires { IsPlan plan.now }
    {
        let numbers = Numbers::with_room(alloc, plan.clients as usize, plan.calls as usize)?;
        Ok(Recorder { progress, numbers })
    }

    /// The numbers of what clients asked and were answered.
    pub(crate) fn numbers(&self) -> &Numbers {
        &self.numbers
    }
}

impl<P: Progress> Gate for Recorder<'_, P> {
    fn before_step(&self, partition: u8, client: u64, pc: usize) {
        self.progress.before_step(partition, client, pc);
    }

    fn after_end(&self, partition: u8, client: u64) {
        self.progress.after_end(partition, client);
    }

    fn after_look(&self, partition: u8, seen: &Result<Snapshot, SiteRefusal>) {
        self.progress.after_look(partition, seen);
    }

    fn before_ask(&self, client: u64, number: u64) {
        self.numbers.before_ask(client, number);
    }

    fn after_answer(&self, client: u64, number: u64) {
        self.numbers.after_answer(client, number);
    }

    fn before_calls(&self) {
        self.progress.before_calls();
    }

    fn after_calls(&self) {
        self.progress.after_calls();
    }
}

impl<P: Progress> Progress for Recorder<'_, P> {
    fn tell(&self, line: &str) {
        self.progress.tell(line);
    }

    fn after_run(&self, parts: &RunOutcomeParts<'_>) {
        self.progress.after_run(parts);
    }
}
