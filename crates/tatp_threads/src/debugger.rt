//! The debugger, which stops one partition after another.
ghost use Rattle.std.specs.Prelude.{◌≡◌, length};
ghost use Rattle.tatp_partition.specs.Looking.{Looks};
ghost use Rattle.tatp_partition.specs.Obstacles.{one_obstacle};
ghost use Rattle.tatp_partition.specs.Running.{AdvancesUnless};
ghost use Rattle.tatp_threads.specs.Partitions.{OfPartition, StopsWhether};

use crate::admission::RunCalls;
use crate::shared::Shared;
use std::sync::Wait;
use tatp_debug::Snapshot;
use tatp_partition::{Completion, SiteRefusal, Stepped};
use tatp_workers::{Answering, Debugging, Delivery, Gate, debug_all};

/// The sites under their locks, and the mailboxes.
#[derive(Drop)]
struct Inspector<'c, 'a, 'm, R, G, A: RunCalls> {
    rt: &'c R,
    shared: &'c Shared<'a, 'm, G, A>,
}

impl<R: Wait, G: Gate, A: RunCalls> Answering for Inspector<'_, '_, '_, R, G, A> {
    fn answer(&mut self, client: u64, delivery: &Delivery) {
        self.shared.answer(self.rt, client, delivery);
    }

    fn deliver_receipt(&mut self, completion: &Completion) {
        self.shared.deliver_receipt(self.rt, completion);
    }

    fn tell(&mut self, partition: u8, client: u64) {
        self.shared.gate.after_end(partition, client);
    }
}

impl<R: Wait, G: Gate, A: RunCalls> Debugging for Inspector<'_, '_, '_, R, G, A> {
    fn stop(&mut self, partition: u8) -> bool
        ensures { OfPartition (length self.old.shared.now.partitions.now) partition
            (λ s s'. StopsWhether s result s') }
    {
        match self.shared.partition(partition) {
            None => false,
            Some(partition) => partition.stop(self.rt).is_ok(),
        }
    }

    fn look(&mut self, partition: u8) -> Result<Snapshot, SiteRefusal>
        ensures { OfPartition (length self.old.shared.now.partitions.now) partition
            (λ s s'. Looks s result × (s' ≡ s)) }
    {
        let seen = match self.shared.partition(partition) {
            None => Err(SiteRefusal::NotRunning),
            Some(partition) => partition.read(self.rt, |site| site.look()),
        };
        self.shared.gate.after_look(partition, &seen);
        seen
    }

    fn one(&mut self, partition: u8) -> Result<Stepped, SiteRefusal>
        ensures { OfPartition (length self.old.shared.now.partitions.now) partition
            (λ s s'. AdvancesUnless (one_obstacle s) s result s') }
    {
        match self.shared.partition(partition) {
            None => Err(SiteRefusal::NotRunning),
            Some(partition) => partition.one(self.rt),
        }
    }

    fn resume(&mut self, partition: u8) {
        if let Some(partition) = self.shared.partition(partition) {
            let _resumed = partition.resume(self.rt);
        }
    }
}

/// Makes the stops of a run at the sites under their locks.
pub(crate) fn debug_partitions<R: Wait, G: Gate, A: RunCalls>(rt: &R, shared: &Shared<G, A>) {
    shared.beginning.prepare_others(rt);
    let mut debugging = Inspector { rt, shared };
    debug_all(&mut debugging, shared.plan.stops);
}
