//! The executor of one partition.
ghost use Rattle.std.specs.Prelude.{◌≡◌, None};
ghost use Rattle.tatp_threads.specs.Locked.{OfSomeSite};
ghost use Rattle.tatp_workers.specs.Offering.{Offers};
ghost use Rattle.tatp_workers.specs.Slices.{MakesSlice};

use crate::admission::{Port, Reader, RunCalls};
use crate::partition::Partition;
use crate::reserved::ExecutorSeat;
use crate::shared::Shared;
use std::sync::Wait;
use tatp_extents::Chapter;
use tatp_partition::{Completion, CompletionBuffer, Item, SiteRefusal};
use tatp_workers::{
    Answering, Checkpointed, Delivery, Executing, Gate, Message, Offered, take_calls,
};

/// An executor's partition, the reader of its inbox, its ends at all inboxes and the chapters that
/// it keeps, with what the threads share.
#[derive(Drop)]
struct ExecutorEnds<'c, 'f, 'a, 'm, R, G, A: RunCalls> {
    rt: &'c R,
    shared: &'c Shared<'a, 'm, G, A>,
    partition: &'c Partition<'m>,
    reader: &'f mut Reader<A>,
    ports: &'f mut [Port<A>],
    chapters: &'f mut Vec<Chapter>,
}

impl<R: Wait, G: Gate, A: RunCalls> Answering for ExecutorEnds<'_, '_, '_, '_, R, G, A> {
    fn answer(&mut self, client: u64, delivery: &Delivery) {
        self.shared.answer(self.rt, client, delivery);
    }

    fn deliver_receipt(&mut self, completion: &Completion) {
        self.shared.deliver_receipt(self.rt, completion);
    }

    fn tell(&mut self, partition: u8, client: u64) {
        self.shared.gate.after_end(partition, client);
    }
}

impl<R: Wait, G: Gate, A: RunCalls> Executing for ExecutorEnds<'_, '_, '_, '_, R, G, A> {
    fn receive(&mut self) -> Option<Message> {
        self.shared.admission.take(self.rt, self.reader)
    }

    fn offer(&mut self, item: &Item) -> Offered
        ensures { OfSomeSite (λ s s'. Offers s item.now result s') }
    {
        self.partition.offer(self.rt, self.shared.alloc, item)
    }

    fn slice(&mut self, buffer: &mut CompletionBuffer) -> Result<u64, SiteRefusal>
        requires { buffer.old ≡ None }
        ensures { OfSomeSite (λ s s'. MakesSlice s result buffer.new s') }
    {
        self.partition.slice(self.rt, self.shared.gate, buffer)
    }

    /// Memory for the chapter is reserved before the lock is taken.
    fn checkpoint(&mut self, extent: u32, chapter: u64) -> Checkpointed {
        if self.chapters.reserve(1).is_err() {
            return Checkpointed::Refused(SiteRefusal::NoMemory);
        }
        self.partition
            .checkpoint(self.rt, self.shared.alloc, extent, chapter, self.chapters)
    }

    fn send(&mut self, item: Item) -> bool {
        self.shared.send(self.rt, self.ports, &item)
    }
}

/// Runs the calls of one partition until Quit, and leaves the chapters that its site handed out.
pub(crate) fn execute<'t, 'm, R: Wait, G: Gate, A: RunCalls>(
    rt: &'t R,
    shared: &'t Shared<'_, 'm, G, A>,
    partition: &'t Partition<'m>,
    seat: ExecutorSeat<A>,
) {
    let ExecutorSeat {
        mut reader,
        mut ports,
    } = seat;
    let mut chapters = Vec::new(shared.alloc);
    shared
        .beginning
        .prepare_executor(rt, shared.plan.lists.len());
    let mut executing = ExecutorEnds {
        rt,
        shared,
        partition,
        reader: &mut reader,
        ports: ports.as_mut_slice(),
        chapters: &mut chapters,
    };
    take_calls(rt, &mut executing, partition.number, shared.plan.chapter);
    partition.leave(rt, chapters);
}
