//! What the threads share.
ghost use Rattle.std.specs.Prelude.{◌≤◌, IfNone, length};
ghost use Rattle.tatp_threads.specs.Inboxes.{SendsCall};

use crate::RunPlan;
use crate::admission::{Admission, Port, RunCalls};
use crate::beginning::Beginning;
use crate::partition::Partition;
use crate::routes::SharedRoutes;
use std::alloc::Global;
use std::sync::Wait;
use tatp_numbers::Directory;
use tatp_partition::{Completion, Item};
use tatp_sync::Mailbox;
use tatp_workers::Delivery;

/// What the threads share.
#[derive(Drop)]
pub(crate) struct Shared<'a, 'm, G, A: RunCalls> {
    pub(crate) alloc: Global,
    /// The partitions, that of number 0 first.
    pub(crate) partitions: &'a [Partition<'m>],
    pub(crate) routes: &'a SharedRoutes,
    pub(crate) directory: &'a Directory,
    pub(crate) admission: &'a Admission<'a, A>,
    /// Where each client waits, client 0 first.
    pub(crate) mailboxes: &'a [Mailbox<Delivery>],
    pub(crate) plan: RunPlan<'a>,
    pub(crate) gate: &'a G,
    pub(crate) beginning: &'a Beginning,
}

impl<'a, 'm, G, A: RunCalls> Shared<'a, 'm, G, A> {
    /// The partition of this number, if there is one.
    pub(crate) fn partition(&self, number: u8) -> Option<&'a Partition<'m>>
        ensures { IfNone result (length self.now.partitions.now ≤ number) }
    {
        self.partitions.get(number as usize)
    }

    /// Puts a call into the inbox that the route of its home names. Whether that inbox took it.
    pub(crate) fn send<R: Wait>(&self, rt: &R, ports: &mut [Port<A>], item: &Item) -> bool
        ensures { SendsCall A.lists ports.old item.now result ports.new }
    {
        let partition = self.routes.route(item.home);
        if partition >= ports.len() {
            return false;
        }
        self.admission.put(rt, &mut ports[partition], item)
    }

    /// Puts the delivery for which a client waits into its mailbox.
    pub(crate) fn answer<R: Wait>(&self, rt: &R, client: u64, delivery: &Delivery) {
        if let Some(mailbox) = self.mailboxes.get(client as usize) {
            mailbox.put(rt, |place| *place = *delivery);
        }
    }

    /// Puts its receipt into the mailbox of a completed call's client.
    pub(crate) fn deliver_receipt<R: Wait>(&self, rt: &R, completion: &Completion) {
        if let Some(mailbox) = self.mailboxes.get(completion.entry.client as usize) {
            mailbox.put(rt, |delivery| delivery.write_receipt(completion));
        }
    }
}
