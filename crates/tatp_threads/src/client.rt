//! Clients, each of which asks its calls one after another.
ghost use Rattle.std.specs.Prelude.{◌≤◌, ◌∷◌, []};
ghost use Rattle.tatp_workers.specs.Asking.{Finds, receipt_delivered};
ghost use Rattle.tatp_workers.specs.declared.requester.AskEffect.TheVariants.{Gets};

use crate::admission::{Port, RunCalls};
use crate::reserved::ClientSeat;
use crate::shared::Shared;
use std::sync::Wait;
use tatp_logs::Receipts;
use tatp_partition::Item;
use tatp_sync::rest;
use tatp_workers::{Delivery, Gate, Looked, Requester, ask_all};

/// The inboxes and the mailboxes, with what else the threads share. Each client has its own ends at
/// the inboxes.
#[derive(Drop)]
struct Post<'c, 'a, 'm, R, G, A: RunCalls> {
    rt: &'c R,
    shared: &'c Shared<'a, 'm, G, A>,
}

impl<R: Wait, G: Gate, A: RunCalls> Requester<Vec<Port<A>>> for Post<'_, '_, '_, R, G, A> {
    fn ask(&self, ports: &mut Vec<Port<A>>, item: &Item) -> bool {
        self.shared.gate.before_ask(item.client, item.number);
        self.shared.send(self.rt, ports.as_mut_slice(), item)
    }

    fn look(
        &self,
        _ports: &mut Vec<Port<A>>,
        client: u64,
        number: u64,
        receipts: &mut Receipts,
    ) -> Looked {
        let Some(mailbox) = self.shared.mailboxes.get(client as usize) else {
            return Looked::Dropped;
        };
        match mailbox.try_take() {
            None => Looked::NotYet,
            Some(taken) => {
                self.shared.gate.after_answer(client, number);
                keep(taken.message(), receipts)
            }
        }
    }

    fn wait(&self, rounds: u32) {
        rest(self.rt, rounds);
    }
}

/// Appends the receipt that was delivered, if one was, to the others.
fn keep(delivery: &Delivery, receipts: &mut Receipts) -> Looked
    requires { 1 ≤ receipts.old.room }
    ensures { Finds result receipts.old receipts.new (Gets (receipt_delivered delivery.now) ∷ []) }
{
    match delivery {
        Delivery::Got(receipt) => {
            receipts.push(receipt);
            Looked::Received
        }
        Delivery::Dropped => Looked::Dropped,
    }
}

/// Writes to the memory for the receipts of a thread's clients. The first write to new memory takes
/// long, so it is done before calls begin, by the thread that will use the memory.
pub(crate) fn touch_receipts<A: RunCalls>(clients: &mut [ClientSeat<A>]) {
    for client in clients.iter_mut() {
        client.touch();
    }
}

/// Runs the clients of a thread to their ends.
pub(crate) fn ask_calls<R: Wait, G: Gate, A: RunCalls>(
    rt: &R,
    shared: &Shared<G, A>,
    clients: &mut [ClientSeat<A>],
) {
    shared.beginning.prepare_clients(rt);
    let requester = Post { rt, shared };
    ask_all(rt, &requester, shared.directory, shared.plan.lists, clients);
}
