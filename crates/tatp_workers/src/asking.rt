//! What clients do: each asks its calls one after another, and a thread continues with those of
//! its clients whose receipts have come.
ghost use Rattle.std.specs.Prelude.{◌≡◌, ◌++◌, ◌∷◌, [], ◌<◌, ◌^◌, List, Vec, All, IfSome, IfNone, Some, None, true, length, slice_get};
ghost use Rattle.std.specs.List.{AllZip};
ghost use Rattle.std.specs.declared.alloc.Global.{Global};
ghost use Rattle.tatp_numbers.specs.Listing.{Listing};
ghost use Rattle.tatp_calls.specs.declared.ask.Ask.{Ask};
ghost use Rattle.tatp_logs.specs.declared.receipt.Receipt.{Receipt};
ghost use Rattle.tatp_workers.specs.Asking.{item_of, seen_after};
ghost use Rattle.tatp_workers.specs.Clients.{asks_of, GoesOn, IsAsked};
ghost use Rattle.tatp_workers.specs.declared.client.Client.{Client};
ghost use Rattle.tatp_workers.specs.declared.client.ClientState.TheVariants.{Free, Waiting, Ended};

use crate::client::{Client, ClientState};
use crate::requester::{Looked, Requester};
use std::sync::Wait;
use tatp_calls::Ask;
use tatp_logs::{ReceiptRef, Receipts};
use tatp_numbers::Directory;
use tatp_partition::Item;

/// A client's call of this number.
fn item_of(directory: &Directory, client: u64, number: u64, seen: u64, ask: &Ask) -> Item
    ensures { result
        ≡ item_of directory.now client (record { number = number; seen = seen }) ask.now }
{
    Item {
        client,
        number,
        seen,
        ask: *ask,
        home: directory.home_of(ask.key()),
    }
}

/// The last stamp that a client has seen, after the last of these receipts.
fn seen_after(seen: u64, receipts: &Receipts) -> u64
    requires some { 0 < length receipts.now.receipts }
    ensures { (before : List Receipt) (receipt : Receipt)
        → receipts.now.receipts ≡ before ++ receipt ∷ [] → result ≡ seen_after seen receipt }
{
    match receipts.get(receipts.len() - 1) {
        Some(ReceiptRef::Done { stamp, .. }) => stamp,
        Some(ReceiptRef::Refused { .. }) => seen,
        None => unreachable!(),
    }
}

/// The call of this number in a client's list, if there is one.
pub fn call_of(lists: &[Vec<Ask>], client: u64, number: usize) -> Option<&Ask>
    ensures some { IfSome result
        (λ ask. slice_get (asks_of lists.now client) number ≡ Some ask.now) }
    ensures none { IfNone result (slice_get (asks_of lists.now client) number ≡ None) }
    ensures few { IfSome result (λ ask. number < 2 ^ 63) }
{
    lists.get(client as usize)?.get(number)
}

impl<E> Client<E> {
    /// Asks the client's next call. The client has ended where there is none, or no capacity for
    /// its receipt, and where no inbox takes the call.
    fn ask_next<Q: Requester<E>>(
        &mut self,
        requester: &Q,
        directory: &Directory,
        lists: &[Vec<Ask>],
    )
        requires { self.old.state ≡ Free }
        ensures { GoesOn Q.effects directory.now lists.now self.old self.new }
    {
        let Some(ask) = call_of(lists, self.number, self.answered) else {
            self.state = ClientState::Ended;
            return;
        };
        if self.receipts.room() == 0 {
            self.state = ClientState::Ended;
            return;
        }
        let item = item_of(directory, self.number, self.answered as u64, self.seen, ask);
        if requester.ask(&mut self.end, &item) {
            self.state = ClientState::Waiting;
        } else {
            self.state = ClientState::Ended;
        }
    }

    /// Looks for the outcome of the call for which the client waits. Whether it has come.
    fn look<Q: Requester<E>>(&mut self, requester: &Q) -> bool
        requires { self.old.state ≡ Waiting }
        ensures { (listing : Listing) (lists : List (Vec Ask Global))
            → GoesOn Q.effects listing lists self.old self.new }
    {
        let number = self.answered as u64;
        match requester.look(&mut self.end, self.number, number, &mut self.receipts) {
            Looked::NotYet => false,
            Looked::Received => {
                self.seen = seen_after(self.seen, &self.receipts);
                self.answered += 1;
                self.state = ClientState::Free;
                true
            }
            Looked::Dropped => {
                self.state = ClientState::Ended;
                true
            }
        }
    }

    /// Looks for the outcome of the call for which the client waits. Where that is a receipt, asks
    /// the next call. Whether it has come.
    fn look_and_ask<Q: Requester<E>>(
        &mut self,
        requester: &Q,
        directory: &Directory,
        lists: &[Vec<Ask>],
    ) -> bool
        requires { self.old.state ≡ Waiting }
        ensures { GoesOn Q.effects directory.now lists.now self.old self.new }
    {
        let has_come = self.look(requester);
        if self.state == ClientState::Free {
            self.ask_next(requester, directory, lists);
        }
        has_come
    }

    /// Continues with the client as far as that needs no waiting. Whether it did.
    fn advance<Q: Requester<E>>(
        &mut self,
        requester: &Q,
        directory: &Directory,
        lists: &[Vec<Ask>],
    ) -> bool
        ensures { GoesOn Q.effects directory.now lists.now self.old self.new }
    {
        match self.state {
            ClientState::Free => {
                self.ask_next(requester, directory, lists);
                true
            }
            ClientState::Waiting => self.look_and_ask(requester, directory, lists),
            ClientState::Ended => false,
        }
    }
}

/// Continues with each client as far as that needs no waiting. Whether it did with one of them.
fn advance_all<E, Q: Requester<E>>(
    requester: &Q,
    directory: &Directory,
    lists: &[Vec<Ask>],
    clients: &mut [Client<E>],
) -> bool
    ensures { AllZip (GoesOn Q.effects directory.now lists.now) clients.old clients.new }
{
    let mut went_on = false;
    for client in clients.iter_mut() {
        if client.advance(requester, directory, lists) {
            went_on = true;
        }
    }
    went_on
}

/// Whether all clients have ended.
fn have_ended<E>(clients: &[Client<E>]) -> bool
    ensures { result ≡ true → All (λ (client : Client E). client.state ≡ Ended) clients.now }
{
    for client in clients {
        if client.state != ClientState::Ended {
            return false;
        }
    }
    true
}

/// Asks the calls of clients, those of each one after another, and keeps their receipts. A client
/// ends with its first call that comes to nothing.
pub fn ask_all<R: Wait, E, Q: Requester<E>>(
    rt: &R,
    requester: &Q,
    directory: &Directory,
    lists: &[Vec<Ask>],
    clients: &mut [Client<E>],
)
    ensures { AllZip (IsAsked Q.effects directory.now lists.now) clients.old clients.new }
{
    let mut rounds: u32 = 0;
    for _round in rt.forever() {
        if advance_all(requester, directory, lists, clients) {
            rounds = 0;
        } else if have_ended(clients) {
            return;
        } else {
            requester.wait(rounds);
            rounds = rounds.saturating_add(1);
        }
    }
    unreachable!()
}
