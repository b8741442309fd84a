//! Which calls go into inboxes: those of the run's lists, which fit its module.
ghost use Rattle.std.specs.Prelude.{◌≡◌, ◌↔◌, List, ℕ, IfSome, IsTrue, Vec};
ghost use Rattle.std.specs.declared.alloc.Global.{Global};
ghost use Rattle.tatp_calls.specs.declared.ask.Ask.{Ask};
ghost use Rattle.tatp_threads.specs.Inboxes.{IsMessage, IsAdmitted, IsListed, IsTaken, PutsCall, TakesMessage, request_of};
ghost use Rattle.tatp_threads.specs.declared.request.InboxMessage.TheVariants.{Call};

use crate::request::{InboxMessage, Request};
use std::marker::{Brand, PhantomData};
use std::sync::Wait;
use tatp_calls::Ask;
use tatp_partition::{Item, item_ok};
use tatp_sync::MessageRule;
use tatp_workers::{Message, call_of};

/// What the clients of a run ask, and how many arguments each procedure of its module takes.
pub(crate) trait RunCalls {
    ghost lists: { List (Vec Ask Global) };

    ghost arities: { List ℕ };
}

impl RunCalls for Brand {
    ghost use Rattle.std.specs.Prelude.{[]};

    ghost lists = { [] };

    ghost arities = { [] };
}

/// The rule of an inbox: each message is Quit, or stands for a call of the lists, which fits.
pub(crate) struct Admitted<A> {
    of: PhantomData<A>,
}

impl<A: RunCalls> MessageRule<InboxMessage> for Admitted<A> {
    ghost allows = { IsMessage A.lists A.arities };
}

/// An end of an inbox that puts.
pub(crate) type Port<A> = tatp_sync::Port<InboxMessage, Admitted<A>>;

/// The end of an inbox that takes.
pub(crate) type Reader<A> = tatp_sync::Reader<InboxMessage, Admitted<A>>;

/// Whether the same is asked.
fn is_same(ask: &Ask, other: &Ask) -> bool
    ensures { IsTrue result ↔ (ask.now ≡ other.now) }
{
    match (ask, other) {
        (Ask::Txn(call), Ask::Txn(other)) => *call == *other,
        (Ask::Raw(raw), Ask::Raw(other)) => {
            raw.procedure() == other.procedure()
                && raw.args() == other.args()
                && raw.key() == other.key()
        }
        _ => false,
    }
}

/// Admits calls to inboxes: those of the run's lists that fit its module. Finds the call again for
/// which a request stands.
#[derive(Drop)]
pub(crate) struct Admission<'w, A: RunCalls> {
    lists: &'w [Vec<Ask>],
    arities: Vec<u8>,
    of: PhantomData<A>,
    ghost same_lists: { lists.now ≡ A.lists },
    ghost same_arities: { arities.items ≡ A.arities },
}

impl<'w, A: RunCalls> Admission<'w, A> {
    /// Keeps the lists and the arities of the run, which the rule of its inboxes names.
    pub(crate) fn new(lists: &'w [Vec<Ask>], arities: Vec<u8>) -> Admission<'w, A>
        requires lists { lists.now ≡ A.lists }
        requires arities { arities.items ≡ A.arities }
    {
        Admission {
            lists,
            arities,
            of: PhantomData,
        }
    }

    /// Whether a call is that of its number in its client's list.
    fn is_listed(&self, item: &Item) -> bool
        ensures { IsTrue result → IsListed A.lists item.now }
    {
        match call_of(self.lists, item.client, item.number as usize) {
            Some(ask) => is_same(ask, &item.ask),
            None => false,
        }
    }

    /// Puts a call into an inbox if it is of the lists and fits the module. False if it isn't or
    /// doesn't, or the inbox is full.
    pub(crate) fn put<R: Wait>(&self, rt: &R, port: &mut Port<A>, item: &Item) -> bool
        ensures { PutsCall A.lists port.old item.now result port.new }
    {
        if !self.is_listed(item) || !item_ok(item, self.arities.as_slice()) {
            return false;
        }
        port.put(rt, InboxMessage::Call(Request::of(item))).is_ok()
    }

    /// The call for which a request stands.
    fn item_for(&self, request: &Request) -> Item
        requires { IsMessage A.lists A.arities (Call request.now) }
        ensures stands { request.now ≡ request_of result }
        ensures admitted { IsAdmitted A.lists A.arities result }
    {
        match call_of(self.lists, request.client, request.number as usize) {
            Some(ask) => request.to_item(ask),
            None => unreachable!(),
        }
    }

    /// Takes the next message out of an inbox. `None` where no end that puts is left.
    pub(crate) fn take<R: Wait>(&self, rt: &R, reader: &mut Reader<A>) -> Option<Message>
        ensures taken { TakesMessage reader.old result reader.new }
        ensures admitted { IfSome result (IsTaken A.lists A.arities) }
    {
        match reader.take(rt)? {
            InboxMessage::Quit => Some(Message::Quit),
            InboxMessage::Call(request) => Some(Message::Call(self.item_for(&request))),
        }
    }
}
