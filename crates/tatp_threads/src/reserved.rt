//! What the threads fill and work with. Its memory is all reserved before they start.
ghost use Rattle.std.specs.Prelude.{◌≡◌, ◌≤◌, ◌+◌, All, IfOk, length, vec_len, vec_capacity};
ghost use Rattle.tatp_calls.specs.Asked.{arities_of};
ghost use Rattle.tatp_sync.specs.Inboxes.{IsNew};
ghost use Rattle.tatp_threads.specs.Seats.{AreExecutors, AreClients};

use crate::admission::{Admission, Port, Reader, RunCalls};
use crate::calls::arities_of;
use crate::partition::Partition;
use std::alloc::{AllocError, Global};
use tatp_calls::Ask;
use tatp_extents::Chapter;
use tatp_limits::MAX_CLIENTS;
use tatp_loader::Loaded;
use tatp_logs::Receipts;
use tatp_partition::{Parcel, Site};
use tatp_sync::{Mailbox, ends_of, open_inboxes};
use tatp_workers::{Client, Delivery};

/// An empty list with capacity for values that can't be dropped.
pub(crate) struct ReservedList<T> {
    items: Vec<T>,
    ghost empty: { vec_len items ≡ 0 },
}

impl<T> ReservedList<T> {
    fn new(alloc: Global, room: usize) -> Result<ReservedList<T>, AllocError>
        ensures { IfOk result (λ spare. room ≤ vec_capacity spare.items) }
    {
        Ok(ReservedList {
            items: Vec::with_capacity(alloc, room)?,
        })
    }

    pub(crate) fn into_vec(self) -> Vec<T>
        ensures empty { vec_len result ≡ 0 }
        ensures room { vec_capacity result ≡ vec_capacity self.items }
    {
        let ReservedList { items } = self;
        items
    }
}

impl<T> Drop for ReservedList<T> {
    fn drop(self) {
        let ReservedList { items } = self;
        items.destroy_empty();
    }
}

/// What an executor has for itself: the reader of its inbox, and an end at each inbox.
#[derive(Drop)]
pub(crate) struct ExecutorSeat<A: RunCalls> {
    pub(crate) reader: Reader<A>,
    pub(crate) ports: Vec<Port<A>>,
}

/// What a client has for itself: an end at each inbox, and its receipts.
pub(crate) type ClientSeat<A> = Client<Vec<Port<A>>>;

/// A seat for each reader.
fn seat_executors<A: RunCalls>(
    alloc: Global,
    readers: Vec<Reader<A>>,
    ports: &mut [Port<A>],
) -> Result<Vec<ExecutorSeat<A>>, AllocError>
    requires { readers.items ≡ ports.old }
    ensures seats { IfOk result (λ seats. AreExecutors ports.old seats.items) }
    ensures same { ports.new ≡ ports.old }
{
    let mut seats = Vec::with_capacity(alloc, readers.len())?;
    for reader in readers {
        seats.push(ExecutorSeat {
            reader,
            ports: ends_of(alloc, ports)?,
        })?;
    }
    Ok(seats)
}

/// A seat for each client, with capacity for a receipt of each of its calls.
fn seat_clients<A: RunCalls>(
    alloc: Global,
    lists: &[Vec<Ask>],
    ports: &mut [Port<A>],
) -> Result<Vec<ClientSeat<A>>, AllocError>
    ensures seats { IfOk result (λ seats. AreClients lists.now ports.old seats.items) }
    ensures count { IfOk result (λ seats. vec_len seats ≡ length lists.now) }
    ensures same { ports.new ≡ ports.old }
{
    let mut seats = Vec::with_capacity(alloc, lists.len())?;
    for list in lists {
        let ends = ends_of(alloc, ports)?;
        let receipts = Receipts::with_room(alloc, list.len())?;
        seats.push(Client::new(seats.len() as u64, ends, receipts))?;
    }
    Ok(seats)
}

/// For how many calls the log of each extent gets its capacity: an even share of all calls and an
/// eighth more, but no more than the entries of a chapter.
pub(crate) fn calls_an_extent(lists: &[Vec<Ask>], extents: usize, chapter: u64) -> usize {
    let mut calls: usize = 0;
    for list in lists {
        calls = calls.saturating_add(list.len());
    }
    let even = calls / extents.max(1);
    even.saturating_add(even / 8).min(chapter as usize)
}

/// This many empty mailboxes.
fn make_mailboxes(alloc: Global, count: usize) -> Result<Vec<Mailbox<Delivery>>, AllocError>
    ensures { IfOk result (λ mailboxes. vec_len mailboxes ≡ count) }
{
    let mut mailboxes = Vec::with_capacity(alloc, count)?;
    for _ in 0..count {
        mailboxes.push(Mailbox::new(Delivery::Dropped))?;
    }
    Ok(mailboxes)
}

/// What the threads fill, and what they work with besides sites and routes.
#[derive(Drop)]
pub(crate) struct Reserved<'m, 'w, A: RunCalls> {
    pub(crate) admission: Admission<'w, A>,
    /// An end at each inbox, by which it gets Quit.
    pub(crate) quit: Vec<Port<A>>,
    pub(crate) executors: Vec<ExecutorSeat<A>>,
    pub(crate) clients: Vec<ClientSeat<A>>,
    pub(crate) mailboxes: Vec<Mailbox<Delivery>>,
    /// An empty list with capacity for the receipts of each client.
    pub(crate) receipts: Vec<Receipts>,
    pub(crate) partitions: ReservedList<Partition<'m>>,
    pub(crate) sites: ReservedList<Site<'m>>,
    pub(crate) hand: ReservedList<Parcel>,
    /// Capacity for each executor's list of chapters.
    pub(crate) chapters: ReservedList<Vec<Chapter>>,
}

impl<'m, 'w, A: RunCalls> Reserved<'m, 'w, A> {
    /// Reserves the memory for a run of these calls in this many partitions.
    pub(crate) fn make(
        alloc: Global,
        loaded: &Loaded,
        partitions: usize,
        lists: &'w [Vec<Ask>],
    ) -> Result<Reserved<'m, 'w, A>, AllocError>
        requires clients { length lists.now ≤ MAX_CLIENTS }
        requires lists { lists.now ≡ A.lists }
        requires arities { arities_of loaded.now ≡ A.arities }
        ensures quit { IfOk result (λ room. vec_len room.quit ≡ partitions) }
        ensures inboxes { IfOk result
            (λ room. All (IsNew (length lists.now + 1)) room.quit.items) }
        ensures executors { IfOk result
            (λ room. AreExecutors room.quit.items room.executors.items) }
        ensures clients { IfOk result
            (λ room. AreClients lists.now room.quit.items room.clients.items) }
        ensures count { IfOk result (λ room. vec_len room.clients ≡ length lists.now) }
        ensures mailboxes { IfOk result (λ room. vec_len room.mailboxes ≡ length lists.now) }
        ensures none { IfOk result (λ room. vec_len room.receipts ≡ 0) }
        ensures receipts { IfOk result (λ room. length lists.now ≤ vec_capacity room.receipts) }
        ensures partitions { IfOk result (λ room. partitions ≤ vec_capacity room.partitions.items) }
        ensures sites { IfOk result (λ room. partitions ≤ vec_capacity room.sites.items) }
        ensures chapters { IfOk result (λ room. partitions ≤ vec_capacity room.chapters.items) }
    {
        let admission = Admission::new(lists, arities_of(alloc, loaded)?);
        let (mut quit, readers) = open_inboxes(alloc, partitions, lists.len() + 1)?;
        let executors = seat_executors(alloc, readers, quit.as_mut_slice())?;
        let clients = seat_clients(alloc, lists, quit.as_mut_slice())?;
        Ok(Reserved {
            admission,
            quit,
            executors,
            clients,
            mailboxes: make_mailboxes(alloc, lists.len())?,
            receipts: Vec::with_capacity(alloc, lists.len())?,
            partitions: ReservedList::new(alloc, partitions)?,
            sites: ReservedList::new(alloc, partitions)?,
            hand: ReservedList::new(alloc, 1)?,
            chapters: ReservedList::new(alloc, partitions)?,
        })
    }
}
