//! A system that is opened.
ghost use Rattle.std.specs.Prelude.{◌≡◌, ◌≤◌, [], IfOk, IfErr, OnOk, length, replicate};
ghost use Rattle.tatp_tables.specs.Clean.{IsClean};
ghost use Rattle.tatp_extents.specs.Opening.{RefusesRows};
ghost use Rattle.tatp_move.specs.Routing.{opened_routes};
ghost use Rattle.tatp_dispatch.specs.Opened.{new_client};

use super::World;
use crate::client::Client;
use crate::queue::Queue;
use std::alloc::{AllocError, Global};
use tatp_extents::{OpenError, admit, discard_all, open_clean};
use tatp_limits::{MAX_CLIENTS, MAX_PARTITIONS, MAX_SUBSCRIBERS};
use tatp_loader::Loaded;
use tatp_logs::Completions;
use tatp_move::Routes;
use tatp_partition::{CompletionBuffer, Slots, open_sites};
use tatp_tables::Rows;

/// A queue for each partition, all empty.
fn empty_queues(alloc: Global, partitions: u8) -> Result<Vec<Queue>, AllocError>
    ensures { IfOk result (λ queues. queues.items ≡ replicate partitions []) }
{
    let mut queues = Vec::with_capacity(alloc, partitions as usize)?;
    for _ in 0..partitions {
        queues.push_reserved(Queue::new(alloc)?);
    }
    Ok(queues)
}

/// The clients, which have asked nothing.
fn new_clients(alloc: Global, clients: u16) -> Result<Vec<Client>, AllocError>
    ensures { IfOk result (λ made. made.items ≡ replicate clients new_client) }
{
    let mut made = Vec::with_capacity(alloc, clients as usize)?;
    for _ in 0..clients {
        made.push_reserved(Client {
            accepted: 0,
            refused: 0,
            is_busy: false,
            seen: 0,
        });
    }
    Ok(made)
}

/// What is between the clients and the sites: the routes, the queues and the clients
/// themselves.
#[derive(Drop)]
struct FrontEnd {
    routes: Routes,
    queues: Vec<Queue>,
    clients: Vec<Client>,
}

impl FrontEnd {
    fn open(
        alloc: Global,
        subscribers: u64,
        partitions: u8,
        clients: u16,
    ) -> Result<FrontEnd, AllocError>
        requires few { subscribers ≤ MAX_SUBSCRIBERS }
        requires some { 1 ≤ partitions }
        ensures routes { IfOk result
            (λ front. front.routes ≡ opened_routes subscribers partitions) }
        ensures queues { IfOk result (λ front. front.queues.items ≡ replicate partitions []) }
        ensures clients { IfOk result
            (λ front. front.clients.items ≡ replicate clients new_client) }
    {
        Ok(FrontEnd {
            routes: Routes::open(alloc, subscribers, partitions)?,
            queues: empty_queues(alloc, partitions)?,
            clients: new_clients(alloc, clients)?,
        })
    }
}

impl<'m> World<'m> {
    ghost use Rattle.tatp_limits.specs.declared.limits.TheConstants.{MAX_CLIENTS, MAX_PARTITIONS, MAX_SUBSCRIBERS};
    ghost use Rattle.tatp_dispatch.specs.Opened.{IsOpened};
    ghost use Rattle.tatp_dispatch.specs.Serving.{IsWorld};

    /// The system with these rows, and these numbers of partitions and clients. The rows are
    /// consumed, on a refusal too.
    pub fn open(
        alloc: Global,
        loaded: &'m Loaded,
        rows: Rows,
        partitions: u8,
        clients: u16,
    ) -> Result<World<'m>, OpenError>
        requires some_partitions { 1 ≤ partitions }
        requires few_partitions { partitions ≤ MAX_PARTITIONS }
        requires few_clients { clients ≤ MAX_CLIENTS }
        ensures opened { IfOk result (IsOpened loaded.now rows partitions clients) }
        ensures world { IfOk result IsWorld }
        ensures few { OnOk result (length rows.subscribers ≤ MAX_SUBSCRIBERS) }
        ensures clean { OnOk result (IsClean rows) }
        ensures refusal { IfErr result (RefusesRows rows) }
    {
        admit(alloc, &rows)?;
        Ok(World::open_clean(alloc, loaded, rows, partitions, clients)?)
    }

    /// The system with these rows, as [`World::open`] opens it, where the rows are known to be
    /// clean, as drawn ones are, and so aren't audited. The rows are consumed, where memory is
    /// refused too.
    pub fn open_clean(
        alloc: Global,
        loaded: &'m Loaded,
        rows: Rows,
        partitions: u8,
        clients: u16,
    ) -> Result<World<'m>, AllocError>
        requires some_partitions { 1 ≤ partitions }
        requires few_partitions { partitions ≤ MAX_PARTITIONS }
        requires few_clients { clients ≤ MAX_CLIENTS }
        requires clean { IsClean rows }
        requires few { length rows.subscribers ≤ MAX_SUBSCRIBERS }
        ensures opened { IfOk result (IsOpened loaded.now rows partitions clients) }
        ensures world { IfOk result IsWorld }
    {
        let subscribers = rows.subscribers.len() as u64;
        let front = FrontEnd::open(alloc, subscribers, partitions, clients)?;
        let (extents, directory) = open_clean(alloc, rows)?;
        let parcels = match Slots::empty(alloc, extents.len() as u32) {
            Ok(parcels) => parcels,
            Err(error) => {
                discard_all(extents);
                return Err(error);
            }
        };
        let sites = match open_sites(alloc, loaded, partitions, extents) {
            Ok(sites) => sites,
            Err(error) => {
                discard_all(parcels.into_items());
                return Err(error);
            }
        };
        // For the proof: a module that is loaded is lawful.
        let _module = loaded.module();
        Ok(World {
            loaded,
            directory,
            sites,
            queues: front.queues,
            routes: front.routes,
            parcels,
            landings: Vec::new(alloc),
            clients: front.clients,
            completions: Completions::new(alloc),
            chapters: Vec::new(alloc),
            buffer: CompletionBuffer::empty(),
        })
    }
}
