//! Runs the calls of clients by threads.
ghost use Rattle.std.specs.Prelude.{◌≡◌, ◌⊎◌, ◌≤◌, ◌<◌, ◌+◌, ◌^◌, IfOk, IfErr, OnOk, None, length, vec_len, vec_capacity};
ghost use Rattle.tatp_calls.specs.Asked.{arities_of};
ghost use Rattle.tatp_threads.specs.Calls.{obstacle_among, opening_refusal, AreOpened, RefusesRun};
ghost use Rattle.tatp_threads.specs.RunPlans.{IsRunPlan};

use crate::admission::RunCalls;
use crate::beginning::Beginning;
use crate::calls::obstacle_among;
use crate::partition::Partition;
use crate::reserved::{ClientSeat, Reserved, calls_an_extent};
use crate::routes::SharedRoutes;
use crate::shared::Shared;
use crate::starting::run_threads;
use crate::{RunOutcome, RunOutcomeParts, RunPlan, RunRefusal};
use std::alloc::{AllocError, Global};
use std::marker::Brand;
use std::sync::Wait;
use std::thread::Threads;
use tatp_extents::{Chapter, OpenError, admit, discard_all, open_clean, reserve_logs};
use tatp_limits::MAX_CLIENTS;
use tatp_loader::Loaded;
use tatp_logs::Receipts;
use tatp_move::Routes;
use tatp_numbers::Directory;
use tatp_partition::{Site, open_sites};
use tatp_tables::Rows;
use tatp_workers::Gate;

/// Why a run is refused, by why its rows aren't opened.
fn refusal_of(error: OpenError) -> RunRefusal
    ensures { result ≡ opening_refusal error }
{
    match error {
        OpenError::TooMany => RunRefusal::TooMany,
        OpenError::NotClean(verdict) => RunRefusal::NotClean(verdict),
        OpenError::NoMemory => RunRefusal::NoMemory,
    }
}

/// Puts each site under a lock of its own.
fn lock_all<'m>(alloc: Global, sites: Vec<Site<'m>>, room: Vec<Partition<'m>>) -> Vec<Partition<'m>>
    requires { vec_len room + vec_len sites ≤ vec_capacity room }
    ensures { vec_len result ≡ vec_len room.entry + vec_len sites.entry }
{
    let mut partitions = room;
    let mut rest = sites.into_iter();
    while let Some(site) = rest.next() {
        partitions.push_reserved(Partition::new(alloc, site));
    }
    rest.destroy_empty();
    partitions
}

/// Takes the sites out of their locks, and the chapters of each.
fn unlock_all<'m>(
    partitions: Vec<Partition<'m>>,
    room: Vec<Site<'m>>,
    room_for_chapters: Vec<Vec<Chapter>>,
) -> (Vec<Site<'m>>, Vec<Vec<Chapter>>)
    requires sites { vec_len room + vec_len partitions ≤ vec_capacity room }
    requires chapters { vec_len room_for_chapters + vec_len partitions
        ≤ vec_capacity room_for_chapters }
    ensures sites { vec_len result.0 ≡ vec_len room.entry + vec_len partitions.entry }
    ensures chapters { vec_len result.1
        ≡ vec_len room_for_chapters + vec_len partitions.entry }
{
    let mut sites = room;
    let mut chapters = room_for_chapters;
    let mut rest = partitions.into_iter();
    while let Some(partition) = rest.next() {
        let (site, handed_out) = partition.into_parts();
        sites.push_reserved(site);
        chapters.push_reserved(handed_out);
    }
    rest.destroy_empty();
    (sites, chapters)
}

/// Takes the receipts of all clients out of their seats.
fn receipts_of<A: RunCalls>(clients: Vec<ClientSeat<A>>, room: Vec<Receipts>) -> Vec<Receipts>
    requires { vec_len room + vec_len clients ≤ vec_capacity room }
    ensures { vec_len result ≡ vec_len room + vec_len clients }
{
    let mut receipts = room;
    for client in clients {
        receipts.push_reserved(client.into_receipts());
    }
    receipts
}

/// What a run is set up with: its module, where calls go, its sites, and what the threads are to
/// do.
struct Setup<'m, 'w> {
    loaded: &'m Loaded,
    directory: Directory,
    routes: Routes,
    shared_routes: SharedRoutes,
    sites: Vec<Site<'m>>,
    plan: RunPlan<'w>,
}

/// Runs the calls of clients, which can all be run, over sites, and returns the result.
fn run_ruled<'m, R: Threads + Wait + Sync, G: Gate + Sync, A: RunCalls + Send + Sync>(
    rt: &R,
    alloc: Global,
    setup: Setup<'m, '_>,
    gate: &G,
) -> Result<RunOutcome<'m>, RunRefusal>
    requires clients { length setup.plan.lists.now ≤ MAX_CLIENTS }
    requires lists { setup.plan.lists.now ≡ A.lists }
    requires arities { arities_of setup.loaded.now ≡ A.arities }
    ensures sites { IfOk result (λ ran. vec_len ran.parts.sites ≡ vec_len setup.entry.sites) }
    ensures receipts { IfOk result
        (λ ran. vec_len ran.parts.receipts ≡ length setup.entry.plan.lists.now) }
    ensures chapters { IfOk result (λ ran. vec_len ran.parts.chapters ≡ vec_len setup.entry.sites) }
    ensures refusal { IfErr result
        (λ refusal. (refusal ≡ RunRefusal.NoMemory) ⊎ (refusal ≡ RunRefusal.NoThread)) }
{
    let Setup {
        loaded,
        directory,
        mut routes,
        shared_routes,
        sites,
        plan,
    } = setup;
    let Reserved {
        admission,
        quit,
        executors,
        mut clients,
        mailboxes,
        receipts,
        partitions,
        sites: unlocked,
        hand,
        chapters,
    } = match Reserved::<A>::make(alloc, loaded, sites.len(), plan.lists) {
        Ok(reserved) => reserved,
        Err(_) => {
            discard_all(sites);
            return Err(RunRefusal::NoMemory);
        }
    };
    let partitions = lock_all(alloc, sites, partitions.into_vec());
    let mut hand = hand.into_vec();
    let beginning = Beginning::new(partitions.len());
    let shared = Shared {
        alloc,
        partitions: partitions.as_slice(),
        routes: &shared_routes,
        directory: &directory,
        admission: &admission,
        mailboxes: mailboxes.as_slice(),
        plan,
        gate,
        beginning: &beginning,
    };
    let seats = clients.as_mut_slice();
    let started = run_threads(rt, &shared, quit, executors, seats, &mut routes, &mut hand);
    let (sites, chapters) = unlock_all(partitions, unlocked.into_vec(), chapters.into_vec());
    if !started {
        discard_all(sites);
        discard_all(hand);
        discard_all(chapters);
        return Err(RunRefusal::NoThread);
    }
    Ok(RunOutcome::new(RunOutcomeParts {
        sites,
        parcels: hand,
        chapters,
        receipts: receipts_of(clients, receipts),
    }))
}

/// As [`run_calls`], for rows that are clean and calls that can all be run, as drawn ones are, so
/// that neither are checked. Memory or a thread may be refused.
pub fn run_clean_calls<'m, R: Threads + Wait + Sync, G: Gate + Sync>(
    rt: &R,
    alloc: Global,
    loaded: &'m Loaded,
    rows: Rows,
    plan: RunPlan<'_>,
    gate: &G,
) -> Result<RunOutcome<'m>, RunRefusal>
    requires plan { IsRunPlan plan }
    requires rows { AreOpened rows }
    requires calls { obstacle_among loaded.now plan.lists.now ≡ None }
    ensures sites { IfOk result (λ ran. vec_len ran.parts.sites ≡ plan.entry.partitions) }
    ensures receipts { IfOk result
        (λ ran. vec_len ran.parts.receipts ≡ length plan.entry.lists.now) }
    ensures chapters { IfOk result (λ ran. vec_len ran.parts.chapters ≡ plan.entry.partitions) }
    ensures refusal { IfErr result
        (λ refusal. (refusal ≡ RunRefusal.NoMemory) ⊎ (refusal ≡ RunRefusal.NoThread)) }
{
    let subscribers = rows.subscribers.len() as u64;
    let (mut extents, directory) = open_clean(alloc, rows)?;
    let routes = match Routes::open(alloc, subscribers, plan.partitions) {
        Ok(routes) => routes,
        Err(_) => {
            discard_all(extents);
            return Err(RunRefusal::NoMemory);
        }
    };
    let shared_routes = match SharedRoutes::new(alloc, &routes, extents.len()) {
        Ok(shared_routes) => shared_routes,
        Err(_) => {
            discard_all(extents);
            return Err(RunRefusal::NoMemory);
        }
    };
    let room = calls_an_extent(plan.lists, extents.len(), plan.chapter);
    if reserve_logs(extents.as_mut_slice(), room).is_err() {
        discard_all(extents);
        return Err(RunRefusal::NoMemory);
    }
    let sites = open_sites(alloc, loaded, plan.partitions, extents)?;
    let setup = Setup {
        loaded,
        directory,
        routes,
        shared_routes,
        sites,
        plan,
    };
    run_ruled::<R, G, Brand>(rt, alloc, setup, gate)
}

/// Runs a plan on these rows, by an executor for each partition, threads for the clients, a mover
/// and a debugger, and returns the result. After the end of a call the executor hands out the log
/// of its extent, where it has as many entries as the plan says, or more. Where memory for the
/// chapter is refused, or the site refuses, the run continues without it. The rows are consumed,
/// on a refusal too.
pub fn run_calls<'m, R: Threads + Wait + Sync, G: Gate + Sync>(
    rt: &R,
    alloc: Global,
    loaded: &'m Loaded,
    rows: Rows,
    plan: RunPlan<'_>,
    gate: &G,
) -> Result<RunOutcome<'m>, RunRefusal>
    requires plan { IsRunPlan plan }
    ensures sites { IfOk result (λ ran. vec_len ran.parts.sites ≡ plan.entry.partitions) }
    ensures receipts { IfOk result
        (λ ran. vec_len ran.parts.receipts ≡ length plan.entry.lists.now) }
    ensures chapters { IfOk result (λ ran. vec_len ran.parts.chapters ≡ plan.entry.partitions) }
    ensures rows { OnOk result (AreOpened rows) }
    ensures calls { OnOk result (obstacle_among loaded.now plan.entry.lists.now ≡ None) }
    ensures refusal { IfErr result (RefusesRun loaded.now rows plan.entry.lists.now) }
{
    if let Err(error) = admit(alloc, &rows) {
        return Err(refusal_of(error));
    }
    if let Some(refusal) = obstacle_among(rt, loaded, plan.lists) {
        return Err(refusal);
    }
    run_clean_calls(rt, alloc, loaded, rows, plan, gate)
}
