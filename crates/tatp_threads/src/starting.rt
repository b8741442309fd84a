//! Starts the threads of a run, and waits for their ends.
ghost use denote.Param.Send.{IsSend};
ghost use Rattle.std.specs.Prelude.{◌≡◌, ◌≤◌, ◌*◌, ◌⊎◌, length, vec_len};
ghost use Rattle.tatp_threads.specs.Seats.{AreExecutors, AreClients};
ghost use Rattle.tatp_threads.specs.declared.starting.TheConstants.{CLIENT_THREADS};

use crate::admission::{Port, RunCalls};
use crate::client::{ask_calls, touch_receipts};
use crate::debugger::debug_partitions;
use crate::executor::execute;
use crate::mover::move_extents;
use crate::request::InboxMessage;
use crate::reserved::{ClientSeat, ExecutorSeat};
use crate::shared::Shared;
use std::sync::Wait;
use std::thread;
use std::thread::Threads;
use tatp_move::Routes;
use tatp_partition::Parcel;
use tatp_workers::Gate;

/// How many threads the clients have at least, if there are as many clients. They have fewer than
/// twice as many.
pub(crate) const CLIENT_THREADS: usize = 4;

/// Runs all threads to their ends: the executors until all clients, the mover and the debugger have
/// ended. Each inbox then gets Quit, by the ends in `quit`. Whether each thread could be started;
/// where one couldn't, those that could run to their ends.
pub(crate) fn run_threads<R: Threads + Wait + Sync, G: Gate + Sync, A: RunCalls + Send + Sync>(
    rt: &R,
    shared: &Shared<G, A>,
    quit: Vec<Port<A>>,
    executors: Vec<ExecutorSeat<A>>,
    clients: &mut [ClientSeat<A>],
    routes: &mut Routes,
    hand: &mut Vec<Parcel>,
) -> bool
    requires partitions { vec_len quit ≡ length shared.now.partitions.now }
    requires executors { AreExecutors quit.items executors.items }
    requires clients { AreClients shared.now.plan.lists.now quit.items clients.old }
    requires mailboxes { length shared.now.mailboxes.now ≡ length shared.now.plan.lists.now }
{
    let mut quit = quit;
    let quit = quit.as_mut_slice();
    thread::scope(
        thread::scope_env(),
        rt,
        |outer| -> bool
            requires { IsSend A.row }
        {
            let mut started = true;
            for (partition, seat) in shared.partitions.iter().zip(executors) {
                if started
                    && outer
                        .spawn(move || execute(rt, shared, partition, seat))
                        .is_err()
                {
                    started = false;
                }
            }
            shared.beginning.part_executors(rt);
            if started {
                started = run_clients(rt, shared, clients, routes, hand);
            }
            for port in quit.iter_mut() {
                let _put = port.put(rt, InboxMessage::Quit);
            }
            started
        },
    )
}

/// How many clients share a thread. Up to seven clients have a thread each. More share threads, so
/// that not all processors are busy with clients that wait for an answer.
fn clients_a_thread(clients: usize) -> usize
    ensures some { 1 ≤ result }
    ensures few { (result ≡ 1) ⊎ (result * CLIENT_THREADS ≤ clients) }
{
    (clients / CLIENT_THREADS).max(1)
}

/// Runs the clients, the mover and the debugger to their ends. They begin together, when all are
/// started or one couldn't be. Whether each could. The thread that starts the others runs the first
/// clients: where it slept instead, its processor would lack a thread until the system moved one
/// there, an executor perhaps.
fn run_clients<R: Threads + Wait + Sync, G: Gate + Sync, A: RunCalls + Send + Sync>(
    rt: &R,
    shared: &Shared<G, A>,
    clients: &mut [ClientSeat<A>],
    routes: &mut Routes,
    hand: &mut Vec<Parcel>,
) -> bool {
    let started = thread::scope(thread::scope_env(), rt, |inner| -> bool {
        let mut started = true;
        let many = clients_a_thread(clients.len());
        let first = many.min(clients.len());
        let (own, others) = clients.split_at_mut(first);
        for seats in others.chunks_mut(many) {
            let ask = move || {
                touch_receipts(seats);
                ask_calls(rt, shared, seats);
            };
            if started && inner.spawn(ask).is_err() {
                started = false;
            }
        }
        let started = started
            && inner
                .spawn(move || move_extents(rt, shared, routes, hand))
                .is_ok()
            && inner.spawn(move || debug_partitions(rt, shared)).is_ok();
        touch_receipts(own);
        shared.beginning.await_executors(rt);
        shared.gate.before_calls();
        shared.beginning.open();
        ask_calls(rt, shared, own);
        started
    });
    shared.gate.after_calls();
    started
}
