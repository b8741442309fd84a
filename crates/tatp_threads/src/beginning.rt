//! How the threads of a run begin.

use crate::starting::CLIENT_THREADS;
use std::sync::Wait;
use std::time::Duration;
use tatp_sync::{Latch, pause};

/// For how many milliseconds the executors run alone, and then the clients. In that time the system
/// gives each of them a processor, if there are enough, and leaves it there as long as it doesn't
/// sleep.
const ALONE: u64 = 60;

/// Where the threads of a run wait for each other before its first call.
///
/// The system counts threads alone. Where clients started beside the executors, it would place two
/// of them on one processor now and then, and later move a thread from there to the processor that
/// has no client: at times the executor, which then shares that processor with another to the end.
/// So the executors come apart first, and sleep while the clients do. Each wakes by itself, and so
/// on its own processor.
#[derive(Drop)]
pub(crate) struct Beginning {
    /// Open once the executors have come apart.
    apart: Latch,
    /// Open once all executors are awake again.
    awake: Latch,
    /// Open once clients, mover and debugger may begin.
    start: Latch,
}

impl Beginning {
    /// Of a run with so many executors.
    pub(crate) fn new(executors: usize) -> Beginning {
        Beginning {
            apart: Latch::new(1),
            awake: Latch::new(executors as u64),
            start: Latch::new(1),
        }
    }

    /// Lets the executors that are started run alone.
    pub(crate) fn part_executors<R: Wait>(&self, rt: &R) {
        pause(rt, Duration::from_millis(ALONE));
        self.apart.count_down();
    }

    /// What an executor does before it takes calls of so many clients. It stays awake where these
    /// have too few threads to keep all processors busy: it could wake on another's.
    pub(crate) fn prepare_executor<R: Wait>(&self, rt: &R, clients: usize) {
        self.apart.wait(rt);
        if clients >= CLIENT_THREADS {
            pause(rt, Duration::from_millis(ALONE));
        }
        self.awake.count_down();
    }

    /// Waits, without sleep, until all executors take calls.
    pub(crate) fn await_executors<R: Wait>(&self, rt: &R) {
        self.awake.wait(rt);
    }

    /// Lets clients, mover and debugger begin.
    pub(crate) fn open(&self) {
        self.start.count_down();
    }

    /// What the thread of clients does before their first calls.
    pub(crate) fn prepare_clients<R: Wait>(&self, rt: &R) {
        self.start.wait(rt);
    }

    /// What the mover and the debugger do first. They sleep, for they are more threads than the
    /// executors leave processors for.
    pub(crate) fn prepare_others<R: Wait>(&self, rt: &R) {
        self.start.sleep(rt);
    }
}
