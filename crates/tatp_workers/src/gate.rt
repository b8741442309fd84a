//! Who watches the executors, the debugger and the clients.

use tatp_debug::Snapshot;
use tatp_partition::SiteRefusal;

/// Is called by the threads as calls make steps and end. It must return for the run to continue.
pub trait Gate {
    /// An executor is about to make a step of a client's call, from this position of its procedure.
    /// It holds its partition's lock. No step is announced that is refused, as at a stopped site,
    /// and none that the debugger makes.
    fn before_step(&self, partition: u8, client: u64, pc: usize);

    /// A client's call has ended, by an executor's step or the debugger's, and its reply can be
    /// taken.
    fn after_end(&self, partition: u8, client: u64);

    /// The debugger has looked at the site of a partition that it stopped, and seen this of the
    /// running call, or that none runs. The step that it then makes there is still to come.
    fn after_look(&self, partition: u8, seen: &Result<Snapshot, SiteRefusal>);

    /// A client is about to ask its call of this number, counted from 0.
    fn before_ask(&self, _client: u64, _number: u64) {}

    /// A client has the outcome of its call of this number: a receipt, or that it was dropped.
    fn after_answer(&self, _client: u64, _number: u64) {}

    /// Clients, mover and debugger wait for the word to begin, as far as they could be started.
    fn before_calls(&self) {}

    /// All threads but the executors have ended.
    fn after_calls(&self) {}
}

/// Watches nothing.
#[derive(Clone, Copy, Debug)]
pub struct NoGate;

impl Gate for NoGate {
    fn before_step(&self, _partition: u8, _client: u64, _pc: usize) {}

    fn after_end(&self, _partition: u8, _client: u64) {}

    fn after_look(&self, _partition: u8, _seen: &Result<Snapshot, SiteRefusal>) {}
}
