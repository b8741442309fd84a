//! A client, and its state.
ghost use Rattle.std.specs.Prelude.{◌≡◌, ◌≤◌, ◌<◌, ◌^◌};
ghost use Rattle.tatp_workers.specs.declared.client.ClientState.TheVariants.{Free, Waiting};

use tatp_logs::Receipts;

/// The state of a client.
#[derive(Clone, Copy, Debug, PartialEq, Eq)]
pub enum ClientState {
    /// It waits for nothing: it may ask its next call.
    Free,
    /// It waits for the outcome of a call that it has asked.
    Waiting,
    /// It asks nothing more.
    Ended,
}

/// A client, with an end by which it asks and its receipts. The unused bytes at its end keep what
/// its thread writes off the cache lines of the client beside it, which may be another thread's.
#[derive(Drop)]
#[repr(C)]
pub struct Client<E> {
    pub(crate) number: u64,
    pub(crate) end: E,
    pub(crate) receipts: Receipts,
    /// How many of its calls got a receipt: the number of its next, or of that for which it waits.
    pub(crate) answered: usize,
    /// The last stamp that it has seen.
    pub(crate) seen: u64,
    pub(crate) state: ClientState,
    apart: [u64; 8],
    ghost waits: { state ≡ Waiting → (1 ≤ receipts.room) × (answered < 2 ^ 63) },
}

impl<E> Client<E> {
    /// A client that has asked nothing yet.
    pub fn new(number: u64, end: E, receipts: Receipts) -> Client<E>
        ensures number { result.number ≡ number }
        ensures end { result.end ≡ end }
        ensures receipts { result.receipts ≡ receipts }
        ensures answered { result.answered ≡ 0 }
        ensures seen { result.seen ≡ 0 }
        ensures state { result.state ≡ Free }
    {
        Client {
            number,
            end,
            receipts,
            answered: 0,
            seen: 0,
            state: ClientState::Free,
            apart: [0; 8],
        }
    }

    /// Writes to the memory that is reserved for its receipts, as [`Receipts::touch`] does. The
    /// client is as it was.
    pub fn touch(&mut self)
        ensures { self.new ≡ self.old }
    {
        self.receipts.touch();
    }
}

impl<E: Drop> Client<E> {
    /// Spends it: its receipts.
    pub fn into_receipts(self) -> Receipts
        ensures { result ≡ self.receipts }
    {
        self.receipts
    }
}
