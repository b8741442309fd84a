//! How clients ask calls, and learn their outcomes.
ghost use Rattle.std.specs.Prelude.{◌≡◌, ◌≤◌, List, Option, None, [], ◌∷◌};
ghost use Rattle.tatp_workers.specs.Growing.{Grows, Does};
ghost use Rattle.tatp_workers.specs.Asking.{Finds};
ghost use Rattle.tatp_workers.specs.declared.requester.AskEffect.{AskEffect};
ghost use Rattle.tatp_workers.specs.declared.requester.AskEffect.TheVariants.{Asks};

use tatp_logs::{Receipt, Receipts};
use tatp_partition::Item;

/// What was done for a client.
#[derive(Clone, Copy, Debug)]
pub enum AskEffect {
    /// A call was asked, and whether it was put into an inbox.
    Asks(Item, bool),
    /// The receipt of the call came, or, without one, that it was dropped.
    Gets(Option<Receipt>),
}

/// What a look for the outcome of a call found.
#[derive(Clone, Copy, Debug, PartialEq, Eq)]
pub enum Looked {
    /// It hasn't come yet.
    NotYet,
    /// The call's receipt.
    Received,
    /// The call was dropped.
    Dropped,
}

/// Asks calls of clients and looks for their receipts. Each client has an end of its own.
pub trait Requester<E> {
    /// What was done by an end, where that is known.
    ghost effects: { E → Option (List AskEffect) } = { λ _. None };

    /// Puts a call into the inbox that its route names. Whether it was put there.
    fn ask(&self, end: &mut E, item: &Item) -> bool
        ensures { Grows (effects end.old) (effects end.new) (Asks item.now result ∷ []) };

    /// Looks whether the outcome of a client's call of this number has come. A receipt is appended
    /// to the others.
    fn look(&self, end: &mut E, client: u64, number: u64, receipts: &mut Receipts) -> Looked
        requires room { 1 ≤ receipts.old.room }
        ensures { Does (Finds result receipts.old receipts.new)
            (effects end.old) (effects end.new) };

    /// Waits a little, after `rounds` rounds of looks in vain.
    fn wait(&self, rounds: u32);
}
