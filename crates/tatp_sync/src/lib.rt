//! How threads wait for each other, and what they hand to each other: locks, latches, inboxes each
//! of whose messages meets a rule, and mailboxes.
#![tactic(auto)]

mod inbox;
mod latch;
mod locks;
mod mailbox;
mod pauses;

pub use inbox::{MessageRule, Port, Reader, ends_of, open_inboxes};
pub use latch::Latch;
pub use locks::lock;
pub use mailbox::{Mailbox, Taken};
pub use pauses::{pause, rest};

/// How often a thread looks for what it waits for, and yields, before it sleeps.
///
/// A thread that sleeps is woken by another, which takes as long as a short call, and where it goes
/// on depends on who woke it. So in a run that has calls no thread sleeps, and each stays on its
/// processor; one that has nothing to do for long does sleep. So many looks take some 400 ms, which
/// is far longer than executors wait for the first calls.
const LOOKS: u32 = 1_000_000;
