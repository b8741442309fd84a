//! Events, and what is answered.

use tatp_calls::{Ask, Reply};

/// What may happen.
#[derive(Clone, Copy, Debug)]
pub enum Event {
    /// A client asks.
    Submit(u64, Ask),
    /// The front call of a partition is offered to its site.
    Begin(u64),
    /// Memory for the front call of a partition is refused.
    Deny(u64),
    /// A site makes a step.
    Step(u64),
    /// An extent is taken from a site: the partition, the extent.
    Take(u64, u64),
    /// A parcel is given to a site: the partition, the extent.
    Give(u64, u64),
    /// A landing is routed: the extent, its moves.
    Route(u64, u64),
    /// An extent hands out a chapter: the partition, the extent.
    Checkpoint(u64, u64),
    /// A site is stopped.
    Stop(u64),
    /// A stop ends.
    Resume(u64),
    /// A site makes a step, stopped or not.
    One(u64),
    /// A breakpoint is set: the partition, the procedure, the position.
    Break(u64, u64, u64),
    /// A breakpoint is cleared: the partition, the procedure, the position.
    Clear(u64, u64, u64),
}

/// What is answered to an event that isn't refused.
#[derive(Clone, Copy, Debug)]
pub enum Answer {
    /// The call waits at a partition.
    Queued(u8),
    /// The client's call is at its entry.
    Began(u64),
    /// The call waits at another partition, or again at this one.
    Away(u8),
    /// The client's call was not begun: memory was refused.
    Denied(u64),
    /// The running call continues.
    Moved,
    /// The client's call has ended: what it asked, and the reply.
    Ended(u64, Ask, Reply),
    /// The extent is in hand: its number, its moves.
    Parcel(u32, u16),
    /// The extent has landed: its number, its moves.
    Landed(u32, u16),
    /// The extent's route is set to a partition.
    Set(u32, u8),
    /// The extent's route knew of as many moves or more.
    Superseded(u32),
    /// The extent has handed out a chapter: the extent, the chapter's index, its number of entries.
    Chapter(u32, u16, u64),
    /// It is done.
    Done,
}
