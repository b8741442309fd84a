//! The lines of `trace`.
use tatp_events::Event;

/// What a line of `trace` asks for.
#[derive(Clone, Copy, Debug)]
pub enum TraceLine {
    /// One event.
    Event(Event),
    /// A site makes steps: the partition, how many.
    Steps(u64, u64),
    /// The running call of a partition's site is shown.
    Look(u64),
    /// The home of a subscriber at a partition's site is shown: the partition, the s_id.
    Home(u64, u64),
    /// The rows of all sites and of all parcels in hand are audited.
    Audit,
}
