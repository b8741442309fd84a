//! What a run of the benchmark is asked to be.
use crate::Distribution;

/// A run of the benchmark: over which database, by how many clients, with how many calls, moves and
/// stops, and how long logs may grow.
#[derive(Clone, Copy, Debug, PartialEq, Eq)]
pub struct BenchPlan {
    /// How many subscribers the database has, 1 to `MAX_SUBSCRIBERS`.
    pub subscribers: u64,
    /// Over how many partitions the subscribers are dealt, 1 to `MAX_PARTITIONS`.
    pub partitions: u8,
    /// How many clients call at once, 1 to `MAX_CLIENTS`.
    pub clients: u16,
    /// How many calls each client makes, 1 to `MAX_BENCH_CALLS`.
    pub calls: u64,
    /// The seed of all random words.
    pub seed: u64,
    /// How the calls are distributed over the subscribers.
    pub distribution: Distribution,
    /// How often an extent is to be moved while the calls run, at most `MAX_BENCH_MOVES`.
    pub moves: u64,
    /// How often a partition is to be stopped while the calls run, at most `MAX_BENCH_STOPS`.
    pub stops: u64,
    /// How many entries a log has when a chapter of it is handed out, 1 to `MAX_BENCH_CHAPTER`.
    pub chapter: u64,
}
