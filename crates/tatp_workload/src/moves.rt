//! What the mover and the debugger do, drawn from random words.
ghost use Rattle.std.specs.Prelude.{◌≡◌, ◌-◌, ◌≤◌, IfOk};
ghost use Rattle.rand_core.specs.Stream.{next_u64};
ghost use Rattle.tatp_population.specs.Drawn.{choices};
ghost use Rattle.tatp_workload.specs.Drawn.{next_moves};

use rand_core::Rng;
use std::alloc::{AllocError, Global};
use tatp_population::choose;

/// Drawn moves, each of one of the extents, counted from 1, to one of the partitions. All memory
/// is reserved before the first word is taken.
pub(crate) fn draw_moves<R: Rng>(
    alloc: Global,
    count: u64,
    extents: u32,
    partitions: u8,
    words: &mut R,
) -> Result<Vec<(u32, u8)>, AllocError>
    requires extents { 1 ≤ extents }
    requires partitions { 1 ≤ partitions }
    ensures { IfOk result
        (λ moves. moves.items ≡ (next_moves extents partitions count (R.stream words.old)).0) }
{
    let mut moves = Vec::with_capacity(alloc, count as usize)?;
    for _ in 0..count {
        let extent = choose(1, extents as u64, words);
        let partition = choose(0, partitions as u64 - 1, words);
        moves.push_reserved((extent as u32, partition as u8));
    }
    Ok(moves)
}

/// Drawn stops, each of one of the partitions. All memory is reserved before the first word is
/// taken.
pub(crate) fn draw_stops<R: Rng>(
    alloc: Global,
    count: u64,
    partitions: u8,
    words: &mut R,
) -> Result<Vec<u8>, AllocError>
    requires { 1 ≤ partitions }
    ensures { IfOk result
        (λ stops. stops.items
        ≡ (choices next_u64 count 0 (partitions - 1) (R.stream words.old)).0) }
{
    let mut stops = Vec::with_capacity(alloc, count as usize)?;
    for _ in 0..count {
        stops.push_reserved(choose(0, partitions as u64 - 1, words) as u8);
    }
    Ok(stops)
}
