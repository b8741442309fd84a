//! What is kept of completed calls is dropped in a run of many calls.
ghost use Rattle.std.specs.Prelude.{◌≡◌, ℕ, ◌≤◌, IfSome};
ghost use Rattle.tatp_procs.specs.Standard.{standard_module};
ghost use Rattle.tatp_dispatch.specs.Gathered.{gathered};
ghost use Rattle.tatp_dispatch.specs.Shown.{set_back};
ghost use Rattle.tatp_console.specs.Replying.{IsAtRestAfter};

use crate::rows::is_at_rest;
use std::alloc::Global;
use std::mem;
use tatp_dispatch::World;
use tatp_limits::MAX_PARTITIONS;

/// Of more completed calls than this, what is kept is dropped. A call takes some 460 bytes, in the
/// log of its extent and among the completions; opening the rows anew takes a copy of them.
const KEPT_CALLS: usize = 1_000_000;

/// How many partitions there are, one at least.
fn partitions_of(world: &World<'_>) -> u8
    ensures some { 1 ≤ result }
    ensures few { result ≤ MAX_PARTITIONS }
{
    'sites: for p in 1..MAX_PARTITIONS as u64 {
        if world.site(p).is_none() {
            return p as u8;
        }
    }
    MAX_PARTITIONS as u8
}

/// The system with the same rows, opened anew, where no call runs; `None` where memory is refused.
#[tactic(auto, using(crate::proofs::RenewalLaws::rows_clean, crate::proofs::RenewalLaws::rows_few, crate::proofs::RenewalLaws::opened_rest, crate::proofs::RenewalLaws::opened_back))]
fn opened_anew<'m>(alloc: Global, world: &World<'m>) -> Option<World<'m>>
    requires standard { world.now.modul ≡ standard_module }
    requires rest { set_back world.now ≡ gathered world.now }
    ensures rest { IfSome result (λ fresh. (lines : ℕ) → IsAtRestAfter lines fresh) }
    ensures back { IfSome result (λ fresh. set_back fresh ≡ set_back world.now) }
{
    let loaded = world.site(0)?.loaded();
    let Ok(rows) = world.gather(alloc) else {
        return None;
    };
    match World::open_clean(alloc, loaded, rows, partitions_of(world), 1) {
        Ok(fresh) => Some(fresh),
        Err(_) => None,
    }
}

/// The same, but `None` where a call runs.
fn opened_anew_at_rest<'m>(alloc: Global, world: &World<'m>) -> Option<World<'m>>
    requires standard { world.now.modul ≡ standard_module }
    ensures rest { IfSome result (λ fresh. (lines : ℕ) → IsAtRestAfter lines fresh) }
    ensures back { IfSome result (λ fresh. set_back fresh ≡ set_back world.now) }
{
    if is_at_rest(world) {
        opened_anew(alloc, world)
    } else {
        None
    }
}

/// Drops what is kept of the completed calls, by opening the rows anew, each time that one more
/// than [`KEPT_CALLS`] is completed, so never after the last of as many. Where memory for that is
/// refused, it is tried again after as many more. `before` of them were completed before the last
/// line. Neither replies nor rows depend on it.
pub(crate) fn let_calls_go<'m>(alloc: Global, world: &mut World<'m>, before: usize)
    requires standard { world.old.modul ≡ standard_module }
    ensures rest { (lines : ℕ) → IsAtRestAfter lines world.old → IsAtRestAfter lines world.new }
    ensures back { set_back world.new ≡ set_back world.old }
{
    let completed = world.completions().len();
    if completed > before && completed > KEPT_CALLS && completed % KEPT_CALLS == 1 {
        if let Some(fresh) = opened_anew_at_rest(alloc, world) {
            let left = mem::replace(world, fresh);
            left.close();
        }
    }
}
