//! Whether all calls of a run can be run, and why not.
ghost use Rattle.std.specs.Prelude.{◌≡◌, ◌<◌, IfOk};
ghost use denote.Param.Send.{IsSync};
ghost use Rattle.tatp_calls.specs.Asked.{arities_of};
ghost use Rattle.tatp_threads.specs.Calls.{obstacle_to, obstacle_in, obstacle_among};

use crate::RunRefusal;
use std::alloc::{AllocError, Global};
use std::thread::{Threads, join};
use tatp_calls::Ask;
use tatp_loader::Loaded;

/// How often the clients are halved. The calls of each half are looked through by a thread of its
/// own, if one can be made.
const HALVINGS: u32 = 2;

/// How many arguments each procedure of a module takes.
pub(crate) fn arities_of(alloc: Global, loaded: &Loaded) -> Result<Vec<u8>, AllocError>
    ensures { IfOk result (λ arities. arities.items ≡ arities_of loaded.now) }
{
    let procs = loaded.module().procs();
    let mut arities = Vec::with_capacity(alloc, procs.len())?;
    for proc in procs {
        arities.push_reserved(proc.arity());
    }
    Ok(arities)
}

/// Why a call can't be run, if it can't.
fn obstacle_to(loaded: &Loaded, ask: &Ask) -> Option<RunRefusal>
    ensures { result ≡ obstacle_to loaded.now ask.now }
{
    if !ask.has_procedure(loaded.module()) {
        return Some(RunRefusal::NoProcedure);
    }
    match ask.bad_argument() {
        None => None,
        Some(bad) => Some(RunRefusal::BadArgument(bad)),
    }
}

/// Why the first call of a list that can't be run is refused, if there is one.
fn obstacle_in(loaded: &Loaded, asks: &[Ask]) -> Option<RunRefusal>
    ensures { result ≡ obstacle_in loaded.now asks.now }
{
    for ask in asks {
        if let Some(obstacle) = obstacle_to(loaded, ask) {
            return Some(obstacle);
        }
    }
    None
}

/// Why the first call of the first client that can't be run is refused, if there is one. This
/// thread alone looks for it.
fn obstacle_in_turn(loaded: &Loaded, lists: &[Vec<Ask>]) -> Option<RunRefusal>
    ensures { result ≡ obstacle_among loaded.now lists.now }
{
    for list in lists {
        if let Some(obstacle) = obstacle_in(loaded, list.as_slice()) {
            return Some(obstacle);
        }
    }
    None
}

/// As `obstacle_in_turn`, but each half of the clients gets a thread of its own, if one can be
/// made.
#[cycle(halves)]
fn obstacle_in_parts<R: Threads + Sync>(
    rt: &R,
    loaded: &Loaded,
    lists: &[Vec<Ask>],
    halvings: u32,
) -> Option<RunRefusal>
    ensures { result ≡ obstacle_among loaded.now lists.now }
{
    if halvings == 0 || lists.len() < 2 {
        return obstacle_in_turn(loaded, lists);
    }
    let (low, high) = lists.split_at(lists.len() / 2);
    let lower = || -> Option<RunRefusal>
        requires { IsSync R.row × (0 < halvings) }
        ensures { result ≡ obstacle_among loaded.entry.now low.entry.now }
    { obstacle_in_parts(rt, loaded, low, halvings - 1) };
    let upper = || -> Option<RunRefusal>
        requires { IsSync R.row × (0 < halvings) }
        ensures { result ≡ obstacle_among loaded.entry.now high.entry.now }
    { obstacle_in_parts(rt, loaded, high, halvings - 1) };
    let (front, back) = join(rt, lower, upper);
    front.or(back)
}

/// Why the first call of the first client that can't be run is refused, if there is one.
pub(crate) fn obstacle_among<R: Threads + Sync>(
    rt: &R,
    loaded: &Loaded,
    lists: &[Vec<Ask>],
) -> Option<RunRefusal>
    ensures { result ≡ obstacle_among loaded.now lists.now }
{
    obstacle_in_parts(rt, loaded, lists, HALVINGS)
}
