//! Searches among the calls of all clients, by several threads.
ghost use Rattle.std.specs.Prelude.{◌≡◌, ◌≤◌, ◌<◌, ℕ, ⊤};
ghost use denote.Param.Send.{IsSync};
ghost use Rattle.tatp_settle.specs.CallPlaces.{IsFirstNumber, IsFirstCall, IsFirstAmong};

use crate::places::CallPlace;
use std::thread::{Threads, join};

/// What is sought among the calls of all clients.
pub(crate) trait Search {
    /// Which calls are sought.
    ghost sought: { Self → ℕ → ℕ → Type 0 };

    /// What has to hold of the search.
    ghost ready: { Self → Type 0 } = { λ _. ⊤ };

    /// The number of a client's first call that is sought.
    fn first_of(&self, client: u64) -> Option<u64>
        requires { ready self.now }
        ensures { IsFirstNumber (sought self.now client) result };
}

/// How often the clients are halved. Each half is handled by a thread of its own, if one can be
/// started.
const HALVINGS: u32 = 3;

/// The first call that is sought, which is none of a client past the first `clients`.
pub(crate) fn first_call<R: Threads + Sync, S: Search + Sync>(
    rt: &R,
    search: &S,
    clients: u64,
) -> Option<CallPlace>
    requires ready { S.ready search.now }
    requires beyond { (client number : ℕ)
        → clients ≤ client → S.sought search.now client number → ⊥ }
    ensures { IsFirstCall (S.sought search.now) result }
{
    first_among(rt, search, 0, clients, HALVINGS)
}

/// The first call of these clients that is sought.
#[cycle(halves)]
fn first_among<R: Threads + Sync, S: Search + Sync>(
    rt: &R,
    search: &S,
    from: u64,
    to: u64,
    halvings: u32,
) -> Option<CallPlace>
    requires ready { S.ready search.now }
    requires some { from ≤ to }
    ensures { IsFirstAmong (S.sought search.now) from to result }
{
    if halvings == 0 || to - from < 2 {
        return first_in_turn(search, from, to);
    }
    let middle = from + (to - from) / 2;
    let lower = || -> Option<CallPlace>
        requires { IsSync R.row × IsSync S.row
            × S.ready search.now
            × (0 < halvings)
            × (from ≤ middle) }
        ensures { IsFirstAmong (S.sought search.entry.now) from middle result }
    { first_among(rt, search, from, middle, halvings - 1) };
    let upper = || -> Option<CallPlace>
        requires { IsSync R.row × IsSync S.row
            × S.ready search.now
            × (0 < halvings)
            × (middle ≤ to) }
        ensures { IsFirstAmong (S.sought search.entry.now) middle to result }
    { first_among(rt, search, middle, to, halvings - 1) };
    let (front, back) = join(rt, lower, upper);
    front.or(back)
}

/// The first call of these clients that is sought, by this thread alone.
fn first_in_turn<S: Search>(search: &S, from: u64, to: u64) -> Option<CallPlace>
    requires { S.ready search.now }
    ensures { IsFirstAmong (S.sought search.now) from to result }
{
    'clients: for client in from..to {
        if let Some(number) = search.first_of(client) {
            return Some(CallPlace { client, number });
        }
    }
    None
}
