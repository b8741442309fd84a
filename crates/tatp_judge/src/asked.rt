//! Calls that clients have open.
ghost use Rattle.std.specs.Prelude.{◌≡◌, ◌≤◌, ℕ, None, IfSome, nat_eq};
ghost use Rattle.indexmap.specs.IndexMap.{get};
ghost use Rattle.tatp_tables.specs.Database.{Database};
ghost use Rattle.tatp_history.specs.Locality.{subscriber_of};
ghost use Rattle.tatp_judge.specs.Population.{IsDirectoryOf};

use indexmap::IndexMap;
use std::alloc::Global;
use tatp_calls::Call;
use tatp_numbers::Directory;

/// An open call.
#[derive(Clone, Copy, Debug)]
pub(crate) struct Asked {
    /// The subscriber whom its key names, if it names any.
    pub(crate) s_id: Option<u64>,
    /// The number of the line that asked it.
    pub(crate) number: u64,
    /// Whether it only reads.
    pub(crate) reads: bool,
}

/// No client has a call open.
pub(crate) fn none_asked(alloc: Global) -> IndexMap<u64, Asked>
    ensures { (client : ℕ) → get nat_eq result client ≡ None }
{
    IndexMap::new(alloc)
}

/// The subscriber whom the call's key names, if it names any.
pub(crate) fn subscriber_of(directory: &Directory, call: &Call) -> Option<u64>
    ensures named { (u : Database) (n : ℕ) → IsDirectoryOf u n directory.now
        → result ≡ subscriber_of u call.now }
    ensures within { (u : Database) (n : ℕ) → IsDirectoryOf u n directory.now
        → IfSome result (λ s. (1 ≤ s) × (s ≤ n)) }
{
    directory.home_of(call.key())
}
