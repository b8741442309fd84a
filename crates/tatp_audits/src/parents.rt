//! Rows whose parent isn't there.
ghost use Rattle.std.specs.Prelude.{◌≡◌, ◌≤◌, IfOk};
ghost use Rattle.tatp_audits.specs.Failing.{Finds};
ghost use Rattle.tatp_audits.specs.Audits.{is_orphan};

use crate::keys::{front, sorted_keys, times_of};
use crate::least::keep_least;
use std::alloc::{AllocError, Global};

/// The least key, of N columns, of a row whose parent isn't there. P columns are the parent's key.
pub(crate) fn least_orphan<const M: usize, const N: usize, const Q: usize, const P: usize>(
    alloc: Global,
    rows: &[[u64; M]],
    parents: &[[u64; Q]],
) -> Result<Option<[u64; N]>, AllocError>
    requires key { N ≤ M }
    requires parent { P ≤ M }
    requires parent_key { P ≤ Q }
    ensures { IfOk result (Finds (is_orphan P parents.now N rows.now)) }
{
    let keys = sorted_keys::<Q, P>(alloc, parents)?;
    let mut best = None;
    for row in rows {
        if times_of(&keys, &front(row)) == 0 {
            best = keep_least(best, front(row));
        }
    }
    Ok(best)
}
