//! The s_ids run from 1.
ghost use Rattle.std.specs.Prelude.{◌≡◌, ◌<◌, IfOk};
ghost use Rattle.tatp_audits.specs.Failing.{Finds};
ghost use Rattle.tatp_audits.specs.Audits.{is_astray};

use crate::keys::{sorted_keys, times_of};
use std::alloc::{AllocError, Global};

/// The least of 1 to the number of rows, and 1 where there is none, that isn't the s_id of exactly
/// one row.
pub(crate) fn least_astray<const M: usize>(
    alloc: Global,
    rows: &[[u64; M]],
) -> Result<Option<[u64; 1]>, AllocError>
    requires { 0 < M }
    ensures { IfOk result (Finds (is_astray rows.now)) }
{
    let keys = sorted_keys::<M, 1>(alloc, rows)?;
    for before in 0..rows.len().max(1) {
        let key = [before as u64 + 1];
        if times_of(&keys, &key) != 1 {
            return Ok(Some(key));
        }
    }
    Ok(None)
}
