//! Rows with fewer or more rows below them than they may have.
ghost use Rattle.std.specs.Prelude.{◌≡◌, ◌≤◌, IfOk};
ghost use Rattle.tatp_lines.specs.Numbers.{is_between};
ghost use Rattle.tatp_audits.specs.Failing.{Finds};
ghost use Rattle.tatp_audits.specs.Audits.{is_miscounted};

use crate::keys::{front, sorted_keys, times_of};
use crate::least::keep_least;
use std::alloc::{AllocError, Global};

fn is_within(count: usize, least: usize, most: usize) -> bool
    ensures { result ≡ is_between least most count }
{
    least <= count && count <= most
}

/// The least s_id of a row below which there are fewer or more rows. They begin with its first P
/// columns.
pub(crate) fn least_miscounted<const M: usize, const Q: usize, const P: usize>(
    alloc: Global,
    rows: &[[u64; M]],
    below: &[[u64; Q]],
    least: usize,
    most: usize,
) -> Result<Option<[u64; 1]>, AllocError>
    requires s_id { 1 ≤ M }
    requires key { P ≤ M }
    requires key_below { P ≤ Q }
    ensures { IfOk result (Finds (is_miscounted P least most below.now rows.now)) }
{
    let keys = sorted_keys::<Q, P>(alloc, below)?;
    let mut best = None;
    for row in rows {
        if !is_within(times_of(&keys, &front(row)), least, most) {
            best = keep_least(best, front(row));
        }
    }
    Ok(best)
}
