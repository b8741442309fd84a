//! Keys of rows, sorted, and how often a key occurs among them.
ghost use Rattle.std.specs.Prelude.{◌≡◌, ℕ, ◌≤◌, ◌<◌, length, take, map, IfOk, IsSorted, IsPermutation};
ghost use Rattle.std.specs.Cmp.Lexicographic.{slice_cmp};
ghost use Rattle.std.specs.Ordering.{nat_cmp, is_lt, is_le};
ghost use Rattle.tatp_audits.specs.Failing.{times};
ghost use Rattle.tatp_audits.specs.Audits.{numbers};

use std::alloc::{AllocError, Global};

/// The first columns of a row.
pub(crate) fn front<const M: usize, const N: usize>(row: &[u64; M]) -> [u64; N]
    requires { N ≤ M }
    ensures front { result ≡ take N row.now }
    ensures length { length result ≡ N }
{
    let mut key = [0; N];
    key.copy_from_slice(&row[..N]);
    key
}

/// The front of each row.
fn keys_of<const M: usize, const N: usize>(
    alloc: Global,
    rows: &[[u64; M]],
) -> Result<Vec<[u64; N]>, AllocError>
    requires { N ≤ M }
    ensures { IfOk result (λ keys. keys.items ≡ map (take N) rows.now) }
{
    let mut keys = Vec::with_capacity(alloc, rows.len())?;
    for row in rows {
        keys.push(front(row))?;
    }
    Ok(keys)
}

/// The front of each row, sorted.
pub(crate) fn sorted_keys<const M: usize, const N: usize>(
    alloc: Global,
    rows: &[[u64; M]],
) -> Result<Vec<[u64; N]>, AllocError>
    requires { N ≤ M }
    ensures moved { IfOk result (λ keys. IsPermutation (map (take N) rows.now) keys.items) }
    ensures sorted { IfOk result (λ keys. IsSorted (slice_cmp nat_cmp) keys.items) }
{
    let mut keys = keys_of(alloc, rows)?;
    keys.sort_unstable();
    Ok(keys)
}

/// The number of each Subscriber row, sorted.
pub(crate) fn sorted_numbers<const M: usize>(
    alloc: Global,
    rows: &[[u64; M]],
) -> Result<Vec<[u64; 1]>, AllocError>
    requires { 1 < M }
    ensures moved { IfOk result (λ keys. IsPermutation (numbers rows.now) keys.items) }
    ensures sorted { IfOk result (λ keys. IsSorted (slice_cmp nat_cmp) keys.items) }
{
    let mut keys = Vec::with_capacity(alloc, rows.len())?;
    for row in rows {
        keys.push([row[1]])?;
    }
    keys.sort_unstable();
    Ok(keys)
}

/// How often a key occurs among sorted keys.
pub(crate) fn times_of<const N: usize>(keys: &[[u64; N]], key: &[u64; N]) -> usize
    requires { IsSorted (slice_cmp nat_cmp) keys.now }
    ensures { result ≡ times keys.now key.now }
{
    let end = keys.partition_point(
        |other: &[u64; N]| -> bool
            ensures { result ≡ is_le (slice_cmp nat_cmp other.now key.entry.now) }
        { other.cmp(key).is_le() },
    );
    let start = keys.partition_point(
        |other: &[u64; N]| -> bool
            ensures { result ≡ is_lt (slice_cmp nat_cmp other.now key.entry.now) }
        { other.cmp(key).is_lt() },
    );
    end - start
}
