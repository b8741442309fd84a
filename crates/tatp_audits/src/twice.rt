//! Keys that occur twice.
ghost use Rattle.std.specs.Prelude.{◌≡◌, ◌≤◌, ◌<◌, take, map, IfOk, IsSorted};
ghost use Rattle.std.specs.Cmp.Lexicographic.{slice_cmp};
ghost use Rattle.std.specs.Ordering.{nat_cmp};
ghost use Rattle.tatp_audits.specs.Failing.{Finds, is_twice};
ghost use Rattle.tatp_audits.specs.Audits.{numbers};

use crate::keys::{sorted_keys, sorted_numbers};
use std::alloc::{AllocError, Global};
use tatp_tables::Rows;

/// The least key that occurs twice among sorted keys.
fn least_twice<const N: usize>(keys: &[[u64; N]]) -> Option<[u64; N]>
    requires { IsSorted (slice_cmp nat_cmp) keys.now }
    ensures { Finds (is_twice keys.now) result }
{
    for i in 1..keys.len() {
        if keys[i - 1] == keys[i] {
            return Some(keys[i - 1]);
        }
    }
    None
}

/// The least number that occurs twice.
fn least_number_twice<const M: usize>(
    alloc: Global,
    rows: &[[u64; M]],
) -> Result<Option<[u64; 1]>, AllocError>
    requires { 1 < M }
    ensures { IfOk result (Finds (is_twice (numbers rows.now))) }
{
    let keys = sorted_numbers(alloc, rows)?;
    Ok(least_twice(&keys))
}

/// The least key that occurs twice.
fn least_key_twice<const M: usize, const N: usize>(
    alloc: Global,
    rows: &[[u64; M]],
) -> Result<Option<[u64; N]>, AllocError>
    requires { N ≤ M }
    ensures { IfOk result (Finds (is_twice (map (take N) rows.now))) }
{
    let keys = sorted_keys::<M, N>(alloc, rows)?;
    Ok(least_twice(&keys))
}

/// The least number that two subscribers have.
pub(crate) fn number_twice(alloc: Global, rows: &Rows) -> Result<Option<[u64; 1]>, AllocError>
    ensures { IfOk result (Finds (is_twice (numbers rows.now.subscribers))) }
{
    least_number_twice(alloc, rows.subscribers.as_slice())
}

/// The least key that two Access_Info rows have.
pub(crate) fn access_twice(alloc: Global, rows: &Rows) -> Result<Option<[u64; 2]>, AllocError>
    ensures { IfOk result (Finds (is_twice (map (take 2) rows.now.accesses))) }
{
    least_key_twice::<6, 2>(alloc, rows.accesses.as_slice())
}

/// The least key that two Special_Facility rows have.
pub(crate) fn facility_twice(alloc: Global, rows: &Rows) -> Result<Option<[u64; 2]>, AllocError>
    ensures { IfOk result (Finds (is_twice (map (take 2) rows.now.facilities))) }
{
    least_key_twice::<6, 2>(alloc, rows.facilities.as_slice())
}

/// The least key that two Call_Forwarding rows have.
pub(crate) fn forwarding_twice(alloc: Global, rows: &Rows) -> Result<Option<[u64; 3]>, AllocError>
    ensures { IfOk result (Finds (is_twice (map (take 3) rows.now.forwardings))) }
{
    least_key_twice::<5, 3>(alloc, rows.forwardings.as_slice())
}
