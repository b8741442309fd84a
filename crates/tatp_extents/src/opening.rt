//! Clean rows opened into extents.
ghost use Rattle.std.specs.Prelude.{◌≡◌, ◌≤◌, IfOk, IfErr, OnOk, length};
ghost use Rattle.std.specs.List.{flat_map};
ghost use Rattle.tatp_tables.specs.Tuples.{set_of};
ghost use Rattle.tatp_tables.specs.Database.{database_of};
ghost use Rattle.tatp_tables.specs.Clean.{IsClean};
ghost use Rattle.tatp_homes.specs.Loading.{homes_in};
ghost use Rattle.tatp_numbers.specs.Homes.{home_of_key};
ghost use Rattle.tatp_numbers.specs.Listing.{answer};
ghost use Rattle.tatp_numbers.specs.declared.key.Key.{Key};
ghost use Rattle.tatp_extents.specs.Opening.{opened_extents, RefusesRows};

use crate::{Extent, OpenError, discard_all};
use std::alloc::{AllocError, Global};
use tatp_audits::audit;
use tatp_homes::homes_in_lists;
use tatp_limits::{EXTENT_SUBSCRIBERS, MAX_PARTITIONS, MAX_SUBSCRIBERS};
use tatp_numbers::Directory;
use tatp_tables::Rows;

/// Reserves the log of each extent for about `calls` calls of the benchmark's mix.
pub fn reserve_logs(extents: &mut [Extent], calls: usize) -> Result<(), AllocError>
    ensures { extents.new ≡ extents.old }
{
    for extent in extents.iter_mut() {
        extent.reserve_for(calls)?;
    }
    Ok(())
}

/// Refuses rows that aren't opened: too many, or not clean.
pub fn admit(alloc: Global, rows: &Rows) -> Result<(), OpenError>
    ensures few { OnOk result (length rows.now.subscribers ≤ MAX_SUBSCRIBERS) }
    ensures clean { OnOk result (IsClean rows.now) }
    ensures refusal { IfErr result (RefusesRows rows.now) }
{
    if rows.subscribers.len() > MAX_SUBSCRIBERS as usize {
        return Err(OpenError::TooMany);
    }
    let verdict = audit(alloc, rows)?;
    if !verdict.is_clean() {
        return Err(OpenError::NotClean(verdict));
    }
    Ok(())
}

/// The extents of clean rows, in order. The rows give up their memory before the homes are copied.
fn extents_of(alloc: Global, rows: Rows) -> Result<Vec<Extent>, AllocError>
    requires clean { IsClean rows }
    requires few { length rows.subscribers ≤ MAX_SUBSCRIBERS }
    ensures { IfOk result (λ extents.
        extents.items ≡ opened_extents (database_of rows) (length rows.subscribers)) }
{
    let lists = homes_in_lists(alloc, &rows, EXTENT_SUBSCRIBERS as usize)?;
    drop(rows);
    let mut extents = Vec::with_capacity(alloc, lists.len())?;
    for homes in lists {
        match Extent::open(alloc, extents.len() as u32 + 1, homes) {
            Ok(extent) => extents.push(extent).unwrap(),
            Err(error) => {
                discard_all(extents);
                return Err(error);
            }
        }
    }
    Ok(extents)
}

/// The extents of clean rows, in order, and the directory of their numbers: as [`open`], of rows
/// that are known to be clean, as drawn ones are, and so aren't audited. The rows are consumed,
/// where memory is refused too.
#[tactic(auto, using(crate::proofs::OpeningLaws::homes_of_all))]
pub fn open_clean(alloc: Global, rows: Rows) -> Result<(Vec<Extent>, Directory), AllocError>
    requires clean { IsClean rows }
    requires few { length rows.subscribers ≤ MAX_SUBSCRIBERS }
    ensures extents { IfOk result (λ opened.
        opened.0.items ≡ opened_extents (database_of rows) (length rows.subscribers)) }
    ensures homes { IfOk result (λ opened.
        flat_map (λ extent. extent.homes) opened.0.items
        ≡ homes_in (database_of rows) 1 (length rows.subscribers)) }
    ensures count { IfOk result (λ opened. opened.1.count ≡ length rows.subscribers) }
    ensures directory { IfOk result (λ opened. (key : Key)
        → answer opened.1 key ≡ home_of_key (set_of rows.subscribers) key) }
{
    let directory = Directory::of_clean(alloc, &rows)?;
    let extents = extents_of(alloc, rows)?;
    Ok((extents, directory))
}

/// The extents of rows, in order, and the directory of their numbers. The rows are consumed, on a
/// refusal too.
///
/// Into how many partitions the extents are dealt changes none of them.
pub fn open(
    alloc: Global,
    rows: Rows,
    partitions: u8,
) -> Result<(Vec<Extent>, Directory), OpenError>
    requires least { 1 ≤ partitions }
    requires most { partitions ≤ MAX_PARTITIONS }
    ensures extents { IfOk result (λ opened.
        opened.0.items ≡ opened_extents (database_of rows) (length rows.subscribers)) }

    // One after another the homes of the extents are those of all subscribers, each once.
    ensures homes { IfOk result (λ opened.
        flat_map (λ extent. extent.homes) opened.0.items
        ≡ homes_in (database_of rows) 1 (length rows.subscribers)) }
    ensures count { IfOk result (λ opened. opened.1.count ≡ length rows.subscribers) }
    ensures directory { IfOk result (λ opened. (key : Key)
        → answer opened.1 key ≡ home_of_key (set_of rows.subscribers) key) }
    ensures few { OnOk result (length rows.subscribers ≤ MAX_SUBSCRIBERS) }
    ensures clean { OnOk result (IsClean rows) }
    ensures refusal { IfErr result (RefusesRows rows) }
{
    let _ = partitions;
    admit(alloc, &rows)?;
    Ok(open_clean(alloc, rows)?)
}
