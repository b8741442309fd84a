//! The six audits, in their order.
ghost use Rattle.std.specs.Prelude.{◌≡◌, ◌<◌, ◌+◌, IfOk, take, slice_index, true};
ghost use Rattle.tatp_tables.specs.Clean.{IsClean};
ghost use Rattle.tatp_audits.specs.Audits.{id_tests, number_tests, key_tests, parent_tests, value_tests, count_tests, tests, Told, IsVerdict, says_clean, clean_of, is_short_or_long};
ghost use Rattle.tatp_audits.specs.Failing.{Finds};

use crate::counts::least_miscounted;
use crate::ids::least_astray;
use crate::keys::front;
use crate::least::lower;
use crate::parents::least_orphan;
use crate::twice::{access_twice, facility_twice, forwarding_twice, number_twice};
use crate::values::least_outside;
use crate::verdict::{FailedKey, Verdict};
use std::alloc::{AllocError, Global};
use tatp_tables::{Rows, Table};

/// The s_ids run from 1.
fn audit_ids(alloc: Global, rows: &Rows) -> Result<Option<Verdict>, AllocError>
    ensures { IfOk result (Told (id_tests rows.now)) }
{
    let Some(key) = least_astray(alloc, rows.subscribers.as_slice())? else {
        return Ok(None);
    };
    Ok(Some(Verdict::Ids(key[0])))
}

/// No number occurs twice.
fn audit_numbers(alloc: Global, rows: &Rows) -> Result<Option<Verdict>, AllocError>
    ensures { IfOk result (Told (number_tests rows.now)) }
{
    let Some(key) = number_twice(alloc, rows)? else {
        return Ok(None);
    };
    Ok(Some(Verdict::NumberTwice(key[0])))
}

/// No primary key occurs twice.
fn audit_keys(alloc: Global, rows: &Rows) -> Result<Option<Verdict>, AllocError>
    ensures { IfOk result (Told (key_tests rows.now)) }
{
    if let Some(key) = access_twice(alloc, rows)? {
        return Ok(Some(Verdict::KeyTwice(FailedKey::A(key))));
    }
    if let Some(key) = facility_twice(alloc, rows)? {
        return Ok(Some(Verdict::KeyTwice(FailedKey::F(key))));
    }
    if let Some(key) = forwarding_twice(alloc, rows)? {
        return Ok(Some(Verdict::KeyTwice(FailedKey::C(key))));
    }
    Ok(None)
}

/// Each row has its parent.
fn audit_parents(alloc: Global, rows: &Rows) -> Result<Option<Verdict>, AllocError>
    ensures { IfOk result (Told (parent_tests rows.now)) }
{
    let subscribers = rows.subscribers.as_slice();
    let facilities = rows.facilities.as_slice();
    if let Some(key) = least_orphan::<6, 2, 34, 1>(alloc, rows.accesses.as_slice(), subscribers)? {
        return Ok(Some(Verdict::NoParent(FailedKey::A(key))));
    }
    if let Some(key) = least_orphan::<6, 2, 34, 1>(alloc, facilities, subscribers)? {
        return Ok(Some(Verdict::NoParent(FailedKey::F(key))));
    }
    if let Some(key) = least_orphan::<5, 3, 6, 2>(alloc, rows.forwardings.as_slice(), facilities)? {
        return Ok(Some(Verdict::NoParent(FailedKey::C(key))));
    }
    Ok(None)
}

/// The key and the column of a place.
fn parts<const N: usize, const K: usize>(place: [u64; K]) -> ([u64; N], u8)
    requires parts { K ≡ N + 1 }
    requires column { slice_index place N < 256 }
    ensures key { result.0 ≡ take N place.entry }
    ensures column { result.1 ≡ slice_index place.entry N }
{
    (front(&place), place[N] as u8)
}

/// Every value is in its column's domain.
fn audit_values(rows: &Rows) -> Option<Verdict>
    ensures { Told (value_tests rows.now) result }
{
    if let Some(place) = least_outside::<34, 1, 2>(rows.subscribers.as_slice(), Table::Subscriber) {
        let (key, column) = parts(place);
        return Some(Verdict::OutsideDomain(FailedKey::S(key), column));
    }
    if let Some(place) = least_outside::<6, 2, 3>(rows.accesses.as_slice(), Table::AccessInfo) {
        let (key, column) = parts(place);
        return Some(Verdict::OutsideDomain(FailedKey::A(key), column));
    }
    if let Some(place) = least_outside::<6, 2, 3>(
        rows.facilities.as_slice(),
        Table::SpecialFacility,
    ) {
        let (key, column) = parts(place);
        return Some(Verdict::OutsideDomain(FailedKey::F(key), column));
    }
    if let Some(place) = least_outside::<5, 3, 4>(
        rows.forwardings.as_slice(),
        Table::CallForwarding,
    ) {
        let (key, column) = parts(place);
        return Some(Verdict::OutsideDomain(FailedKey::C(key), column));
    }
    None
}

/// The least s_id of a subscriber that has fewer or more rows than it may, or one of whose
/// facilities has.
fn least_short_or_long(alloc: Global, rows: &Rows) -> Result<Option<[u64; 1]>, AllocError>
    ensures { IfOk result (Finds (is_short_or_long rows.now)) }
{
    let subscribers = rows.subscribers.as_slice();
    let accesses = rows.accesses.as_slice();
    let facilities = rows.facilities.as_slice();
    let forwardings = rows.forwardings.as_slice();
    let by_accesses = least_miscounted::<34, 6, 1>(alloc, subscribers, accesses, 1, 4)?;
    let by_facilities = least_miscounted::<34, 6, 1>(alloc, subscribers, facilities, 1, 4)?;
    let by_forwardings = least_miscounted::<6, 5, 2>(alloc, facilities, forwardings, 0, 3)?;
    let of_subscribers = lower(by_accesses, by_facilities);
    Ok(lower(of_subscribers, by_forwardings))
}

/// Each subscriber has 1 to 4 Access_Info rows and 1 to 4 Special_Facility rows, each facility at
/// most 3 Call_Forwarding rows.
fn audit_counts(alloc: Global, rows: &Rows) -> Result<Option<Verdict>, AllocError>
    ensures { IfOk result (Told (count_tests rows.now)) }
{
    let Some(key) = least_short_or_long(alloc, rows)? else {
        return Ok(None);
    };
    Ok(Some(Verdict::Counts(key[0])))
}

/// What the audits say together.
fn audit_all(alloc: Global, rows: &Rows) -> Result<Option<Verdict>, AllocError>
    ensures { IfOk result (Told (tests rows.now)) }
{
    let ids = audit_ids(alloc, rows)?;
    let numbers = audit_numbers(alloc, rows)?;
    let keys = audit_keys(alloc, rows)?;
    let parents = audit_parents(alloc, rows)?;
    let values = audit_values(rows);
    let counts = audit_counts(alloc, rows)?;
    Ok(ids.or(numbers.or(keys.or(parents.or(values.or(counts))))))
}

/// The verdict on clean rows.
fn clean(rows: &Rows) -> Verdict
    ensures { result ≡ clean_of rows.now }
{
    Verdict::Clean {
        subscribers: rows.subscribers.len(),
        accesses: rows.accesses.len(),
        facilities: rows.facilities.len(),
        forwardings: rows.forwardings.len(),
    }
}

/// The verdict on rows: that they are clean, or the first audit that fails and the least key that
/// fails it.
///
/// The least key goes by table, then by the parts of the key, then by column.
pub fn audit(alloc: Global, rows: &Rows) -> Result<Verdict, AllocError>
    ensures verdict { IfOk result (IsVerdict rows.now) }

    // It says that rows are clean exactly where they are.
    ensures clean { IfOk result (λ verdict. says_clean verdict ≡ true → IsClean rows.now) }
    ensures counts { IfOk result (λ verdict. IsClean rows.now → verdict ≡ clean_of rows.now) }
{
    let told = audit_all(alloc, rows)?;
    Ok(told.unwrap_or(clean(rows)))
}
