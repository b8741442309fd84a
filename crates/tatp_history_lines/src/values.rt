//! The values of a reply in text.
ghost use Rattle.std.specs.Prelude.{◌≡◌, ◌+◌, ◌<◌, ◌≤◌, slice_get, replicate, None, Some, IfSome, MatchOption};
ghost use Rattle.std.specs.List.{range_with_len};
ghost use Rattle.tatp_limits.specs.declared.limits.TheConstants.{MAX_OUTPUTS};
ghost use Rattle.tatp_calls.specs.ReplyText.{answer_columns};
ghost use Rattle.tatp_history_lines.specs.ReplyValues.{printed_value_of, values_within, has_values};

use arrayvec::ArrayVec;
use tatp_calls::Call;
use tatp_limits::MAX_OUTPUTS;
use tatp_lines::read_number;
use tatp_tables::in_domain;
use tatp_texts::{Fields, read_value};

/// The column of the numbers of forwardings.
const NUMBERX: u8 = 50;

/// The number at this place, of `count` numbers in a row.
#[tactic(auto, using(crate::proofs::ColumnLaws::run_at, crate::proofs::ColumnLaws::run_past))]
fn in_run(first: u8, count: usize, place: usize) -> Option<u8>
    requires { first + count ≤ 256 }
    ensures number { result ≡ slice_get (range_with_len first count) place }
    ensures within { IfSome result (λ _. place < count) }
{
    if place < count {
        Some(first + place as u8)
    } else {
        None
    }
}

/// The number at each of `count` places.
#[tactic(auto, using(crate::proofs::ColumnLaws::copies_at, crate::proofs::ColumnLaws::copies_past))]
fn in_copies(number: u8, count: usize, place: usize) -> Option<u8>
    ensures number { result ≡ slice_get (replicate count number) place }
    ensures within { IfSome result (λ _. place < count) }
{
    if place < count { Some(number) } else { None }
}

/// The column in whose form the value at this place of a reply to the call is.
fn column_at(call: &Call, place: usize) -> Option<u8>
    ensures column { result ≡ slice_get (answer_columns call.now) place }
    ensures room { IfSome result (λ _. place < MAX_OUTPUTS) }
{
    match call {
        Call::GetSubscriberData { .. } => in_run(0, 34, place),
        Call::GetNewDestination { .. } => in_copies(NUMBERX, MAX_OUTPUTS, place),
        Call::GetAccessData { .. } => in_run(36, 4, place),
        _ => None,
    }
}

/// The value of a column whose text this is: in the column's form, or in decimal where it is
/// outside the column's domain.
#[tactic(auto, unfolding(crate::specs::ReplyValues::printed_value_of))]
fn read_printed(column: u8, text: &str) -> Option<u64>
    ensures { result ≡ printed_value_of column text.now }
{
    if let Some(value) = read_value(column, text) {
        return Some(value);
    }
    let value = read_number(text)?;
    if in_domain(column, value) {
        None
    } else {
        Some(value)
    }
}

/// The values of a reply to the call, which are all the fields left: as many as it can have, or
/// fewer.
#[tactic(auto, using(crate::proofs::ValuesLaws::none_read, crate::proofs::ValuesLaws::none_left, crate::proofs::ValuesLaws::bad_left, crate::proofs::ValuesLaws::too_many_left, crate::proofs::ValuesLaws::one_read))]
pub(crate) fn read_values(call: &Call, fields: &mut Fields) -> Option<ArrayVec<u64, MAX_OUTPUTS>>
    ensures { MatchOption result (values_within (answer_columns call.now) fields.old ≡ None)
        (λ values. values_within (answer_columns call.now) fields.old ≡ Some values.items) }
{
    let mut values: ArrayVec<u64, MAX_OUTPUTS> = ArrayVec::new();
    'fields: loop {
        let Some(field) = fields.next() else {
            return Some(values);
        };
        let column = column_at(call, values.len())?;
        let value = read_printed(column, field)?;
        values.push(value);
    }
}

/// Whether a reply to the call may have this number of values.
pub(crate) fn has_values(call: &Call, count: usize) -> bool
    ensures { result ≡ has_values call.now count }
{
    match call {
        Call::GetSubscriberData { .. } => count == 34,
        Call::GetNewDestination { .. } => true,
        Call::GetAccessData { .. } => count == 4,
        _ => count == 0,
    }
}
