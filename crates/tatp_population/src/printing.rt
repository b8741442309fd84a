//! The rows of a subscriber, drawn from random words and appended to a text in the order drawn.
ghost use Rattle.std.specs.Prelude.{◌≡◌, ◌≤◌, ◌+◌, ◌++◌, [], ◌∷◌, OnOk, length};
ghost use Rattle.std.specs.String.{string_bytes};
ghost use Rattle.rand_core.specs.Stream.{next_u64};
ghost use Rattle.tatp_tables.specs.Columns.{first_column};
ghost use Rattle.tatp_texts.specs.Text.{columns_text};
ghost use Rattle.tatp_population.specs.DrawnOrder as order;
ghost use Rattle.tatp_population.specs.DrawnOrder.{rows_text};
ghost use Rattle.tatp_population.specs.DrawnRows as drawn;

use crate::choices::{choose, take_one};
use crate::rows::{access_row, facility_row, forwarding_row, subscriber_row};
use arrayvec::ArrayVec;
use rand_core::Rng;
use std::alloc::AllocError;
use tatp_tables::Table;
use tatp_texts::push_value;

/// Appends the values of the columns from this one on, each after a space.
#[tactic(auto, using(tatp_texts::proofs::ColumnLaws::none_printed, tatp_texts::proofs::ColumnLaws::column_printed, tatp_texts::proofs::ColumnLaws::all_printed))]
fn push_columns(text: &mut String, first: u8, columns: &[u64]) -> Result<(), AllocError>
    requires { first + length columns.now ≤ 256 }
    ensures { OnOk result
        (string_bytes text.new ≡ string_bytes text.old ++ columns_text first columns.now) }
{
    for (place, value) in columns.iter().enumerate() {
        text.push_str(" ")?;
        push_value(text, first + place as u8, *value)?;
    }
    Ok(())
}

/// Appends a table's letter and its columns, as a line.
fn push_row(
    text: &mut String,
    letter: &str,
    table: Table,
    columns: &[u64],
) -> Result<(), AllocError>
    requires { length columns.now ≤ 34 }
    ensures { OnOk result (string_bytes text.new ≡ string_bytes text.old
        ++ ((letter.now ++ columns_text (first_column table) columns.now) ++ 10 ∷ [])) }
{
    text.push_str(letter)?;
    push_columns(text, table.first_column(), columns)?;
    text.push_str("\n")
}

/// Draws an Access_Info row and appends it.
#[tactic(auto, using(crate::proofs::PrintingLaws::one_row), unfolding(crate::specs::DrawnOrder::access_in_order, crate::specs::DrawnRows::access))]
fn push_access<R: Rng>(
    text: &mut String,
    s_id: u64,
    kind: u64,
    words: &mut R,
) -> Result<(), AllocError>
    ensures rows { OnOk result (string_bytes text.new ≡ string_bytes text.old
        ++ rows_text (order.access_in_order next_u64 s_id kind (R.stream words.old))) }
    ensures words { OnOk result
        (R.stream words.new ≡ (drawn.access next_u64 s_id kind (R.stream words.old)).1) }
{
    let row = access_row(s_id, kind, words);
    push_row(text, "A", Table::AccessInfo, &row)?;
    Ok(())
}

/// Draws a Call_Forwarding row and appends it.
#[tactic(auto, using(crate::proofs::PrintingLaws::one_row), unfolding(crate::specs::DrawnOrder::forwarding_in_order, crate::specs::DrawnRows::forwarding))]
fn push_forwarding<R: Rng>(
    text: &mut String,
    s_id: u64,
    kind: u64,
    start_time: u64,
    words: &mut R,
) -> Result<(), AllocError>
    requires { start_time ≤ 16 }
    ensures rows { OnOk result (string_bytes text.new ≡ string_bytes text.old ++ rows_text
        (order.forwarding_in_order next_u64 s_id kind start_time (R.stream words.old))) }
    ensures words { OnOk result (R.stream words.new
        ≡ (drawn.forwarding next_u64 s_id kind start_time (R.stream words.old)).1) }
{
    let row = forwarding_row(s_id, kind, start_time, words);
    push_row(text, "C", Table::CallForwarding, &row)?;
    Ok(())
}

/// Draws the forwardings of a facility and appends them.
#[tactic(auto, unfolding(crate::specs::DrawnOrder::forwardings_in_order, crate::specs::DrawnRows::forwardings))]
fn push_forwardings<R: Rng>(
    text: &mut String,
    s_id: u64,
    kind: u64,
    words: &mut R,
) -> Result<(), AllocError>
    ensures rows { OnOk result (string_bytes text.new ≡ string_bytes text.old
        ++ rows_text (order.forwardings_in_order next_u64 s_id kind (R.stream words.old))) }
    ensures words { OnOk result
        (R.stream words.new ≡ (drawn.forwardings next_u64 s_id kind (R.stream words.old)).words) }
{
    let count = choose(0, 3, words);
    let mut left = ArrayVec::from([0, 8, 16]);
    for _ in 0..count {
        let start_time = take_one(&mut left, words);
        push_forwarding(text, s_id, kind, start_time, words)?;
    }
    Ok(())
}

/// Draws a Special_Facility row and its forwardings, and appends them.
#[tactic(auto, using(crate::proofs::PrintingLaws::row_and_rows), unfolding(crate::specs::DrawnOrder::facility_in_order, crate::specs::DrawnRows::facility))]
fn push_facility<R: Rng>(
    text: &mut String,
    s_id: u64,
    kind: u64,
    words: &mut R,
) -> Result<(), AllocError>
    ensures rows { OnOk result (string_bytes text.new ≡ string_bytes text.old
        ++ rows_text (order.facility_in_order next_u64 s_id kind (R.stream words.old))) }
    ensures words { OnOk result
        (R.stream words.new ≡ (drawn.facility next_u64 s_id kind (R.stream words.old)).1) }
{
    let row = facility_row(s_id, kind, words);
    push_row(text, "F", Table::SpecialFacility, &row)?;
    push_forwardings(text, s_id, kind, words)?;
    Ok(())
}

/// Draws the Access_Info rows of a subscriber and appends them.
#[tactic(auto, unfolding(crate::specs::DrawnOrder::accesses_in_order, crate::specs::DrawnRows::accesses))]
fn push_accesses<R: Rng>(text: &mut String, s_id: u64, words: &mut R) -> Result<(), AllocError>
    ensures rows { OnOk result (string_bytes text.new ≡ string_bytes text.old
        ++ rows_text (order.accesses_in_order next_u64 s_id (R.stream words.old))) }
    ensures words { OnOk result
        (R.stream words.new ≡ (drawn.accesses next_u64 s_id (R.stream words.old)).words) }
{
    let count = choose(1, 4, words);
    let mut left = ArrayVec::from([1, 2, 3, 4]);
    for _ in 0..count {
        let kind = take_one(&mut left, words);
        push_access(text, s_id, kind, words)?;
    }
    Ok(())
}

/// Draws the facilities of a subscriber and appends them.
#[tactic(auto, unfolding(crate::specs::DrawnOrder::facilities_in_order, crate::specs::DrawnRows::facilities))]
fn push_facilities<R: Rng>(text: &mut String, s_id: u64, words: &mut R) -> Result<(), AllocError>
    ensures rows { OnOk result (string_bytes text.new ≡ string_bytes text.old
        ++ rows_text (order.facilities_in_order next_u64 s_id (R.stream words.old))) }
    ensures words { OnOk result
        (R.stream words.new ≡ (drawn.facilities next_u64 s_id (R.stream words.old)).words) }
{
    let count = choose(1, 4, words);
    let mut left = ArrayVec::from([1, 2, 3, 4]);
    for _ in 0..count {
        let kind = take_one(&mut left, words);
        push_facility(text, s_id, kind, words)?;
    }
    Ok(())
}

/// Draws a Subscriber row and the rows below it from the next words, and appends each as a line, in
/// the order drawn. An error may leave some of them.
#[tactic(auto, using(crate::proofs::PrintingLaws::row_rows_and_rows), unfolding(crate::specs::DrawnOrder::subscriber_in_order, crate::specs::DrawnRows::subscriber))]
pub fn push_subscriber<R: Rng>(
    text: &mut String,
    s_id: u64,
    words: &mut R,
) -> Result<(), AllocError>
    ensures rows { OnOk result (string_bytes text.new ≡ string_bytes text.old
        ++ rows_text (order.subscriber_in_order next_u64 s_id (R.stream words.old))) }
    ensures words { OnOk result
        (R.stream words.new ≡ (drawn.subscriber next_u64 s_id (R.stream words.old)).1) }
{
    let row = subscriber_row(s_id, words);
    push_row(text, "S", Table::Subscriber, &row)?;
    push_accesses(text, s_id, words)?;
    push_facilities(text, s_id, words)?;
    Ok(())
}
