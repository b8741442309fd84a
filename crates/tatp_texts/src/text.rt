//! The text of a row, and the row of a text.
ghost use Rattle.std.specs.Prelude.{◌≡◌, ◌+◌, ◌^◌, ◌<◌, ◌≤◌, ◌++◌, length, true, All, OnOk, IfOk, IfSome};
ghost use Rattle.std.specs.String.{string_bytes};
ghost use Rattle.tatp_tables.specs.Columns.{first_column};
ghost use Rattle.tatp_texts.specs.Text.{columns_of, columns_text, text_of, row_of, is_printable_row};

use crate::fields::Fields;
use crate::values::{push_value, read_value};
use std::alloc::{AllocError, Global};
use tatp_tables::{Row, Table};

/// Exactly N values, of a table's first columns, that are all the fields left.
#[tactic(auto, using(crate::proofs::ColumnLaws::none_read, crate::proofs::ColumnLaws::no_columns_short, crate::proofs::ColumnLaws::no_columns_bad, crate::proofs::ColumnLaws::column_read, crate::proofs::ColumnLaws::no_columns_long, crate::proofs::ColumnLaws::all_read))]
fn read_columns<const N: usize>(fields: &mut Fields, table: Table) -> Option<[u64; N]>
    requires { N ≤ 34 }
    ensures { result ≡ columns_of N (first_column table) fields.old }
{
    let first = table.first_column();
    let mut columns = [0; N];
    for place in 0..N {
        columns[place] = read_value(first + place as u8, fields.next()?)?;
    }
    match fields.next() {
        Some(_) => None,
        None => Some(columns),
    }
}

/// Appends the values of the columns from this one on, each after a space.
#[tactic(auto, using(crate::proofs::ColumnLaws::none_printed, crate::proofs::ColumnLaws::column_printed, crate::proofs::ColumnLaws::all_printed))]
fn push_columns(text: &mut String, first: u8, columns: &[u64]) -> Result<(), AllocError>
    requires { first + length columns.now ≤ 256 }
    ensures { OnOk result
        (string_bytes text.new ≡ string_bytes text.old ++ columns_text first columns.now) }
{
    for (place, value) in columns.iter().enumerate() {
        text.push_str(" ")?;
        push_value(text, first + place as u8, *value)?;
    }
    Ok(())
}

/// A table's letter, and its columns.
fn lettered(
    alloc: Global,
    letter: &str,
    table: Table,
    columns: &[u64],
) -> Result<String, AllocError>
    requires { length columns.now ≤ 34 }
    ensures text { IfOk result (λ text. string_bytes text
        ≡ letter.now ++ columns_text (first_column table) columns.now) }

    // Tells a caller that matched on a row what the type says of its columns.
    ensures in_range { All (λ value. value < 2 ^ 64) columns.now }
{
    let mut text = String::from_str(alloc, letter)?;
    push_columns(&mut text, table.first_column(), columns)?;
    Ok(text)
}

/// The text of a row.
pub fn row_text(alloc: Global, row: &Row) -> Result<String, AllocError>
    ensures text { IfOk result (λ text. string_bytes text ≡ text_of row.now) }
    ensures read_back { IfOk result (λ text. is_printable_row row.now ≡ true
        → row_of (string_bytes text) ≡ Some row.now) }
{
    match row {
        Row::S(columns) => lettered(alloc, "S", Table::Subscriber, columns),
        Row::A(columns) => lettered(alloc, "A", Table::AccessInfo, columns),
        Row::F(columns) => lettered(alloc, "F", Table::SpecialFacility, columns),
        Row::C(columns) => lettered(alloc, "C", Table::CallForwarding, columns),
    }
}

#[tactic(auto, unfolding(crate::specs::Text::row_of))]
fn row_of_line(line: &str) -> Option<Row>
    ensures { result ≡ row_of line.now }
{
    let mut fields = Fields::new(line);
    match fields.next()? {
        "S" => Some(Row::S(read_columns(&mut fields, Table::Subscriber)?)),
        "A" => Some(Row::A(read_columns(&mut fields, Table::AccessInfo)?)),
        "F" => Some(Row::F(read_columns(&mut fields, Table::SpecialFacility)?)),
        "C" => Some(Row::C(read_columns(&mut fields, Table::CallForwarding)?)),
        _ => None,
    }
}

/// The row that a line is.
pub fn read_row(line: &str) -> Option<Row>
    ensures row { result ≡ row_of line.now }
    ensures printed { IfSome result (λ row. text_of row ≡ line.now) }
    ensures printable { IfSome result (λ row. is_printable_row row ≡ true) }
{
    row_of_line(line)
}
