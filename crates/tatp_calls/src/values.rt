//! Values in text, one after another, each in the form of the column at its place.
ghost use Rattle.std.specs.Prelude.{◌≡◌, ◌<◌, ◌^◌, ◌∷◌, ◌++◌, All, IfOk, OnOk, OnErr, slice_index_or};
ghost use Rattle.std.specs.String.{string_bytes};
ghost use Rattle.tatp_texts.specs.Text.{value_text};
ghost use Rattle.tatp_calls.specs.Extends.{Extends};
ghost use Rattle.tatp_calls.specs.ValuesText.{values_of, values_text};

use std::alloc::{AllocError, Global};
use tatp_lines::push_decimal;
use tatp_texts::{Fields, is_decimal, push_value, read_value};

/// Names no column, so that its values are in decimal.
pub(crate) const NO_COLUMN: u8 = 255;

/// Exactly one value of each of these columns, which are all the fields left.
#[tactic(auto, using(crate::proofs::ReadingLaws::none_read, crate::proofs::ReadingLaws::no_values_short, crate::proofs::ReadingLaws::no_values_bad, crate::proofs::ReadingLaws::value_read, crate::proofs::ReadingLaws::no_values_long, crate::proofs::ReadingLaws::all_read))]
pub(crate) fn read_values<const N: usize>(
    fields: &mut Fields,
    columns: &[u8; N],
) -> Option<[u64; N]>
    ensures { result ≡ values_of columns.now fields.old }
{
    let mut values = [0; N];
    for place in 0..N {
        values[place] = read_value(columns[place], fields.next()?)?;
    }
    match fields.next() {
        Some(_) => None,
        None => Some(values),
    }
}

/// These words, and the values.
pub(crate) fn with_values(
    alloc: Global,
    words: &str,
    columns: &[u8],
    values: &[u64],
) -> Result<String, AllocError>
    ensures text { IfOk result
        (λ text. string_bytes text ≡ words.now ++ values_text columns.now values.now) }

    // Tells a caller what the type says of the values.
    ensures in_range { All (λ value. value < 2 ^ 64) values.now }
{
    let mut text = String::from_str(alloc, words)?;
    push_values(&mut text, columns, values)?;
    Ok(text)
}

/// Appends the values. An error may leave some of them.
#[tactic(auto, using(crate::proofs::PrintingLaws::none_printed, crate::proofs::PrintingLaws::value_printed, crate::proofs::PrintingLaws::all_printed))]
pub(crate) fn push_values(
    text: &mut String,
    columns: &[u8],
    values: &[u64],
) -> Result<(), AllocError>
    ensures ok { OnOk result
        (string_bytes text.new ≡ string_bytes text.old ++ values_text columns.now values.now) }
    ensures err { OnErr result (Extends (string_bytes text.old) (string_bytes text.new)) }
{
    for (place, value) in values.iter().enumerate() {
        push_spaced(text, column_at(columns, place), *value)?;
    }
    Ok(())
}

/// Appends a space and the value. An error may leave the space and the first digits.
fn push_spaced(text: &mut String, column: u8, value: u64) -> Result<(), AllocError>
    ensures ok { OnOk result
        (string_bytes text.new ≡ string_bytes text.old ++ 32 ∷ value_text column value) }
    ensures err { OnErr result (Extends (string_bytes text.old) (string_bytes text.new)) }
{
    text.push(' ')?;
    if is_decimal(column) {
        return push_decimal(text, value);
    }
    push_value(text, column, value)
}

fn column_at(columns: &[u8], place: usize) -> u8
    ensures { result ≡ slice_index_or columns.now place 255 }
{
    columns.get(place).copied().unwrap_or(NO_COLUMN)
}
