//! The text of one value, in its column's form.
ghost use Rattle.std.specs.Prelude.{◌≡◌, ◌<◌, ◌≤◌, ◌^◌, ◌++◌, true, OnOk, OnErr};
ghost use Rattle.std.specs.Str.{IsAscii};
ghost use Rattle.std.specs.String.{string_bytes};
ghost use Rattle.tatp_tables.specs.Domains.{are_letters, is_in_domain};
ghost use Rattle.tatp_texts.specs.Text.{value_of, value_text, text_in, letters_text, fifteen_digits, form_of};

use crate::digits::{read_fifteen_digits, write_digits};
use crate::form::{Form, form_of};
use crate::letters::{read_letters, write_letters};
use std::alloc::AllocError;
use tatp_lines::{push_decimal, read_number};
use tatp_tables::in_domain;

/// The value of a column that the text is.
#[tactic(auto, unfolding(crate::specs::Text::value_of))]
pub fn read_value(column: u8, text: &str) -> Option<u64>
    ensures { result ≡ value_of column text.now }
{
    match form_of(column) {
        Form::Decimal => read_number(text),
        Form::FifteenDigits => read_fifteen_digits(text),
        Form::Letters(count) => read_letters(count, text),
    }
}

/// Appends bytes that are ASCII. An error leaves the text as it was.
#[tactic(auto, using(crate::proofs::ValueLaws::ascii_is_text))]
fn push_ascii(text: &mut String, bytes: &[u8]) -> Result<(), AllocError>
    requires { IsAscii bytes.now }
    ensures ok { OnOk result (string_bytes text.new ≡ string_bytes text.old ++ bytes.now) }
    ensures err { OnErr result (string_bytes text.new ≡ string_bytes text.old) }
{
    match str::from_utf8(bytes) {
        Ok(ascii) => text.push_str(ascii),
        Err(_) => unreachable!(),
    }
}

fn push_fifteen_digits(text: &mut String, number: u64) -> Result<(), AllocError>
    requires { number < 10 ^ 15 }
    ensures ok { OnOk result
        (string_bytes text.new ≡ string_bytes text.old ++ fifteen_digits number) }
    ensures err { OnErr result (string_bytes text.new ≡ string_bytes text.old) }
{
    let mut digits = [0; 15];
    write_digits(&mut digits, number);
    push_ascii(text, &digits)
}

fn push_letters(text: &mut String, count: usize, value: u64) -> Result<(), AllocError>
    requires short { count ≤ 5 }
    requires letters { are_letters count value ≡ true }
    ensures ok { OnOk result
        (string_bytes text.new ≡ string_bytes text.old ++ letters_text count value) }
    ensures err { OnErr result (string_bytes text.new ≡ string_bytes text.old) }
{
    let mut room = [0; 5];
    let letters = &mut room[..count];
    write_letters(letters, value);
    push_ascii(text, letters)
}

#[tactic(auto, using(crate::proofs::ValueLaws::letters_in_domain, crate::proofs::ValueLaws::fifteen_digits_in_domain))]
fn push_in_form(text: &mut String, column: u8, value: u64) -> Result<(), AllocError>
    requires { is_in_domain column value ≡ true }
    ensures ok { OnOk result
        (string_bytes text.new ≡ string_bytes text.old ++ text_in (form_of column) value) }
    ensures err { OnErr result (string_bytes text.new ≡ string_bytes text.old) }
{
    match form_of(column) {
        Form::Decimal => push_decimal(text, value),
        Form::FifteenDigits => push_fifteen_digits(text, value),
        Form::Letters(count) => push_letters(text, count, value),
    }
}

/// Appends the text of a column's value. An error leaves the text as it was.
#[tactic(auto, unfolding(crate::specs::Text::value_text))]
pub fn push_value(text: &mut String, column: u8, value: u64) -> Result<(), AllocError>
    ensures ok { OnOk result
        (string_bytes text.new ≡ string_bytes text.old ++ value_text column value) }
    ensures err { OnErr result (string_bytes text.new ≡ string_bytes text.old) }
{
    if in_domain(column, value) {
        push_in_form(text, column, value)
    } else {
        push_decimal(text, value)
    }
}
