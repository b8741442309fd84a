//! Numbers in text.
ghost use Rattle.std.specs.Prelude.{◌≡◌, ◌<◌, ◌^◌, ◌++◌, OnOk, OnErr, decimal, length};
ghost use Rattle.std.specs.String.{string_bytes};
ghost use Rattle.tatp_lines.specs.Numbers.{number_of};

use itoa::Buffer;
use std::alloc::AllocError;

/// The number that the text is in decimal, without a leading zero.
#[tactic(auto, using(crate::proofs::NumberLaws::number_parsed, crate::proofs::NumberLaws::no_number_signed, crate::proofs::NumberLaws::no_number_empty, crate::proofs::NumberLaws::no_number_zero))]
pub fn read_number(text: &str) -> Option<u64>
    ensures { result ≡ number_of text.now }
{
    let bytes = text.as_bytes();
    if bytes.is_empty() {
        return None;
    }
    if bytes[0] == b'+' || (bytes[0] == b'0' && bytes.len() > 1) {
        return None;
    }
    text.parse::<u64>().ok()
}

/// Appends a number in decimal. An error leaves the text as it was.
///
/// Most numbers of rows and replies have one digit.
pub fn push_decimal(text: &mut String, number: u64) -> Result<(), AllocError>
    ensures ok { OnOk result (string_bytes text.new ≡ string_bytes text.old ++ decimal number) }
    ensures err { OnErr result (string_bytes text.new ≡ string_bytes text.old) }
{
    if number < 10 {
        return text.push(char::from(b'0' + number as u8));
    }
    push_digits(text, number)
}

/// The same of any number. It is not inlined, since it clears the memory of all digits.
#[inline(never)]
fn push_digits(text: &mut String, number: u64) -> Result<(), AllocError>
    ensures ok { OnOk result (string_bytes text.new ≡ string_bytes text.old ++ decimal number) }
    ensures err { OnErr result (string_bytes text.new ≡ string_bytes text.old) }
{
    let mut buffer = Buffer::new();
    text.push_str(buffer.format(number))
}
