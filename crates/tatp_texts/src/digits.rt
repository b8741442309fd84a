//! Numbers of exactly fifteen digits in text.
ghost use Rattle.std.specs.Prelude.{◌≡◌, ◌<◌, ◌^◌, length};
ghost use Rattle.tatp_texts.specs.Text.{digits_of, last_digits};

/// The number of exactly fifteen digits.
#[tactic(auto, using(crate::proofs::NumberLaws::fifteen_parsed, crate::proofs::NumberLaws::no_digits_length, crate::proofs::NumberLaws::no_digits_signed))]
pub(crate) fn read_fifteen_digits(text: &str) -> Option<u64>
    ensures { result ≡ digits_of 15 text.now }
{
    if text.len() != 15 || text.as_bytes()[0] == b'+' {
        return None;
    }
    text.parse::<u64>().ok()
}

/// Fills the slice with the number's last digits.
#[tactic(auto, using(crate::proofs::NumberLaws::digit_moved), unfolding(crate::specs::Text::last_digits))]
pub(crate) fn write_digits(digits: &mut [u8], number: u64)
    ensures { digits.new ≡ last_digits (length digits.old) number }
{
    let mut rest = number;
    let mut place = digits.len();
    'digits: while place > 0 {
        place -= 1;
        digits[place] = b'0' + (rest % 10) as u8;
        rest /= 10;
    }
}
