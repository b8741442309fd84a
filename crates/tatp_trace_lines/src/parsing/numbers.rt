//! Numbers that are all the fields left of a line.
ghost use Rattle.std.specs.Prelude.{◌≡◌, None, Some, MatchOption};
ghost use Rattle.tatp_trace_lines.specs.LineFields.{one_number, two_numbers, three_numbers, numbers_within};

use arrayvec::ArrayVec;
use tatp_limits::MAX_ARGUMENTS;
use tatp_lines::read_number;
use tatp_texts::Fields;

/// The number that the fields are, which have to be exactly one.
pub(super) fn one_number(fields: &mut Fields) -> Option<u64>
    ensures { result ≡ one_number fields.old }
{
    let number = read_number(fields.next()?)?;
    match fields.next() {
        Some(_) => None,
        None => Some(number),
    }
}

/// The numbers that the fields are, which have to be exactly two.
pub(super) fn two_numbers(fields: &mut Fields) -> Option<(u64, u64)>
    ensures { result ≡ two_numbers fields.old }
{
    let first = read_number(fields.next()?)?;
    let second = one_number(fields)?;
    Some((first, second))
}

/// The numbers that the fields are, which have to be exactly three.
pub(super) fn three_numbers(fields: &mut Fields) -> Option<(u64, u64, u64)>
    ensures { result ≡ three_numbers fields.old }
{
    let first = read_number(fields.next()?)?;
    let (second, third) = two_numbers(fields)?;
    Some((first, second, third))
}

/// The numbers that the fields are, of which there may be as many as a call can have arguments.
#[tactic(auto, using(crate::proofs::NumberLaws::none_read, crate::proofs::NumberLaws::none_left, crate::proofs::NumberLaws::bad_left, crate::proofs::NumberLaws::too_many_left, crate::proofs::NumberLaws::one_read))]
pub(super) fn eight_numbers(fields: &mut Fields) -> Option<ArrayVec<u64, MAX_ARGUMENTS>>
    ensures { MatchOption result (numbers_within MAX_ARGUMENTS fields.old ≡ None)
        (λ numbers. numbers_within MAX_ARGUMENTS fields.old ≡ Some numbers.items) }
{
    let mut numbers: ArrayVec<u64, MAX_ARGUMENTS> = ArrayVec::new();
    'fields: loop {
        let Some(field) = fields.next() else {
            return Some(numbers);
        };
        let number = read_number(field)?;
        if numbers.try_push(number).is_err() {
            return None;
        }
    }
}
