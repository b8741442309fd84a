//! Tests of the public calls, with values from docs/FORMATS.md.
use tatp_lines::read_number;

mod domain;
mod homes;
mod rows;

/// The numbers in a text, one after another, with 0 for those that it lacks; at most 34.
fn numbers(text: &str) -> Option<[u64; 34]> {
    let mut numbers = [0; 34];
    for (place, number) in text.split_whitespace().enumerate() {
        *numbers.get_mut(place)? = read_number(number)?;
    }
    Some(numbers)
}
