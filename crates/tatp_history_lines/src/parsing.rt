//! The line that a text is.
ghost use Rattle.std.specs.Prelude.{◌≡◌};
ghost use Rattle.tatp_history_lines.specs.Lines.{is_passed_over, ask_of};

use crate::words::{read_short_number, split_word};
use tatp_calls::read_call;
use tatp_history::Line;

/// Whether it is a comment, or empty.
pub(crate) fn is_passed_over(text: &str) -> bool
    ensures { result ≡ is_passed_over text.now }
{
    match text.as_bytes().first() {
        Some(byte) => *byte == b'#',
        None => true,
    }
}

/// A client, and the line of the call that it asks.
pub(crate) fn read_ask(text: &str) -> Option<Line>
    ensures { result ≡ ask_of text.now }
{
    let (client, call) = split_word(text)?;
    let client = u64::from(read_short_number(client)?);
    let call = read_call(call)?;
    Some(Line::Ask { client, call })
}
