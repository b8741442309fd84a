//! What a client recorded of a reply, in text.
ghost use Rattle.std.specs.Prelude.{◌≡◌};
ghost use Rattle.tatp_history_lines.specs.Recordings.{failure_of, success_of, reply_of, recorded_of};

use crate::values::{has_values, read_values};
use crate::words::read_short_number;
use tatp_calls::{Call, Outputs, Reply};
use tatp_history::Recorded;
use tatp_texts::Fields;

/// The reply to a call that a text records: that of which it is the line, or any success or
/// failure.
pub fn read_recorded(call: &Call, text: &str) -> Option<Recorded>
    ensures { result ≡ recorded_of call.now text.now }
{
    match text {
        "OK ?" => Some(Recorded::Success),
        "FAILED ?" => Some(Recorded::Failure),
        _ => Some(Recorded::Exactly(read_reply(call, text)?)),
    }
}

#[tactic(auto, unfolding(crate::specs::Recordings::reply_of))]
fn read_reply(call: &Call, text: &str) -> Option<Reply>
    ensures { result ≡ reply_of call.now text.now }
{
    let mut fields = Fields::new(text);
    match fields.next()? {
        "OK" => read_success(call, &mut fields),
        "FAILED" => read_failure(&mut fields),
        _ => None,
    }
}

/// The values that the fields left are.
fn read_success(call: &Call, fields: &mut Fields) -> Option<Reply>
    ensures { result ≡ success_of call.now fields.old }
{
    let values = read_values(call, fields)?;
    if has_values(call, values.len()) {
        Some(Reply::Values(Outputs::from_slice(values.as_slice())))
    } else {
        None
    }
}

/// The failure whose number is the field left.
fn read_failure(fields: &mut Fields) -> Option<Reply>
    ensures { result ≡ failure_of fields.old }
{
    let number = read_short_number(fields.next()?)?;
    match fields.next() {
        Some(_) => None,
        None => Some(Reply::Failed(number)),
    }
}
