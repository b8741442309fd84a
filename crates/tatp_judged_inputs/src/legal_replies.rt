//! The lines of replies with which a call could have been answered.
ghost use Rattle.std.specs.Prelude.{◌≡◌, ◌++◌, OnOk, Some};
ghost use Rattle.std.specs.String.{string_bytes};
ghost use Rattle.tatp_judged_inputs.specs.Judging.{legal_lines, could_line, could_lines};

use crate::command::push_number_line;
use std::alloc::AllocError;
use tatp_calls::{Ask, Reply, push_reply};
use tatp_judge::LegalReplies;

/// The most replies that are reported.
const MOST_TOLD: usize = 8;

/// Appends the line of a reply to what was asked.
fn push_could(text: &mut String, ask: &Ask, reply: &Reply) -> Result<(), AllocError>
    ensures { OnOk result
        (string_bytes text.new ≡ string_bytes text.old ++ could_line ask.now reply.now) }
{
    text.push_str("COULD ")?;
    push_reply(text, ask, reply.as_ref())?;
    text.push('\n')
}

/// Appends a line for each of the replies.
fn push_each(text: &mut String, ask: &Ask, replies: &[Reply]) -> Result<(), AllocError>
    ensures { OnOk result
        (string_bytes text.new ≡ string_bytes text.old ++ could_lines ask.now replies.now) }
{
    'replies: for i in 0..replies.len() {
        push_could(text, ask, &replies[i])?;
    }
    Ok(())
}

/// Appends a line for each of the first replies, and the line that says how many more there are.
pub(crate) fn push_legal(text: &mut String, legal: &LegalReplies) -> Result<(), AllocError>
    ensures { OnOk result
        (string_bytes text.new ≡ string_bytes text.old ++ legal_lines (Some legal.now)) }
{
    let ask = Ask::Txn(legal.call);
    let count = legal.replies.len();
    if count <= MOST_TOLD {
        return push_each(text, &ask, legal.replies.as_slice());
    }
    push_each(text, &ask, &legal.replies[..MOST_TOLD])?;
    push_number_line(text, "MORE ", (count - MOST_TOLD) as u64)
}
