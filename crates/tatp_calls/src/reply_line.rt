//! The line of a reply.
ghost use Rattle.std.specs.Prelude.{◌≡◌, ◌++◌, IfOk, OnErr, OnOk, codes};
ghost use Rattle.std.specs.String.{string_bytes};
ghost use Rattle.tatp_instr.specs.Traps.{trap_name};
ghost use Rattle.tatp_calls.specs.Extends.{Extends};
ghost use Rattle.tatp_calls.specs.Replies.{reply_seen};
ghost use Rattle.tatp_calls.specs.ReplyText.{answer_columns, reply_columns, reply_text};

use crate::transactions::NUMBERX;
use crate::values::push_values;
use crate::{Ask, Call, ReplyRef};
use std::alloc::{AllocError, Global};
use tatp_instr::Trap;
use tatp_limits::MAX_OUTPUTS;
use tatp_lines::push_decimal;

/// The line of a reply to what was asked.
pub fn reply_text(alloc: Global, ask: &Ask, reply: ReplyRef<'_>) -> Result<String, AllocError>
    ensures { IfOk result
        (λ text. string_bytes text ≡ reply_text ask.now (reply_seen reply.entry)) }
{
    let mut text = String::new(alloc);
    push_reply(&mut text, ask, reply)?;
    Ok(text)
}

/// Appends the line of a reply to what was asked. An error leaves the text as it was.
#[tactic(auto, using(crate::proofs::ExtendsLaws::may_be_cut, crate::proofs::ExtendsLaws::cut_back))]
pub fn push_reply(text: &mut String, ask: &Ask, reply: ReplyRef<'_>) -> Result<(), AllocError>
    ensures ok { OnOk result (string_bytes text.new
        ≡ string_bytes text.old ++ reply_text ask.now (reply_seen reply.entry)) }
    ensures err { OnErr result (string_bytes text.new ≡ string_bytes text.old) }
{
    let before = text.len();
    let pushed = push_line(text, ask, reply);
    if pushed.is_err() {
        text.truncate(before);
    }
    pushed
}

/// Appends the line of a reply to what was asked. An error may leave the line's beginning.
#[tactic(auto, using(crate::proofs::PrintingLaws::words_and_values))]
fn push_line(text: &mut String, ask: &Ask, reply: ReplyRef<'_>) -> Result<(), AllocError>
    ensures ok { OnOk result (string_bytes text.new
        ≡ string_bytes text.old ++ reply_text ask.now (reply_seen reply.entry)) }
    ensures err { OnErr result (Extends (string_bytes text.old) (string_bytes text.new)) }
{
    match reply {
        ReplyRef::Values(values) => {
            text.push_str("OK")?;
            push_values(text, reply_columns(ask), values)
        }
        ReplyRef::Failed(number) => {
            text.push_str("FAILED ")?;
            push_decimal(text, u64::from(number))
        }
        ReplyRef::Trapped(trap) => text.push_str(trapped(&trap)),
        ReplyRef::Refused => text.push_str("REFUSED 46 NoMemory"),
    }
}

fn trapped(trap: &Trap) -> &'static str
    ensures { result.now ≡ codes "TRAPPED " ++ trap_name trap.now }
{
    match trap {
        Trap::NoCurrent => "TRAPPED NoCurrent",
        Trap::Domain => "TRAPPED Domain",
        Trap::Budget => "TRAPPED Budget",
        Trap::Output => "TRAPPED Output",
        Trap::Writes => "TRAPPED Writes",
    }
}

/// The columns in whose forms the values are.
fn reply_columns(ask: &Ask) -> &'static [u8]
    ensures { result.now ≡ reply_columns ask.now }
{
    match ask {
        Ask::Txn(call) => answer_columns(call),
        Ask::Raw(_) => &[],
    }
}

fn answer_columns(call: &Call) -> &'static [u8]
    ensures { result.now ≡ answer_columns call.now }
{
    match call {
        Call::GetSubscriberData { .. } => &[
            0, 1, 2, 3, 4, 5, 6, 7, 8, 9, 10, 11, 12, 13, 14, 15, 16, 17, 18, 19, 20, 21, 22, 23,
            24, 25, 26, 27, 28, 29, 30, 31, 32, 33,
        ],
        Call::GetNewDestination { .. } => &[NUMBERX; MAX_OUTPUTS],
        Call::GetAccessData { .. } => &[36, 37, 38, 39],
        _ => &[],
    }
}
