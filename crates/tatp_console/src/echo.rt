//! Lines of events that are echoed.
ghost use Rattle.std.specs.Prelude.{◌≡◌, ◌++◌, true, OnOk};
ghost use Rattle.std.specs.String.{string_bytes};
ghost use Rattle.tatp_console.specs.Answers.{AppendsAnswer};
ghost use Rattle.tatp_console.specs.EventLines.{echo_of, is_comment};
ghost use Rattle.tatp_console.specs.Tracing.{answers_events};

use crate::event_line::answer_line;
use std::alloc::{AllocError, Global};
use tatp_dispatch::World;

/// Appends the line itself, after `> `.
#[tactic(auto, using(crate::proofs::EchoLaws::echo_pushed))]
fn push_echo(alloc: Global, line: &[u8], pending: &mut String) -> Result<(), AllocError>
    ensures { OnOk result
        (string_bytes pending.new ≡ string_bytes pending.old ++ echo_of line.now) }
{
    let text = String::from_utf8_lossy(alloc, line)?;
    pending.push_str("> ")?;
    pending.push_str(text.as_str())?;
    pending.push_str("\n")
}

fn is_comment(line: &[u8]) -> bool
    ensures { result ≡ is_comment line.now }
{
    line.first() == Some(&b'#')
}

/// Appends the line itself and what is answered to it; nothing is answered to a comment. After an
/// error the text must not be used, and the event of the line may have happened.
#[tactic(auto, using(crate::proofs::EchoLaws::comment_told))]
pub fn answer_echoed(
    alloc: Global,
    world: &mut World<'_>,
    line: &[u8],
    pending: &mut String,
) -> Result<(), AllocError>
    ensures { OnOk result (AppendsAnswer (answers_events true) world.old line.now
        (string_bytes pending.old) (string_bytes pending.new) world.new) }
{
    push_echo(alloc, line, pending)?;
    if is_comment(line) {
        return Ok(());
    }
    answer_line(alloc, world, line, pending)
}
