//! Appends the line of a call to a text, with its line feed.
ghost use Rattle.std.specs.Prelude.{◌≡◌, ◌++◌, OnOk};
ghost use Rattle.std.specs.String.{string_bytes};
ghost use Rattle.tatp_load.specs.Calls.{line_of};

use std::alloc::AllocError;
use tatp_calls::{Call, push_call};

/// Appends a call as a line, with its line feed. `Err` means that memory was refused.
pub fn push_call_line(text: &mut String, call: &Call) -> Result<(), AllocError>
    ensures { OnOk result (string_bytes text.new ≡ string_bytes text.old ++ line_of call.now) }
{
    push_call(text, call)?;
    text.push('\n')
}
