//! Whether what is asked has arguments in their domains.
ghost use Rattle.std.specs.Prelude.{◌↔◌, IsTrue};
ghost use Rattle.tatp_judge.specs.Accepted.{IsAcceptedLine};

use tatp_calls::args_ok;
use tatp_history::Line;

/// Whether the arguments of the call that a line asks, if it asks one, are in their domains.
pub fn is_accepted(line: &Line) -> bool
    ensures { IsTrue result ↔ IsAcceptedLine line.now }
{
    match line {
        Line::Ask { call, .. } => args_ok(call).is_ok(),
        Line::End { .. } => true,
        Line::Abort { .. } => true,
        Line::Lost { .. } => true,
    }
}
