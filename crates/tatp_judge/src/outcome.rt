//! What a line says of its client's open call.
ghost use Rattle.std.specs.Prelude.{◌≡◌, ◌↔◌, ℕ, IsTrue, None, [], ◌∷◌, if◌then◌else◌};
ghost use Rattle.tatp_history.specs.declared.event.Event.TheVariants.{Ends};
ghost use Rattle.tatp_history.specs.HistoryLines.{client_of, end_at};
ghost use Rattle.tatp_history.specs.Locality.{FailsWithout};
ghost use Rattle.tatp_judge.specs.NextLine.{ends_of, number_of_last};

use tatp_calls::Reply;
use tatp_history::{Line, Outcome};

/// Whose line it is.
pub(crate) fn client_of(line: &Line) -> u64
    ensures { result ≡ client_of line.now }
{
    match line {
        Line::Ask { client, .. } => *client,
        Line::End { client, .. } => *client,
        Line::Abort { client } => *client,
        Line::Lost { client } => *client,
    }
}

/// How the line of this number ends the call that its client had open.
pub(crate) fn end_at(number: u64, line: &Line) -> Outcome
    ensures { result ≡ end_at number line.now }
{
    match line {
        Line::Ask { .. } => Outcome::Unknown,
        Line::End { recorded, .. } => Outcome::Answered {
            at: number,
            recorded: *recorded,
        },
        Line::Abort { .. } => Outcome::Aborted { at: number },
        Line::Lost { .. } => Outcome::Unknown,
    }
}

/// Whether the line answers its client's open call.
pub(crate) fn is_answer(line: &Line) -> bool
    ensures { (asked number : ℕ)
        → ends_of asked number line.now ≡ (if result then Ends asked number ∷ [] else []) }
{
    match line {
        Line::Ask { .. } => false,
        Line::End { .. } => true,
        Line::Abort { .. } => false,
        Line::Lost { .. } => false,
    }
}

/// Whether the line asks a call.
pub(crate) fn is_ask(line: &Line) -> bool
    ensures { (number : ℕ)
        → number_of_last number line.now ≡ (if result then [] else number ∷ []) }
{
    matches!(line, Line::Ask { .. })
}

/// Whether a call whose key names no subscriber may have ended so.
fn may_have_failed(outcome: &Outcome) -> bool
    ensures { IsTrue result ↔ FailsWithout None outcome.now }
{
    match outcome {
        Outcome::Answered { .. } => outcome.allows(&Reply::Failed(1)),
        Outcome::Aborted { .. } => true,
        Outcome::Unknown => true,
    }
}

/// Whether the open call may end by the line of this number, if its key names no subscriber.
pub(crate) fn may_fail(number: u64, line: &Line) -> bool
    ensures { IsTrue result ↔ FailsWithout None (end_at number line.now) }
{
    may_have_failed(&end_at(number, line))
}
