//! The line that a text is.
ghost use Rattle.std.specs.Prelude.{◌≡◌, [], ◌∷◌, IfSome};
ghost use Rattle.tatp_trace_lines.specs.LineFields.{line_of, steps_in};
ghost use Rattle.tatp_trace_lines.specs.LineText.{line_text, HasForm};

mod calls;
mod numbers;

use crate::TraceLine;
use calls::{raw, submitted};
use numbers::{one_number, three_numbers, two_numbers};
use tatp_events::Event;
use tatp_limits::MAX_STEPS;
use tatp_texts::Fields;

/// The line that a text is, exactly where it is one.
pub fn read_trace_line(text: &str) -> Option<TraceLine>
    ensures line { result ≡ line_of text.now }
    ensures printed { IfSome result (λ line. line_text line ≡ text.now) }
    ensures form { IfSome result HasForm }
{
    line_of(text)
}

#[tactic(auto, unfolding(crate::specs::LineFields::line_of))]
fn line_of(text: &str) -> Option<TraceLine>
    ensures { result ≡ line_of text.now }
{
    let mut fields = Fields::new(text);
    match fields.next()? {
        "submit" => submitted(text),
        "raw" => raw(&mut fields),
        "begin" => Some(TraceLine::Event(Event::Begin(one_number(&mut fields)?))),
        "deny" => Some(TraceLine::Event(Event::Deny(one_number(&mut fields)?))),
        "step" => Some(TraceLine::Event(Event::Step(one_number(&mut fields)?))),
        "one" => Some(TraceLine::Event(Event::One(one_number(&mut fields)?))),
        "steps" => steps(&mut fields),
        "take" => {
            let (partition, extent) = two_numbers(&mut fields)?;
            Some(TraceLine::Event(Event::Take(partition, extent)))
        }
        "give" => {
            let (partition, extent) = two_numbers(&mut fields)?;
            Some(TraceLine::Event(Event::Give(partition, extent)))
        }
        "route" => {
            let (extent, moves) = two_numbers(&mut fields)?;
            Some(TraceLine::Event(Event::Route(extent, moves)))
        }
        "checkpoint" => {
            let (partition, extent) = two_numbers(&mut fields)?;
            Some(TraceLine::Event(Event::Checkpoint(partition, extent)))
        }
        "stop" => Some(TraceLine::Event(Event::Stop(one_number(&mut fields)?))),
        "resume" => Some(TraceLine::Event(Event::Resume(one_number(&mut fields)?))),
        "break" => {
            let (partition, procedure, pc) = three_numbers(&mut fields)?;
            Some(TraceLine::Event(Event::Break(partition, procedure, pc)))
        }
        "clear" => {
            let (partition, procedure, pc) = three_numbers(&mut fields)?;
            Some(TraceLine::Event(Event::Clear(partition, procedure, pc)))
        }
        "look" => Some(TraceLine::Look(one_number(&mut fields)?)),
        "home" => {
            let (partition, s_id) = two_numbers(&mut fields)?;
            Some(TraceLine::Home(partition, s_id))
        }
        "audit" => {
            match fields.next() {
                Some(_) => None,
                None => Some(TraceLine::Audit),
            }
        }
        _ => None,
    }
}

/// A partition, and how many steps: 1 to [`MAX_STEPS`].
fn steps(fields: &mut Fields) -> Option<TraceLine>
    ensures { result ≡ steps_in fields.old }
{
    let (partition, count) = two_numbers(fields)?;
    if 1 <= count && count <= MAX_STEPS as u64 {
        Some(TraceLine::Steps(partition, count))
    } else {
        None
    }
}
