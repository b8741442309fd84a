//! Calls in lines.
ghost use Rattle.std.specs.Prelude.{◌≡◌, [], ◌∷◌, drop, MatchOption};
ghost use Rattle.tatp_texts.specs.Text.{fields_of};
ghost use Rattle.tatp_trace_lines.specs.LineFields.{submit_of, key_of, raw_of};

use super::numbers::eight_numbers;
use crate::TraceLine;
use tatp_calls::{Ask, Raw, read_call};
use tatp_events::Event;
use tatp_lines::read_number;
use tatp_numbers::Key;
use tatp_texts::Fields;

/// The first field of a text and what follows its space, where there is one.
#[tactic(auto, using(tatp_texts::proofs::FieldLaws::fields_first, tatp_texts::proofs::FieldLaws::fields_last))]
fn split_field(text: &str) -> Option<(&str, &str)>
    ensures { MatchOption result (fields_of text.now ≡ text.now ∷ [])
        (λ parts. fields_of text.now ≡ parts.0.now ∷ fields_of parts.1.now) }
{
    text.split_once(' ')
}

/// A transaction that a client asks for: what comes after the first word of a line.
#[tactic(auto, unfolding(tatp_calls::specs::CallText::call_of_line))]
pub(super) fn submitted(text: &str) -> Option<TraceLine>
    ensures { result ≡ submit_of (drop 1 (fields_of text.now)) }
{
    let (_, asked) = split_field(text)?;
    let (client, call) = split_field(asked)?;
    let client = read_number(client)?;
    let call = read_call(call)?;
    Some(TraceLine::Event(Event::Submit(client, Ask::Txn(call))))
}

/// The key that a word and a number are.
fn key_of(word: &str, number: u64) -> Option<Key>
    ensures { result ≡ key_of word.now number }
{
    match word {
        "id" => Some(Key::Id(number)),
        "number" => Some(Key::Number(number)),
        _ => None,
    }
}

/// A call of any procedure that a client asks for.
pub(super) fn raw(fields: &mut Fields) -> Option<TraceLine>
    ensures { result ≡ raw_of fields.old }
{
    let client = read_number(fields.next()?)?;
    let procedure = read_number(fields.next()?)?;
    let word = fields.next()?;
    let key = key_of(word, read_number(fields.next()?)?)?;
    let arguments = eight_numbers(fields)?;
    let call = Raw::new(procedure, &arguments, key);
    Some(TraceLine::Event(Event::Submit(client, Ask::Raw(call))))
}
