//! The text of a line.
ghost use Rattle.std.specs.Prelude.{◌≡◌, [], ◌∷◌, ◌++◌, IfOk, OnOk};
ghost use Rattle.std.specs.String.{string_bytes};
ghost use Rattle.tatp_trace_lines.specs.LineText.{ask_text, event_text, key_word, key_number, line_text, numbers_text, with_numbers};

use crate::TraceLine;
use std::alloc::{AllocError, Global};
use tatp_calls::{Ask, Raw, call_text};
use tatp_events::Event;
use tatp_numbers::Key;

/// The text of a line.
pub fn trace_line_text(alloc: Global, line: &TraceLine) -> Result<String, AllocError>
    ensures { IfOk result (λ text. string_bytes text ≡ line_text line.now) }
{
    match line {
        TraceLine::Event(event) => event_text(alloc, event),
        TraceLine::Steps(partition, count) => with_numbers(alloc, "steps", &[*partition, *count]),
        TraceLine::Look(partition) => with_numbers(alloc, "look", &[*partition]),
        TraceLine::Home(partition, s_id) => with_numbers(alloc, "home", &[*partition, *s_id]),
        TraceLine::Audit => with_numbers(alloc, "audit", &[]),
    }
}

fn event_text(alloc: Global, event: &Event) -> Result<String, AllocError>
    ensures { IfOk result (λ text. string_bytes text ≡ event_text event.now) }
{
    match event {
        Event::Submit(client, ask) => ask_text(alloc, *client, ask),
        Event::Begin(partition) => with_numbers(alloc, "begin", &[*partition]),
        Event::Deny(partition) => with_numbers(alloc, "deny", &[*partition]),
        Event::Step(partition) => with_numbers(alloc, "step", &[*partition]),
        Event::Take(partition, extent) => with_numbers(alloc, "take", &[*partition, *extent]),
        Event::Give(partition, extent) => with_numbers(alloc, "give", &[*partition, *extent]),
        Event::Route(extent, moves) => with_numbers(alloc, "route", &[*extent, *moves]),
        Event::Checkpoint(partition, extent) => {
            with_numbers(alloc, "checkpoint", &[*partition, *extent])
        }
        Event::Stop(partition) => with_numbers(alloc, "stop", &[*partition]),
        Event::Resume(partition) => with_numbers(alloc, "resume", &[*partition]),
        Event::One(partition) => with_numbers(alloc, "one", &[*partition]),
        Event::Break(partition, procedure, pc) => {
            with_numbers(alloc, "break", &[*partition, *procedure, *pc])
        }
        Event::Clear(partition, procedure, pc) => {
            with_numbers(alloc, "clear", &[*partition, *procedure, *pc])
        }
    }
}

fn ask_text(alloc: Global, client: u64, ask: &Ask) -> Result<String, AllocError>
    ensures { IfOk result (λ text. string_bytes text ≡ ask_text client ask.now) }
{
    match ask {
        Ask::Txn(call) => {
            let call = call_text(alloc, call)?;
            format!(in alloc; "submit {client} {call}")
        }
        Ask::Raw(call) => {
            let procedure = call.procedure();
            let word = key_word(call.key());
            let number = key_number(call.key());
            let mut text = format!(in alloc; "raw {client} {procedure} {word} {number}")?;
            push_numbers(&mut text, call.args())?;
            Ok(text)
        }
    }
}

fn key_word(key: Key) -> &'static str
    ensures { result.now ≡ key_word key }
{
    match key {
        Key::Id(_) => "id",
        Key::Number(_) => "number",
    }
}

fn key_number(key: Key) -> u64
    ensures { result ≡ key_number key }
{
    match key {
        Key::Id(number) => number,
        Key::Number(number) => number,
    }
}

/// A word, and numbers after it.
fn with_numbers(alloc: Global, word: &str, numbers: &[u64]) -> Result<String, AllocError>
    ensures { IfOk result (λ text. string_bytes text ≡ with_numbers word.now numbers.now) }
{
    let mut text = String::from_str(alloc, word)?;
    push_numbers(&mut text, numbers)?;
    Ok(text)
}

/// Appends numbers, each after a space.
#[tactic(auto, using(crate::proofs::PushLaws::none_pushed, crate::proofs::PushLaws::one_pushed, crate::proofs::PushLaws::all_pushed))]
fn push_numbers(text: &mut String, numbers: &[u64]) -> Result<(), AllocError>
    ensures { OnOk result
        (string_bytes text.new ≡ string_bytes text.old ++ numbers_text numbers.now) }
{
    for number in numbers {
        write!(text, " {number}")?;
    }
    Ok(())
}
