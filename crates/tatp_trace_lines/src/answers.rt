//! The line of what is answered to an event.
ghost use Rattle.std.specs.Prelude.{◌≡◌, ◌<◌, ◌∷◌, ◌++◌, IfOk, OnErr, OnOk, decimal, length, slice_index};
ghost use Rattle.std.specs.String.{string_bytes};
ghost use Rattle.tatp_calls.specs.Extends.{Extends};
ghost use Rattle.tatp_trace_lines.specs.AnswerText.{answer_text, answered_text, refused_text};

use std::alloc::{AllocError, Global};
use tatp_calls::push_reply;
use tatp_events::{Answer, Refusal};
use tatp_lines::push_decimal;

/// Appends the line of what is answered to an event. An error leaves the text as it was.
pub fn push_answer(text: &mut String, answered: &Result<Answer, Refusal>) -> Result<(), AllocError>
    ensures ok { OnOk result
        (string_bytes text.new ≡ string_bytes text.old ++ answered_text answered.now) }
    ensures err { OnErr result (string_bytes text.new ≡ string_bytes text.old) }
{
    match answered {
        Ok(answer) => push_accepted(text, answer),
        Err(refusal) => push_refusal(text, refusal),
    }
}

/// Appends the line of an answer. An error leaves the text as it was.
#[tactic(auto, using(tatp_calls::proofs::ExtendsLaws::may_be_cut, tatp_calls::proofs::ExtendsLaws::cut_back))]
fn push_accepted(text: &mut String, answer: &Answer) -> Result<(), AllocError>
    ensures ok { OnOk result
        (string_bytes text.new ≡ string_bytes text.old ++ answer_text answer.now) }
    ensures err { OnErr result (string_bytes text.new ≡ string_bytes text.old) }
{
    let before = text.len();
    let pushed = push_pieces(text, answer);
    if pushed.is_err() {
        text.truncate(before);
    }
    pushed
}

/// Appends the pieces of that line. An error may leave the first of them.
fn push_pieces(text: &mut String, answer: &Answer) -> Result<(), AllocError>
    ensures ok { OnOk result
        (string_bytes text.new ≡ string_bytes text.old ++ answer_text answer.now) }
    ensures err { OnErr result (Extends (string_bytes text.old) (string_bytes text.new)) }
{
    match answer {
        Answer::Queued(partition) => push_number(text, "QUEUED ", u64::from(*partition)),
        Answer::Began(client) => push_number(text, "BEGAN ", *client),
        Answer::Away(partition) => push_number(text, "AWAY ", u64::from(*partition)),
        Answer::Denied(client) => push_number(text, "DENIED ", *client),
        Answer::Moved => text.push_str("MOVED"),
        Answer::Ended(client, ask, reply) => {
            push_number(text, "ENDED ", *client)?;
            text.push_str(" ")?;
            push_reply(text, ask, reply.as_ref())
        }
        Answer::Parcel(extent, moves) => {
            push_numbers(text, "PARCEL ", u64::from(*extent), u64::from(*moves))
        }
        Answer::Landed(extent, moves) => {
            push_numbers(text, "LANDED ", u64::from(*extent), u64::from(*moves))
        }
        Answer::Set(extent, partition) => {
            push_numbers(text, "SET ", u64::from(*extent), u64::from(*partition))
        }
        Answer::Superseded(extent) => push_number(text, "SUPERSEDED ", u64::from(*extent)),
        Answer::Chapter(extent, index, entries) => {
            push_three_numbers(
                text,
                "CHAPTER ",
                u64::from(*extent),
                u64::from(*index),
                *entries,
            )
        }
        Answer::Done => text.push_str("OK"),
    }
}

/// Appends the line of a refusal. An error leaves the text as it was.
fn push_refusal(text: &mut String, refusal: &Refusal) -> Result<(), AllocError>
    ensures ok { OnOk result
        (string_bytes text.new ≡ string_bytes text.old ++ refused_text refusal.now) }
    ensures err { OnErr result (string_bytes text.new ≡ string_bytes text.old) }
{
    let line = refused_text(*text.allocator(), refusal)?;
    text.push_str(line.as_str())
}

/// The line of a refusal.
pub fn refused_text(alloc: Global, refusal: &Refusal) -> Result<String, AllocError>
    ensures { IfOk result (λ text. string_bytes text ≡ refused_text refusal.now) }
{
    format!(in alloc; "REFUSED {refusal}")
}

/// Appends words and a number. An error may leave the words.
#[tactic(auto, using(crate::proofs::AppendLaws::words_extend, crate::proofs::AppendLaws::words_and_number))]
fn push_number(text: &mut String, words: &str, number: u64) -> Result<(), AllocError>
    requires some { 0 < length words.now }
    requires ascii { slice_index words.now 0 < 128 }
    ensures ok { OnOk result
        (string_bytes text.new ≡ string_bytes text.old ++ (words.now ++ decimal number)) }
    ensures err { OnErr result (Extends (string_bytes text.old) (string_bytes text.new)) }
{
    text.push_str(words)?;
    push_decimal(text, number)
}

/// Appends words and two numbers. An error may leave the first of them.
#[tactic(auto, using(crate::proofs::AppendLaws::words_extend, crate::proofs::AppendLaws::words_and_number))]
fn push_numbers(text: &mut String, words: &str, first: u64, second: u64) -> Result<(), AllocError>
    requires some { 0 < length words.now }
    requires ascii { slice_index words.now 0 < 128 }
    ensures ok { OnOk result (string_bytes text.new
        ≡ string_bytes text.old ++ (words.now ++ (decimal first ++ 32 ∷ decimal second))) }
    ensures err { OnErr result (Extends (string_bytes text.old) (string_bytes text.new)) }
{
    push_number(text, words, first)?;
    text.push_str(" ")?;
    push_decimal(text, second)
}

/// Appends words and three numbers. An error may leave the first of them.
#[tactic(auto, using(crate::proofs::AppendLaws::words_extend, crate::proofs::AppendLaws::words_and_number))]
fn push_three_numbers(
    text: &mut String,
    words: &str,
    first: u64,
    second: u64,
    third: u64,
) -> Result<(), AllocError>
    requires some { 0 < length words.now }
    requires ascii { slice_index words.now 0 < 128 }
    ensures ok { OnOk result (string_bytes text.new ≡ string_bytes text.old
        ++ (words.now ++ (decimal first ++ 32 ∷ (decimal second ++ 32 ∷ decimal third)))) }
    ensures err { OnErr result (Extends (string_bytes text.old) (string_bytes text.new)) }
{
    push_numbers(text, words, first, second)?;
    text.push_str(" ")?;
    push_decimal(text, third)
}
