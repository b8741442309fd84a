//! The fields of a line, and what one of them can be.
ghost use Rattle.std.specs.Prelude.{◌≡◌, ◌<◌, ◌∷◌, [], IfSome};
ghost use Rattle.std.specs.List.{list_all};
ghost use Rattle.tatp_asm.specs.Lines.{is_label, is_label_byte};
ghost use Rattle.tatp_asm.specs.Words.{below, fields_left};
ghost use Rattle.tatp_lines.specs.Fields.{fields_of};
ghost use Rattle.tatp_asm.specs.Views.{AreFields};

use tatp_limits::MAX_NAME_BYTES;
use tatp_lines::read_number;

/// The fields of a text, where there are at most three.
#[derive(Clone, Copy, Debug)]
pub(crate) enum Split<'a> {
    One(&'a str),
    Two(&'a str, &'a str),
    Three(&'a str, &'a str, &'a str),
    /// Four or more.
    More,
}

/// The first field of a text, and what follows the separator where there is one.
fn cut(separator: char, text: &str) -> (&str, Option<&str>)
    requires { separator < 128 }
    ensures { fields_of separator text.now ≡ result.0.now ∷ fields_left separator result.1 }
{
    match text.split_once(separator) {
        Some((field, rest)) => (field, Some(rest)),
        None => (text, None),
    }
}

/// The fields of a text, which one separator parts.
pub(crate) fn split_fields(separator: char, text: &str) -> Split<'_>
    requires { separator < 128 }
    ensures { AreFields result (fields_of separator text.now) }
{
    let (first, rest) = cut(separator, text);
    let Some(rest) = rest else {
        return Split::One(first);
    };
    let (second, rest) = cut(separator, rest);
    let Some(rest) = rest else {
        return Split::Two(first, second);
    };
    let (third, rest) = cut(separator, rest);
    match rest {
        None => Split::Three(first, second, third),
        Some(_) => Split::More,
    }
}

/// The number that a text is, where it is below the limit.
#[tactic(auto, unfolding(crate::specs::Words::below))]
pub(crate) fn below(limit: u64, text: &str) -> Option<u64>
    ensures value { result ≡ below limit text.now }
    ensures small { IfSome result (λ n. n < limit) }
{
    let number = read_number(text)?;
    if number < limit { Some(number) } else { None }
}

fn are_label_bytes(text: &[u8]) -> bool
    ensures { result ≡ list_all is_label_byte text.now }
{
    text.iter().all(|b| b.is_ascii_alphanumeric() || *b == b'_')
}

/// Whether a text is a label.
#[tactic(auto, unfolding(crate::specs::Lines::is_label))]
pub(crate) fn is_label(text: &[u8]) -> bool
    ensures { result ≡ is_label text.now }
{
    match text {
        [] => false,
        [first, rest @ ..] => {
            first.is_ascii_alphabetic() && are_label_bytes(rest) && rest.len() < MAX_NAME_BYTES
        }
    }
}
