//! The explanation of a number, and of a word.
ghost use Rattle.std.specs.Prelude.{◌≡◌, ◌≤◌, true, ℕ, IfSome, IfNone, is_some};
ghost use Rattle.tatp_explanations.specs.Names.{name_of};
ghost use Rattle.tatp_explanations.specs.Numbers.{is_explained};
ghost use Rattle.tatp_explanations.specs.Words.{IsNumber, AsksFor, AsksForNone};

use crate::explanation::Explanation;
use crate::table::{
    about_changes, about_logs, about_machines, about_modules, about_openings, about_places,
    about_queues, about_rules, about_streams, about_texts,
};

/// Above the number of each refusal and fault.
pub(crate) const END: u64 = 58;

/// The explanation of a number from 1 to 57.
fn explained(number: u64) -> Explanation
    requires { is_explained number ≡ true }
    ensures own { result.number ≡ number }
    ensures named { result.name.now ≡ name_of number }
{
    match number {
        0..=5 => about_changes(number),
        6..=12 => about_texts(number),
        13..=17 => about_modules(number),
        18..=24 => about_rules(number),
        25..=28 => about_openings(number),
        29..=34 => about_machines(number),
        35..=40 => about_places(number),
        41..=46 => about_queues(number),
        47..=52 => about_streams(number),
        _ => about_logs(number),
    }
}

/// The explanation of a number, if it is one of a refusal or a fault.
pub(crate) fn explanation_of(number: u64) -> Option<Explanation>
    ensures own { IfSome result (λ row. row.number ≡ number) }
    ensures named { IfSome result (λ row. row.name.now ≡ name_of number) }
    ensures some { is_some result ≡ is_explained number }
{
    if number == 0 || number >= END {
        None
    } else {
        Some(explained(number))
    }
}

/// The explanation of the number that a word is, in digits alone.
fn explanation_numbered(word: &str) -> Option<Explanation>
    ensures own { IfSome result (λ row. IsNumber word.now row.number) }
    ensures named { IfSome result (λ row. row.name.now ≡ name_of row.number) }
    ensures some { IfSome result (λ row. is_explained row.number ≡ true) }
    ensures none { IfNone result ((number : ℕ) → is_explained number ≡ true
        → IsNumber word.now number → ⊥) }
{
    match word.as_bytes().first() {
        // (a sign is none of a number's digits)
        Some(b'0'..=b'9') => match word.parse::<u64>() {
            Ok(number) => explanation_of(number),
            Err(_) => None,
        },
        _ => None,
    }
}

/// The explanation of the refusals and faults that have a name.
fn explanation_named(word: &str) -> Option<Explanation>
    ensures own { IfSome result (λ row. word.now ≡ name_of row.number) }
    ensures named { IfSome result (λ row. row.name.now ≡ name_of row.number) }
    ensures some { IfSome result (λ row. is_explained row.number ≡ true) }
    ensures none { IfNone result ((number : ℕ) → is_explained number ≡ true
        → word.now ≡ name_of number → ⊥) }
{
    'numbers: for number in 1..END {
        let explanation = explained(number);
        if explanation.name == word {
            return Some(explanation);
        }
    }
    None
}

/// The explanation that a word asks for, by its number or by its name, if it asks for one.
pub(crate) fn explanation_asked(word: &str) -> Option<Explanation>
    ensures own { IfSome result (λ row. AsksFor word.now row.number) }
    ensures named { IfSome result (λ row. row.name.now ≡ name_of row.number) }
    ensures none { IfNone result (AsksForNone word.now) }
{
    match explanation_numbered(word) {
        Some(explanation) => Some(explanation),
        None => explanation_named(word),
    }
}
