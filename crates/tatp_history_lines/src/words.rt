//! The first word of a text, and short numbers.
ghost use Rattle.std.specs.Prelude.{◌≡◌, ◌<◌, ◌^◌, None, Some, IfSome, MatchOption};
ghost use Rattle.tatp_history_lines.specs.Words.{split_word, short_number_of};

use tatp_lines::read_number;

/// The first word of a text and what follows its space, where there is one.
#[tactic(auto, using(crate::proofs::WordLaws::split_first, crate::proofs::WordLaws::split_last))]
pub(crate) fn split_word(text: &str) -> Option<(&str, &str)>
    ensures { MatchOption result (split_word text.now ≡ None)
        (λ parts. split_word text.now ≡ Some (parts.0.now, parts.1.now)) }
{
    text.split_once(' ')
}

/// The number below 2^32 that a text is.
pub(crate) fn read_short_number(text: &str) -> Option<u32>
    ensures { result ≡ short_number_of text.now }
{
    u32::try_from(read_number(text)?).ok()
}
