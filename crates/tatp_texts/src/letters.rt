//! Letters A..Z in text, packed into a number with the first letter in the highest byte.
ghost use Rattle.std.specs.Prelude.{◌≡◌, ◌≤◌, length};
ghost use Rattle.tatp_texts.specs.Text.{letters_of, letters_text};

/// The packed value of exactly this many letters.
#[tactic(auto, using(crate::proofs::LetterLaws::no_letters_length, crate::proofs::LetterLaws::no_letters_at, crate::proofs::LetterLaws::nothing_read, crate::proofs::LetterLaws::letter_fits, crate::proofs::LetterLaws::letter_read, crate::proofs::LetterLaws::all_read))]
pub(crate) fn read_letters(count: usize, text: &str) -> Option<u64>
    requires { count ≤ 8 }
    ensures { result ≡ letters_of count text.now }
{
    let letters = text.as_bytes();
    if letters.len() != count {
        return None;
    }
    let mut packed = 0;
    for letter in letters {
        if !letter.is_ascii_uppercase() {
            return None;
        }
        packed = 256 * packed + u64::from(*letter);
    }
    Some(packed)
}

/// Fills the slice with the letters packed into a value.
#[tactic(auto, using(crate::proofs::LetterLaws::letter_moved), unfolding(crate::specs::Text::letters_text))]
pub(crate) fn write_letters(letters: &mut [u8], value: u64)
    ensures { letters.new ≡ letters_text (length letters.old) value }
{
    let mut rest = value;
    let mut place = letters.len();
    'letters: while place > 0 {
        place -= 1;
        letters[place] = (rest % 256) as u8;
        rest /= 256;
    }
}
