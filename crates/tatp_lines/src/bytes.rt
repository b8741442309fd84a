//! The first line of bytes, and what follows it.
ghost use Rattle.std.specs.Prelude.{◌≡◌, ◌<◌, ◌∷◌, [], ◌==◌, length, position, IfSome, IfNone};
ghost use Rattle.std.specs.List.{position_or_len};
ghost use Rattle.tatp_lines.specs.Lines.{lines_of};

fn line_feed(text: &[u8]) -> Option<usize>
    ensures { result ≡ position (λ byte. byte == 10) text.now }
{
    text.iter().position(|byte| *byte == b'\n')
}

/// How many bytes come before the first line feed.
#[tactic(auto, using(crate::proofs::LineLaws::place_or_len))]
fn line_len(text: &[u8]) -> usize
    ensures { result ≡ position_or_len (λ byte. byte == 10) text.now }
{
    line_feed(text).unwrap_or(text.len())
}

/// The first line and what follows it, where there is one. Its line feed is in neither.
#[tactic(auto, using(crate::proofs::LineLaws::lines_of_none, crate::proofs::LineLaws::lines_of_slices, crate::proofs::LineLaws::lines_of_last))]
pub fn next_line(text: &[u8]) -> Option<(&[u8], &[u8])>
    ensures line { IfSome result (λ found. lines_of text.now ≡ found.0.now ∷ lines_of found.1.now) }
    ensures shorter { IfSome result (λ found. length found.1.now < length text.now) }
    ensures none { IfNone result (lines_of text.now ≡ []) }
{
    if text.is_empty() {
        return None;
    }
    let end = line_len(text);
    if end < text.len() {
        Some((&text[..end], &text[end + 1..]))
    } else {
        Some((text, &[]))
    }
}
