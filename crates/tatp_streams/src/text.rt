//! Bytes as text.
ghost use Rattle.std.specs.Prelude.{◌≡◌, true, false, IfSome, OnSome, IfNone};
ghost use Rattle.std.specs.Str.{is_utf8};

/// The text that the bytes are. `None` means that they aren't UTF-8.
#[tactic(auto, using(crate::proofs::TextLaws::is_text, crate::proofs::TextLaws::is_no_text))]
pub fn text_of(bytes: &[u8]) -> Option<&str>
    ensures same { IfSome result (λ text. text.now ≡ bytes.now) }
    ensures some { OnSome result (is_utf8 bytes.now ≡ true) }
    ensures none { IfNone result (is_utf8 bytes.now ≡ false) }
{
    match str::from_utf8(bytes) {
        Ok(text) => Some(text),
        Err(_) => None,
    }
}
