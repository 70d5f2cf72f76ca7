//! Texts.

ghost use Rattle.std.specs.Prelude.{◌≡◌, ◌↔◌, IsTrue, All, MatchOption};
ghost use Rattle.std.specs.Str.{is_utf8};
ghost use Rattle.gopass_base.specs.Text.{IsPrintable};

/// Whether no byte of the text is a control byte, which is below 32 or 127.
pub fn is_printable(text: &str) -> bool
    ensures { IsTrue result ↔ All IsPrintable text.now }
{
    text.as_bytes().iter().all(|b| *b >= 32 && *b != 127)
}

/// The bytes as a text, where they are UTF-8.
pub fn as_text(bytes: &[u8]) -> Option<&str>
    ensures { MatchOption result (¬ IsTrue (is_utf8 bytes.now)) (λ text. (text.now ≡ bytes.now) × IsTrue (is_utf8 bytes.now)) }
{
    match str::from_utf8(bytes) {
        Ok(text) => Some(text),
        Err(_) => None,
    }
}
