//! The parts of a text, with a slash between them.

ghost use Rattle.std.specs.Prelude.{◌≡◌, ◌≢◌, ◌↔◌, ◌≤◌, List, IsTrue, All, length};
ghost use Rattle.std.specs.List.{join_with_byte};
ghost use Rattle.gopass_base.specs.Text.{Text};
ghost use Rattle.gopass_base.specs.Parts.{parts, IsHidden, IsSealedName};

/// Whether the part begins with a dot.
pub fn is_hidden(part: &str) -> bool
    ensures { IsTrue result ↔ IsHidden part.now }
{
    part.starts_with('.')
}

/// Whether the part ends in `.gpg`, as the file of a secret does.
pub fn is_sealed_name(part: &str) -> bool
    ensures { IsTrue result ↔ IsSealedName part.now }
{
    part.ends_with(".gpg")
}

pub(crate) fn part_count(text: &str) -> usize
    ensures { result ≡ length (parts text.now) }
{
    text.split('/').count()
}

/// A text and its parts give each other back: with a slash between them the parts are the text, and
/// parts without a slash are those of the text that they make.
pub fn parts_of_texts()
    ensures text { (text : Text) → join_with_byte 47 (parts text) ≡ text }
    ensures parts { (texts : List Text) → 1 ≤ length texts → All (λ part. All (λ b. b ≢ 47) part) texts → parts (join_with_byte 47 texts) ≡ texts }
{}
