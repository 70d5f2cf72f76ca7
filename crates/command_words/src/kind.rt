//! What a word of a command line is.

ghost use Rattle.std.specs.Prelude.{◌≡◌};
ghost use Rattle.command_words.specs.Words.{is_dashes, is_option, kind_at, option_kind};

use crate::options::{Flag, flag_of};

/// What a word is to a command.
#[derive(Clone, Copy, Debug, PartialEq, Eq)]
pub(crate) enum Kind {
    /// The `--` behind which each word is plain.
    Dashes,
    /// An option.
    Given(Flag),
    /// A plain word.
    Plain,
    /// An option that no command has.
    Unknown,
}

fn is_dashes(word: &str) -> bool
    ensures { result ≡ is_dashes word.now }
{
    word == "--"
}

fn is_option(word: &str) -> bool
    ensures { result ≡ is_option word.now }
{
    word.len() > 1 && word.starts_with('-')
}

fn option_kind(word: &str) -> Kind
    ensures { result ≡ option_kind word.now }
{
    match flag_of(word) {
        Some(flag) => Kind::Given(flag),
        None => Kind::Unknown,
    }
}

/// What a word is, where it stands behind `--` or not.
pub(crate) fn kind_of(is_behind: bool, word: &str) -> Kind
    ensures { result ≡ kind_at is_behind word.now }
{
    if is_behind {
        Kind::Plain
    } else if is_dashes(word) {
        Kind::Dashes
    } else if is_option(word) {
        option_kind(word)
    } else {
        Kind::Plain
    }
}
