//! Options without a value.

ghost use Rattle.std.specs.Prelude.{◌≡◌};
ghost use Rattle.command_words.specs.Options.{flag_at, has, no_flags, with};

use audit_rules::{WordRow, find, word_table};

/// An option, however it is spelled.
#[derive(Clone, Copy, Debug, PartialEq, Eq)]
pub(crate) enum Flag {
    /// `--flat`
    Flat,
    /// `-f` or `--force`
    Force,
    /// `-m` or `--multiline`
    Multi,
}

/// A set of options.
#[derive(Clone, Copy, Debug, PartialEq, Eq)]
pub(crate) struct Flags {
    pub(crate) flat: bool,
    pub(crate) force: bool,
    pub(crate) multi: bool,
}

impl Flags {
    /// No option.
    pub(crate) fn none() -> Flags
        ensures { result ≡ no_flags }
    {
        Flags {
            flat: false,
            force: false,
            multi: false,
        }
    }

    /// Whether the option is in the set.
    pub(crate) fn has(self, flag: Flag) -> bool
        ensures { result ≡ has self flag }
    {
        match flag {
            Flag::Flat => self.flat,
            Flag::Force => self.force,
            Flag::Multi => self.multi,
        }
    }

    /// The set with one option more.
    pub(crate) fn with(self, flag: Flag) -> Flags
        ensures { result ≡ with self flag }
    {
        let mut flags = self;
        match flag {
            Flag::Flat => flags.flat = true,
            Flag::Force => flags.force = true,
            Flag::Multi => flags.multi = true,
        }
        flags
    }
}

/// The spellings of the options.
const SPELLINGS: [WordRow<Flag>; 5] = word_table![
    b"--flat" => Flag::Flat,
    b"--force" => Flag::Force,
    b"--multiline" => Flag::Multi,
    b"-f" => Flag::Force,
    b"-m" => Flag::Multi,
];

/// The option that a word spells, or None where it spells none.
pub(crate) fn flag_of(word: &str) -> Option<Flag>
    ensures { result ≡ flag_at word.now }
{
    find(&SPELLINGS, word)
}
