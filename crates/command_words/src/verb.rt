//! The commands' words, and what each command takes.

ghost use Rattle.std.specs.Prelude.{◌≡◌, false};
ghost use Rattle.command_words.specs.Forms.{form_of, verb_at};

use crate::options::{Flag, Flags};
use audit_rules::{WordRow, find, word_table};

/// What the first word asks for.
#[derive(Clone, Copy, Debug, PartialEq, Eq)]
pub(crate) enum Verb {
    Find,
    Insert,
    Ls,
    Mounts,
    Recipients,
    Show,
}

/// How many plain words a command takes, and which options.
#[derive(Clone, Copy, Debug, PartialEq, Eq)]
pub(crate) struct Form {
    pub(crate) least: usize,
    pub(crate) most: usize,
    pub(crate) flags: Flags,
    /// Whether its second word is to name a subcommand. No subcommand is there.
    pub(crate) has_subcommands: bool,
}

/// The words of the commands.
const COMMANDS: [WordRow<Verb>; 7] = word_table![
    b"find" => Verb::Find,
    b"insert" => Verb::Insert,
    b"list" => Verb::Ls,
    b"ls" => Verb::Ls,
    b"mounts" => Verb::Mounts,
    b"recipients" => Verb::Recipients,
    b"show" => Verb::Show,
];

/// The command whose word this is, or None where no command has it.
pub(crate) fn verb_of(word: &str) -> Option<Verb>
    ensures { result ≡ verb_at word.now }
{
    find(&COMMANDS, word)
}

/// A command that takes so many plain words and these options, and no subcommand.
fn words(least: usize, most: usize, flags: Flags) -> Form
    ensures { result ≡ record { least = least; most = most; flags = flags; has_subcommands = false } }
{
    Form {
        least,
        most,
        flags,
        has_subcommands: false,
    }
}

/// What the command takes.
pub(crate) fn form_of(verb: Verb) -> Form
    ensures { result ≡ form_of verb }
{
    let none = Flags::none();
    match verb {
        Verb::Find | Verb::Show => words(1, 1, none),
        Verb::Insert => words(1, 1, none.with(Flag::Force).with(Flag::Multi)),
        Verb::Ls => words(0, 1, none.with(Flag::Flat)),
        Verb::Mounts | Verb::Recipients => Form {
            has_subcommands: true,
            ..words(0, 0, none)
        },
    }
}
