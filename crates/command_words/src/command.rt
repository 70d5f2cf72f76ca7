//! What a command line asks for.

ghost use Rattle.std.specs.Prelude.{◌≡◌, ◌≤◌, ◌∷◌, [], vec_len, map, string_bytes};
ghost use Rattle.std.specs.Option.{option_to_list};
ghost use Rattle.command_words.specs.Forms.{form_of};
ghost use Rattle.command_words.specs.Invocations.{only, invocation_of};
ghost use Rattle.command_words.specs.Takes.{takes};

use crate::options::Flags;
use crate::verb::Verb;

/// A command with its texts as they were given.
#[derive(Debug, Drop)]
pub enum Command {
    /// `show NAME`
    Show {
        name: String,
    },
    /// `ls [--flat] [FOLDER]`
    Ls {
        folder: Option<String>,
        flat: bool,
    },
    /// `find TEXT`
    Find {
        text: String,
    },
    /// `insert [-f] [-m] NAME`, where `force` is `-f` or `--force`, and `multi` is `-m` or
    /// `--multiline`
    Insert {
        name: String,
        force: bool,
        multi: bool,
    },
    /// `mounts`
    Mounts,
    /// `recipients`
    Recipients,
}

/// How much of the input a command takes for its body.
#[derive(Clone, Copy, Debug, PartialEq, Eq)]
pub enum Intake {
    /// The first line.
    Line,
    /// All that is left.
    All,
}

impl Command {
    /// What the command takes of the input, or None where it has no body.
    pub fn takes(&self) -> Option<Intake>
        ensures { result ≡ takes self.now }
    {
        match self {
            Command::Insert { multi: true, .. } => Some(Intake::All),
            Command::Insert { multi: false, .. } => Some(Intake::Line),
            _ => None,
        }
    }
}

/// The command with these options and plain words.
pub(crate) fn build(verb: Verb, flags: Flags, plain: Vec<String>) -> Command
    requires least { (form_of verb).least ≤ vec_len plain }
    requires most { vec_len plain ≤ (form_of verb).most }
    requires taken { only (form_of verb).flags flags ≡ flags }
    ensures { invocation_of result ≡ record { verb = verb; flags = flags; plain = map string_bytes plain.items } }
{
    match verb {
        Verb::Find => Command::Find { text: one(plain) },
        Verb::Insert => Command::Insert {
            name: one(plain),
            force: flags.force,
            multi: flags.multi,
        },
        Verb::Ls => Command::Ls {
            folder: at_most_one(plain),
            flat: flags.flat,
        },
        Verb::Mounts => Command::Mounts,
        Verb::Recipients => Command::Recipients,
        Verb::Show => Command::Show { name: one(plain) },
    }
}

/// The one word.
fn one(mut plain: Vec<String>) -> String
    requires { vec_len plain ≡ 1 }
    ensures { map string_bytes plain.items ≡ string_bytes result ∷ [] }
{
    plain.remove(0)
}

/// The word, where there is one.
fn at_most_one(mut plain: Vec<String>) -> Option<String>
    requires { vec_len plain ≤ 1 }
    ensures { map string_bytes plain.items ≡ map string_bytes (option_to_list result) }
{
    plain.pop()
}
