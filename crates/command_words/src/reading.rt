//! Reads the words of a command line.

ghost use Rattle.std.specs.Prelude.{◌≡◌, ◌≤◌, vec_len, map, string_bytes, IfOk};
ghost use Rattle.command_words.specs.Forms.{form_of};
ghost use Rattle.command_words.specs.Invocations.{only};
ghost use Rattle.command_words.specs.Words.{is_bad, words_in};
ghost use Rattle.command_words.specs.Reads.{ReadsWords, Sorts};
ghost use Rattle.command_words.specs.declared.reading.WordsFault.TheVariants.{NoMemory};

use crate::command::{Command, build};
use crate::kind::{Kind, kind_of};
use crate::options::Flags;
use crate::verb::{Form, Verb, form_of, verb_of};
use std::alloc::{AllocError, AllocFailed, Global};

/// Why words gave no command.
#[derive(Clone, Copy, Debug, PartialEq, Eq)]
pub enum WordsFault {
    /// The place from 0 of the first word that is bad, or the number of words where they end too
    /// early.
    Bad { at: usize },
    /// There was no memory for the command.
    NoMemory,
}

impl From<AllocError> for WordsFault {
    ghost from_gives = { λ _ e. e ≡ NoMemory };

    fn from(_: AllocError) -> Self {
        WordsFault::NoMemory
    }
}

impl<T: Drop> From<AllocFailed<T>> for WordsFault {
    ghost from_gives = { λ _ e. e ≡ NoMemory };

    fn from(_: AllocFailed<T>) -> Self {
        WordsFault::NoMemory
    }
}

/// The options and the plain words of a command.
#[derive(Debug, Drop)]
struct Sorting {
    flags: Flags,
    plain: Vec<String>,
}

/// Whether a word may not stand behind these options and so many plain words.
fn is_bad(form: Form, flags: Flags, count: usize, kind: Kind) -> bool
    ensures { result ≡ is_bad form flags count kind }
{
    match kind {
        Kind::Dashes => form.has_subcommands,
        Kind::Given(flag) => !form.flags.has(flag) || flags.has(flag),
        Kind::Plain => count >= form.most,
        Kind::Unknown => true,
    }
}

/// The options and the plain words among the words behind the command's own.
fn sort(alloc: Global, verb: Verb, words: &[String]) -> Result<Sorting, WordsFault>
    ensures sorted { Sorts result (form_of verb) (map string_bytes words.now) }
    ensures most { IfOk result (λ sorting. vec_len sorting.plain ≤ (form_of verb).most) }
    ensures taken { IfOk result (λ sorting. only (form_of verb).flags sorting.flags ≡ sorting.flags) }
{
    let form = form_of(verb);
    let mut flags = Flags::none();
    let mut plain = Vec::new(alloc);
    let mut is_behind = false;
    for (index, word) in words.iter().enumerate() {
        let kind = kind_of(is_behind, word);
        if is_bad(form, flags, plain.len(), kind) {
            return Err(WordsFault::Bad { at: index + 1 });
        }
        match kind {
            Kind::Dashes => is_behind = true,
            Kind::Given(flag) => flags = flags.with(flag),
            Kind::Plain => plain.push(word.clone()?)?,
            Kind::Unknown => unreachable!(),
        }
    }
    Ok(Sorting { flags, plain })
}

/// The command that the words give, with copies of its texts, or the place of the first word that
/// is bad, from 0: an unknown command, an option that the command does not have, an option that was
/// given before, or a plain word too many. Where no word is bad and the words end too early, the
/// place is their number.
pub fn read_words(alloc: Global, words: &[String]) -> Result<Command, WordsFault>
    ensures { ReadsWords result (words_in (map string_bytes words.now)) }
{
    let Some((first, rest)) = words.split_first() else {
        return Err(WordsFault::Bad { at: 0 });
    };
    let Some(verb) = verb_of(first) else {
        return Err(WordsFault::Bad { at: 0 });
    };
    let Sorting { flags, plain } = sort(alloc, verb, rest)?;
    if plain.len() < form_of(verb).least {
        return Err(WordsFault::Bad { at: words.len() });
    }
    Ok(build(verb, flags, plain))
}
