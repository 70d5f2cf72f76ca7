//! What a command does to a store: its words as names, folders and texts.

ghost use Rattle.std.specs.Prelude.{◌≡◌, ◌⊎◌, IfErr, IfOk, Err, Ok, None};
ghost use Rattle.mount_table.specs.declared.name.BadName.{BadName};
ghost use Rattle.mount_table.specs.FaultOf.{folder_fault, name_fault};
ghost use Rattle.mount_table.specs.Folders.{without_slash};
ghost use Rattle.store_core.specs.Plans.{Refused, Misnamed};
ghost use Rattle.store_core.specs.declared.refusal.Refusal.TheVariants as refusal;
ghost use Rattle.gopass_cli.specs.Actions.{action_of, folder_word, subject};
ghost use Rattle.gopass_cli.specs.Outcomes.{ComesTo, IsInner, IsMisread, meant};

use crate::outcome::{Outcome, no_memory};
use command_words::Command;
use gopass_base::Utf8;
use mount_table::{Folder, Name, NameFault};
use std::alloc::Global;

/// What a command does to a store.
#[derive(Debug, Drop)]
pub(crate) enum Action {
    Show(Name),
    /// A secret, and whether it is written over where it is there.
    Insert(Name, bool),
    /// A folder, and whether its secrets are listed by their full names.
    Ls(Folder, bool),
    Find(Utf8),
    Mounts,
    Recipients,
}

/// What comes of a word that names nothing.
fn misnamed(alloc: Global, word: &str, fault: NameFault) -> Outcome
    ensures bad { (bad : BadName) → fault ≡ NameFault.Bad bad → ComesTo (Misnamed word.now bad.at) (meant result) }
    ensures full { fault ≡ NameFault.NoMemory → meant result ≡ Refused refusal.NoMemory }
    ensures own { IsInner (meant result) }
{
    match fault {
        NameFault::Bad(bad) => match Utf8::of(alloc, word) {
            Ok(word) => Outcome::Misnamed(word, bad.at),
            Err(_) => no_memory(),
        },
        NameFault::NoMemory => no_memory(),
    }
}

/// The name that the word is.
fn name_in(alloc: Global, word: &str) -> Result<Name, Outcome>
    ensures good { IfOk result (λ name. (name ≡ word.now) × (name_fault word.now ≡ None)) }
    ensures bad { IfErr result (λ outcome. IsMisread (name_fault word.now) word.now (meant outcome)) }
    ensures own { IfErr result (λ outcome. IsInner (meant outcome)) }
{
    match Name::read(alloc, word) {
        Ok(name) => Ok(name),
        Err(fault) => Err(misnamed(alloc, word, fault)),
    }
}

/// The folder that the word names.
fn folder_in(alloc: Global, word: &str) -> Result<Folder, Outcome>
    ensures good { IfOk result (λ folder. (folder ≡ without_slash word.now) × (folder_fault word.now ≡ None)) }
    ensures bad { IfErr result (λ outcome. IsMisread (folder_fault word.now) word.now (meant outcome)) }
    ensures own { IfErr result (λ outcome. IsInner (meant outcome)) }
{
    match Folder::read(alloc, word) {
        Ok(folder) => Ok(folder),
        Err(fault) => Err(misnamed(alloc, word, fault)),
    }
}

/// The word of a folder: that of the root folder where there is none.
fn folder_word(folder: &Option<String>) -> &str
    ensures { result.now ≡ folder_word folder.now }
{
    match folder {
        Some(word) => word,
        None => "/",
    }
}

/// The search for the text.
fn find(alloc: Global, text: &str) -> Result<Action, Outcome>
    ensures good { IfOk result (λ action. action ≡ Action.Find text.now) }
    ensures bad { IfErr result (λ outcome. meant outcome ≡ Refused refusal.NoMemory) }
    ensures own { IfErr result (λ outcome. IsInner (meant outcome)) }
{
    match Utf8::of(alloc, text) {
        Ok(text) => Ok(Action::Find(text)),
        Err(_) => Err(no_memory()),
    }
}

impl Action {
    /// The action of the command.
    pub(crate) fn read(alloc: Global, command: &Command) -> Result<Action, Outcome>
        ensures good { IfOk result (λ action. action_of command.now ≡ Ok action) }
        ensures bad { IfErr result (λ outcome. (meant outcome ≡ Refused refusal.NoMemory) ⊎ (action_of command.now ≡ Err (meant outcome))) }
        ensures own { IfErr result (λ outcome. IsInner (meant outcome)) }
    {
        match command {
            Command::Show { name } => Ok(Action::Show(name_in(alloc, name)?)),
            Command::Insert { name, force, .. } => Ok(Action::Insert(
                name_in(alloc, name)?,
                *force,
            )),
            Command::Ls { folder, flat } => {
                Ok(Action::Ls(folder_in(alloc, folder_word(folder))?, *flat))
            }
            Command::Find { text } => find(alloc, text),
            Command::Mounts => Ok(Action::Mounts),
            Command::Recipients => Ok(Action::Recipients),
        }
    }

    /// The name or the folder that it is about.
    pub(crate) fn subject(&self) -> &str
        ensures { result.now ≡ subject self.now }
    {
        match self {
            Action::Show(name) | Action::Insert(name, _) => name.text(),
            Action::Ls(folder, _) => folder.text(),
            _ => "",
        }
    }
}
