//! What is to change in a store.

ghost use Rattle.std.specs.Prelude.{◌≡◌, []};
ghost use Rattle.store_core.specs.declared.edit.ApplyFault.TheVariants.{NoMemory as no_memory};

use gopass_base::NoMemory;
use mount_table::{Folder, Name};
use recipient_files::Recipients;
use std::alloc::Global;

/// What is to change in one commit: rules of folders, secrets by the sealed bytes of their files, and
/// templates of folders. None stands for what is to go.
#[derive(Debug, Drop)]
pub struct Edit {
    pub rules: Vec<(Folder, Option<Recipients>)>,
    pub secrets: Vec<(Name, Option<Vec<u8>>)>,
    pub templates: Vec<(Folder, Option<Vec<u8>>)>,
}

impl Edit {
    /// Nothing is to change yet.
    pub fn new(alloc: Global) -> Edit
        ensures rules { result.rules.items ≡ [] }
        ensures secrets { result.secrets.items ≡ [] }
        ensures templates { result.templates.items ≡ [] }
    {
        Edit {
            rules: Vec::new(alloc),
            secrets: Vec::new(alloc),
            templates: Vec::new(alloc),
        }
    }
}

/// Why an edit was not made, or may have been made or not.
#[derive(Clone, Copy, Debug, PartialEq, Eq)]
pub enum ApplyFault {
    /// The disk failed: the edit is made whole or not at all, and the store is stuck.
    Disk,
    /// There was no memory: nothing changed, or it is as after `Disk`.
    NoMemory,
}

impl From<NoMemory> for ApplyFault {
    ghost from_gives = { λ _ e. e ≡ no_memory };

    fn from(_: NoMemory) -> Self {
        ApplyFault::NoMemory
    }
}
