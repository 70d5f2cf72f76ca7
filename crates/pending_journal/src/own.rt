//! The paths of the vault's own files.

ghost use Rattle.std.specs.Prelude.{◌≡◌, IfOk};
ghost use Rattle.pending_journal.specs.Own.{AreVaultPaths};

use gopass_base::{DirPath, FilePath, NoMemory, ServiceFile};
use std::alloc::Global;

/// The root directory, the journal, its new text and the directory of the stage.
#[derive(Debug, Drop)]
pub(crate) struct OwnPaths {
    pub(crate) root: DirPath,
    pub(crate) journal: FilePath,
    pub(crate) fresh: FilePath,
    pub(crate) stage: FilePath,
    ghost own: { AreVaultPaths root journal fresh stage },
}

/// The vault's own paths below a root directory.
pub(crate) fn own_paths(alloc: Global, root: &DirPath) -> Result<OwnPaths, NoMemory>
    ensures { IfOk result (λ own. own.root ≡ root.now) }
{
    Ok(OwnPaths {
        root: root.copy(alloc)?,
        journal: root.service_file(alloc, ServiceFile::Journal)?,
        fresh: root.file_at(alloc, ".gopass-journal.new")?,
        stage: root.file_at(alloc, ".gopass-stage")?,
    })
}
