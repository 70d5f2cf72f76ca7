//! The files below a mount's directory.

ghost use Rattle.std.specs.Prelude.{◌≡◌, ◌≢◌, ◌<◌, ◌≤◌, length, ⊤, IfOk, IsFalse, IsOk, Err};
ghost use Rattle.gopass_base.specs.Faults.{Costs, HasCause};
ghost use Rattle.gopass_base.specs.Paths.{path_in, service_text};
ghost use Rattle.disk_model.specs.Listing.{Lists, IsShort};
ghost use Rattle.disk_model.specs.Disk.{AsksUpTo};
ghost use Rattle.pending_journal.specs.Opened.{OnlyReads};
ghost use Rattle.pending_journal.specs.Service.{without_service};
ghost use Rattle.store_state.specs.Limits.{most_files, most_listed};
ghost use Rattle.store_state.specs.Tree.{IsFullTree, IsOwnOf, IsTree, others_than};
ghost use Rattle.store_state.specs.Faults.{GivesOrFull};

use crate::fault::{Limit, StoreFault};
use disk_model::{Disk, DiskFault, Listed};
use gopass_base::NoMemory;
use mount_table::{DirPath, FilePath, PathFault, ServiceFile};
use pending_journal::Vault;
use std::alloc::Global;

/// The most files below the directory of a mount.
pub const MOST_FILES: usize = 40_000;

/// The path of a directory as that of a file.
fn path_of(alloc: Global, dir: &DirPath) -> Result<FilePath, NoMemory>
    ensures { IfOk result (λ path. path ≡ dir.now) }
{
    match FilePath::read(alloc, dir.text()) {
        Ok(path) => Ok(path),
        Err(PathFault::NoMemory) => Err(NoMemory),
        Err(PathFault::Bad) => unreachable!(),
    }
}

/// The paths of the mounts file and the pending file.
#[derive(Debug, Drop)]
pub(crate) struct Own {
    pub(crate) mounts: FilePath,
    pub(crate) pending: FilePath,
}

impl Own {
    /// Those of the store below this root directory.
    pub(crate) fn of(alloc: Global, root: &DirPath) -> Result<Own, NoMemory>
        ensures mounts { IfOk result (λ own. own.mounts ≡ path_in root.now (service_text ServiceFile.Mounts)) }
        ensures pending { IfOk result (λ own. own.pending ≡ path_in root.now (service_text ServiceFile.Pending)) }
    {
        Ok(Own {
            mounts: root.service_file(alloc, ServiceFile::Mounts)?,
            pending: root.service_file(alloc, ServiceFile::Pending)?,
        })
    }
}

/// Those of the paths that are not the store's own.
fn not_own(own: &Own, paths: Vec<FilePath>) -> Vec<FilePath>
    ensures { result.items ≡ others_than own.now.mounts own.now.pending paths.items }
{
    let mut paths = paths;
    paths.retain(|path| path.text() != own.mounts.text() && path.text() != own.pending.text());
    paths
}

/// The paths, where there are at most 40,000.
fn few(paths: Vec<FilePath>) -> Result<Vec<FilePath>, StoreFault>
    ensures few { GivesOrFull (λ few. (few.items ≡ paths.items) × (length few.items ≤ most_files)) (most_files < length paths.items) result }
    ensures no_disk { result ≢ Err StoreFault.Disk }
{
    if paths.len() > MOST_FILES {
        return Err(StoreFault::Full(Limit::Files));
    }
    Ok(paths)
}

/// The paths of all files below the directory but the vault's own, where there are at most 40,002: of
/// the store's own there are two. It is one call of the disk.
fn all_below<D: Disk>(vault: &mut Vault<D>, dir: &FilePath) -> Result<Listed, DiskFault>
    ensures only_reads { OnlyReads vault.old vault.new }
    ensures listed { IfOk result (λ listed. D.meaning.tells → Lists (without_service vault.old.root (D.meaning.view vault.old.disk).files) dir.now most_listed listed) }
    ensures bound { IfOk result (IsShort most_listed) }
    ensures costs { IsFalse vault.old.stuck → Costs 1 (D.meaning.calls vault.old.disk) (D.meaning.calls vault.new.disk) ⊤ }
    ensures asks { IsFalse vault.old.stuck → AsksUpTo most_listed (D.meaning.asked vault.old.disk) (D.meaning.asked vault.new.disk) }
    ensures cause { HasCause (D.meaning.faults vault.old.disk) (D.meaning.faults vault.new.disk) (result ≡ Err DiskFault.Failed) }
{
    vault.list(dir, MOST_FILES + 2)
}

/// The paths of all files below the directory but the store's own, where there are at most 40,000.
pub(crate) fn list_tree<D: Disk>(
    alloc: Global,
    vault: &mut Vault<D>,
    own: &Own,
    dir: &DirPath,
) -> Result<Vec<FilePath>, StoreFault>
    requires { IsOwnOf vault.old.root own.now }
    ensures only_reads { OnlyReads vault.old vault.new }
    ensures lists { D.meaning.tells → GivesOrFull (λ paths. IsTree vault.old.root (D.meaning.view vault.old.disk).files dir.now paths.items)
        (IsFullTree vault.old.root (D.meaning.view vault.old.disk).files dir.now) result }
    ensures bound { IfOk result (λ paths. length paths.items ≤ most_files) }
    ensures costs { IsFalse vault.old.stuck → Costs 1 (D.meaning.calls vault.old.disk) (D.meaning.calls vault.new.disk) (IsOk result) }
    ensures cause { HasCause (D.meaning.faults vault.old.disk) (D.meaning.faults vault.new.disk) (result ≡ Err StoreFault.Disk) }
{
    let path = path_of(alloc, dir)?;
    match all_below(vault, &path)? {
        Listed::All(paths) => few(not_own(own, paths)),
        Listed::Many => Err(StoreFault::Full(Limit::Files)),
    }
}
