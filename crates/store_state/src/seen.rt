//! What is found below the mounts of a store.

ghost use Rattle.std.specs.Prelude.{◌≡◌, ◌<◌, ◌≤◌, [], length, All, IsFalse, IsOk, IfOk, OnOk, Err};
ghost use Rattle.gopass_base.specs.Faults.{Costs, HasCause};
ghost use Rattle.mount_table.specs.Mounts.{row_at};
ghost use Rattle.pending_journal.specs.Opened.{OnlyReads};
ghost use Rattle.store_state.specs.Limits.{most_files};
ghost use Rattle.store_state.specs.Faults.{GivesOrFull};
ghost use Rattle.store_state.specs.Tree.{IsFullTree, IsOwnOf};
ghost use Rattle.store_state.specs.Survey.{IsFullMount, IsMountSeen, IsSurvey};
ghost use Rattle.store_state.specs.Found.{AllLieBelow, LiesBelow, AddsPaths, IsSameSeen, IsWith, LiesAs};
ghost use Rattle.store_state.specs.declared.kind.Kind.{Kind as What};

use crate::fault::StoreFault;
use crate::kind::{Kind, kind_of};
use crate::tree::{Own, list_tree};
use disk_model::{Disk, rest_in};
use gopass_base::{NoMemory, copies};
use mount_table::{FilePath, Folder, Mounts, Name};
use pending_journal::Vault;
use std::alloc::Global;

/// The secrets, the rules and the templates that were found, and the paths that are shadowed or strange.
#[derive(Debug, Drop)]
pub struct Seen {
    pub names: Vec<Name>,
    pub rules: Vec<Folder>,
    pub templates: Vec<Folder>,
    pub strange: Vec<FilePath>,
    pub shadowed: Vec<FilePath>,
}

impl Seen {
    /// Nothing was found yet.
    pub(crate) fn new(alloc: Global) -> Seen
        ensures names { result.names.items ≡ [] }
        ensures rules { result.rules.items ≡ [] }
        ensures templates { result.templates.items ≡ [] }
        ensures strange { result.strange.items ≡ [] }
        ensures shadowed { result.shadowed.items ≡ [] }
    {
        Seen {
            names: Vec::new(alloc),
            rules: Vec::new(alloc),
            templates: Vec::new(alloc),
            strange: Vec::new(alloc),
            shadowed: Vec::new(alloc),
        }
    }
}

impl Seen {
    /// The same lists once more.
    pub(crate) fn copy(&self, alloc: Global) -> Result<Seen, NoMemory>
        ensures { IfOk result (IsSameSeen self.now) }
    {
        Ok(Seen {
            names: copies(alloc, &self.names)?,
            rules: copies(alloc, &self.rules)?,
            templates: copies(alloc, &self.templates)?,
            strange: copies(alloc, &self.strange)?,
            shadowed: copies(alloc, &self.shadowed)?,
        })
    }
}

/// Adds what a path of this kind gives.
fn add(alloc: Global, seen: &mut Seen, kind: Kind, path: &FilePath) -> Result<(), NoMemory>
    ensures { OnOk result (IsWith seen.old seen.new kind path.now) }
{
    match kind {
        Kind::Secret(name) => Ok(seen.names.push(name)?),
        Kind::Rule(folder) => Ok(seen.rules.push(folder)?),
        Kind::Template(folder) => Ok(seen.templates.push(folder)?),
        Kind::Strange => Ok(seen.strange.push(path.copy(alloc)?)?),
        Kind::Shadowed => Ok(seen.shadowed.push(path.copy(alloc)?)?),
        Kind::Hidden => Ok(()),
    }
}

/// Adds what a path gives, where it lies below the mount of this row.
fn add_path(
    alloc: Global,
    seen: &mut Seen,
    mounts: &Mounts,
    row: usize,
    path: &FilePath,
) -> Result<(), NoMemory>
    requires { row < length mounts.now }
    ensures { LiesBelow mounts.now row path.now → OnOk result ((kind : What) × LiesAs mounts.now row kind path.now × IsWith seen.old seen.new kind path.now) }
{
    let rows = mounts.rows();
    match rest_in(rows[row].dir.text(), path.text()) {
        Some(rest) => {
            let kind = kind_of(alloc, mounts, row, rest)?;
            add(alloc, seen, kind, path)
        }
        None => Ok(()),
    }
}

/// Adds what the paths below the mount of this row give.
pub(crate) fn add_paths(
    alloc: Global,
    seen: &mut Seen,
    mounts: &Mounts,
    row: usize,
    paths: &[FilePath],
) -> Result<(), NoMemory>
    requires { row < length mounts.now }
    ensures { AllLieBelow mounts.now row paths.now → OnOk result (AddsPaths mounts.now row paths.now seen.old seen.new) }
{
    for path in paths {
        add_path(alloc, seen, mounts, row, path)?;
    }
    Ok(())
}

/// Lists the directory of the mount of this row, adds what its paths give, and answers how many they
/// are.
fn add_mount<D: Disk>(
    alloc: Global,
    vault: &mut Vault<D>,
    own: &Own,
    mounts: &Mounts,
    row: usize,
    seen: &mut Seen,
) -> Result<usize, StoreFault>
    requires inside { row < length mounts.now }
    requires own { IsOwnOf vault.old.root own.now }
    ensures only_reads { OnlyReads vault.old vault.new }
    ensures lists { D.meaning.tells → GivesOrFull (λ count. IsMountSeen vault.old.root (D.meaning.view vault.old.disk).files mounts.now row seen.old seen.new count)
        (IsFullTree vault.old.root (D.meaning.view vault.old.disk).files (row_at mounts.now row).dir) result }
    ensures bound { IfOk result (λ count. count ≤ most_files) }
    ensures costs { IsFalse vault.old.stuck → Costs 1 (D.meaning.calls vault.old.disk) (D.meaning.calls vault.new.disk) (IsOk result) }
    ensures cause { HasCause (D.meaning.faults vault.old.disk) (D.meaning.faults vault.new.disk) (result ≡ Err StoreFault.Disk) }
{
    let rows = mounts.rows();
    let paths = list_tree(alloc, vault, own, &rows[row].dir)?;
    add_paths(alloc, seen, mounts, row, &paths)?;
    Ok(paths.len())
}

/// Lists the directories of all mounts, and answers what was found and how many files each has.
pub(crate) fn survey<D: Disk>(
    alloc: Global,
    vault: &mut Vault<D>,
    own: &Own,
    mounts: &Mounts,
) -> Result<(Seen, Vec<usize>), StoreFault>
    requires { IsOwnOf vault.old.root own.now }
    ensures only_reads { OnlyReads vault.old vault.new }
    ensures lists { D.meaning.tells → GivesOrFull (λ found. IsSurvey vault.old.root (D.meaning.view vault.old.disk).files mounts.now found.0 found.1.items)
        (IsFullMount vault.old.root (D.meaning.view vault.old.disk).files mounts.now) result }
    ensures bound { IfOk result (λ found. All (λ count. count ≤ most_files) found.1.items) }
    ensures costs { IsFalse vault.old.stuck → Costs (length mounts.now) (D.meaning.calls vault.old.disk) (D.meaning.calls vault.new.disk) (IsOk result) }
    ensures cause { HasCause (D.meaning.faults vault.old.disk) (D.meaning.faults vault.new.disk) (result ≡ Err StoreFault.Disk) }
{
    let mut seen = Seen::new(alloc);
    let mut counts = Vec::new(alloc);
    for row in 0..mounts.rows().len() {
        counts.push(add_mount(alloc, vault, own, mounts, row, &mut seen)?)?;
    }
    Ok((seen, counts))
}
