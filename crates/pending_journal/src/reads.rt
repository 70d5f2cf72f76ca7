//! What a vault shows of its files.

ghost use Rattle.std.specs.Prelude.{◌≡◌, ◌≤◌, ◌+◌, ◌-◌, ◌^◌, IfOk, IsFalse, true, false, ⊤, Err, length};
ghost use Rattle.gopass_base.specs.Faults.{Costs, HasCause, counted};
ghost use Rattle.disk_model.specs.Disk.{AsksUpTo};
ghost use Rattle.disk_model.specs.Answers.{Reads, IsWithin};
ghost use Rattle.disk_model.specs.Listing.{Lists, IsShort, IsAtMost};
ghost use Rattle.pending_journal.specs.Service.{is_service, others, without_service};
ghost use Rattle.pending_journal.specs.Opened.{OnlyReads};

use crate::service::is_service;
use crate::vault::Vault;
use disk_model::{Disk, DiskFault, Got, Listed};
use gopass_base::{DirPath, FilePath};

impl<D: Disk> Vault<D> {
    /// The file under the path, where it has at most `max` bytes, in one call of the disk. The vault's
    /// own files are absent, and the disk is not asked for them.
    pub fn read(&mut self, path: &FilePath, max: usize) -> Result<Got, DiskFault>
        ensures only_reads { OnlyReads self.old self.new }
        ensures got { IfOk result (λ got. D.meaning.tells → Reads (without_service self.old.root (D.meaning.view self.old.disk).files path.now) max got) }
        ensures bound { IfOk result (IsWithin max) }
        ensures asks { AsksUpTo max (D.meaning.asked self.old.disk) (D.meaning.asked self.new.disk) }
        ensures costs { Costs 1 (D.meaning.calls self.old.disk) (D.meaning.calls self.new.disk) (is_service self.old.root path.now ≡ false) }
        ensures own { is_service self.old.root path.now ≡ true → self.new.disk ≡ self.old.disk }
        ensures cause { HasCause (D.meaning.faults self.old.disk) (D.meaning.faults self.new.disk) (result ≡ Err DiskFault.Failed) }
    {
        if is_service(&self.root, path) {
            return Ok(Got::Absent);
        }
        self.disk.read(path, max)
    }

    /// The paths of all files below the directory but the vault's own, where there are at most
    /// `max`, as `Disk::list` gives them. It is one call of the disk, or two where the vault is stuck.
    pub fn list(&mut self, dir: &FilePath, max: usize) -> Result<Listed, DiskFault>
        ensures only_reads { OnlyReads self.old self.new }
        ensures listed { IfOk result (λ listed. D.meaning.tells → Lists (without_service self.old.root (D.meaning.view self.old.disk).files) dir.now max listed) }
        ensures bound { IfOk result (IsShort max) }
        ensures asks { IsFalse self.old.stuck → AsksUpTo max (D.meaning.asked self.old.disk) (D.meaning.asked self.new.disk) }
        ensures asks_most { AsksUpTo (max + (2 ^ 64 - 1)) (D.meaning.asked self.old.disk) (D.meaning.asked self.new.disk) }
        ensures costs { IsFalse self.old.stuck → Costs 1 (D.meaning.calls self.old.disk) (D.meaning.calls self.new.disk) ⊤ }
        ensures most { Costs 2 (D.meaning.calls self.old.disk) (D.meaning.calls self.new.disk) ⊥ }
        ensures cause { HasCause (D.meaning.faults self.old.disk) (D.meaning.faults self.new.disk) (result ≡ Err DiskFault.Failed) }
    {
        match self.disk.list(dir, max)? {
            Listed::All(paths) => Ok(Listed::All(others(&self.root, paths))),
            Listed::Many if !self.stuck => Ok(Listed::Many),
            Listed::Many => self.list_all(dir, max),
        }
    }

    /// The same by a listing of all files, where there are more than `max` with the vault's own. A
    /// vault that is not stuck has none of its own there, so only a stuck one needs it.
    fn list_all(&mut self, dir: &FilePath, max: usize) -> Result<Listed, DiskFault>
        ensures only_reads { OnlyReads self.old self.new }
        ensures listed { IfOk result (λ listed. D.meaning.tells → Lists (without_service self.old.root (D.meaning.view self.old.disk).files) dir.now max listed) }
        ensures bound { IfOk result (IsShort max) }
        ensures asks { AsksUpTo (2 ^ 64 - 1) (D.meaning.asked self.old.disk) (D.meaning.asked self.new.disk) }
        ensures counted { D.meaning.calls self.new.disk ≡ counted (D.meaning.calls self.old.disk) }
        ensures later { D.meaning.calls self.old.disk ≤ D.meaning.calls self.new.disk }
        ensures cause { HasCause (D.meaning.faults self.old.disk) (D.meaning.faults self.new.disk) (result ≡ Err DiskFault.Failed) }
    {
        match self.disk.list(dir, usize::MAX)? {
            Listed::All(paths) => Ok(at_most(others(&self.root, paths), max)),
            Listed::Many => unreachable!(),
        }
    }
}

/// Those of the paths that are not the vault's own.
fn others(root: &DirPath, paths: Vec<FilePath>) -> Vec<FilePath>
    ensures others { result.items ≡ others root.now paths.items }
    ensures few { length result.items ≤ length paths.items }
{
    let mut paths = paths;
    paths.retain(|path| !is_service(root, path));
    paths
}

/// The paths, where there are at most `max`.
fn at_most(paths: Vec<FilePath>, max: usize) -> Listed
    ensures content { IsAtMost paths.items max result }
    ensures short { IsShort max result }
{
    if paths.len() <= max {
        Listed::All(paths)
    } else {
        Listed::Many
    }
}
