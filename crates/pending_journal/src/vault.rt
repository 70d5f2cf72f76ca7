//! A disk whose changes are whole.

ghost use Rattle.std.specs.Prelude.{◌≡◌, ◌↔◌, ◌+◌, ◌*◌, length, is_err, IsTrue, IsFalse, IsOk, OnOk, OnErr, Err};
ghost use Rattle.gopass_base.specs.Faults.{Costs, HasCause, counted};
ghost use Rattle.disk_model.specs.Disk.{IsDurable};
ghost use Rattle.disk_model.specs.Runs.{Leaves};
ghost use Rattle.pending_journal.specs.Redo.{IsAtRest, IsBeforeOrAfter};
ghost use Rattle.pending_journal.specs.Change.{changed};

use crate::change::Change;
use crate::commit::carry_out;
use disk_model::{Disk, DiskFault};
use gopass_base::DirPath;

/// Why a change was not committed.
#[derive(Clone, Copy, Debug, PartialEq, Eq)]
pub enum CommitFault {
    /// The disk failed. The change is made whole or not at all: open the disk again.
    Disk,
    /// An earlier commit failed.
    Stuck,
    /// As `Disk`, for want of memory.
    NoMemory,
}

/// The files of a store, below a root directory of a disk whose lock is had. Where no commit failed
/// they are the only image, and none of the vault's own files is there.
#[derive(Drop)]
pub struct Vault<D: Disk> {
    pub(crate) disk: D,
    pub(crate) root: DirPath,
    pub(crate) commits: u64,
    pub(crate) stuck: bool,
    ghost is_held: { IsTrue (D.meaning.held disk) },
    ghost at_rest: { IsFalse stuck → D.meaning.tells → IsAtRest root (D.meaning.view disk) },
}

impl<D: Disk> Vault<D> {
    /// The disk.
    pub fn into_disk(self) -> D
        ensures { result ≡ self.disk }
    {
        let Vault { disk, .. } = self;
        disk
    }

    /// The root directory.
    pub fn root(&self) -> &DirPath
        ensures { result.now ≡ self.now.root }
    {
        &self.root
    }

    /// How many changes were committed since the opening.
    pub fn commits(&self) -> u64
        ensures { result ≡ self.now.commits }
    {
        self.commits
    }

    /// Whether a commit failed, so that the vault is to be opened again.
    pub fn is_stuck(&self) -> bool
        ensures { result ≡ self.now.stuck }
    {
        self.stuck
    }

    /// Makes the change, which was built for the vault's root, whole or not at all: in two calls of
    /// the disk for each put, one for each drop, and seven. After `Disk` and `NoMemory` the vault is
    /// stuck and answers `Stuck`: its disk is to be opened again.
    pub fn commit(&mut self, change: &Change) -> Result<(), CommitFault>
        requires { change.now.root ≡ self.old.root }
        ensures made { OnOk result (D.meaning.tells → IsDurable (changed change.now (D.meaning.view self.old.disk).files) (D.meaning.view self.new.disk)) }
        ensures any_moment { IsFalse self.old.stuck → D.meaning.tells
            → Leaves (IsBeforeOrAfter self.old.root (D.meaning.view self.old.disk).files (changed change.now (D.meaning.view self.old.disk).files)) (D.meaning.view self.old.disk) (D.meaning.view self.new.disk) }
        ensures stuck_stays { IsTrue self.old.stuck → self.new.disk ≡ self.old.disk }
        ensures counted { OnOk result (self.new.commits ≡ counted self.old.commits) }
        ensures uncounted { OnErr result (self.new.commits ≡ self.old.commits) }
        ensures was_stuck { result ≡ Err CommitFault.Stuck ↔ IsTrue self.old.stuck }
        ensures is_stuck { self.new.stuck ≡ is_err result }
        ensures root { self.new.root ≡ self.old.root }
        ensures asked { D.meaning.asked self.new.disk ≡ D.meaning.asked self.old.disk }
        ensures costs { Costs (2 * length change.now.puts.items + length change.now.drops.items + 7) (D.meaning.calls self.old.disk) (D.meaning.calls self.new.disk) (IsOk result) }
        ensures cause { HasCause (D.meaning.faults self.old.disk) (D.meaning.faults self.new.disk) (result ≡ Err CommitFault.Disk) }
    {
        if self.stuck {
            return Err(CommitFault::Stuck);
        }
        match carry_out(&mut self.disk, change) {
            Ok(()) => {
                self.commits = self.commits.saturating_add(1);
                Ok(())
            }
            Err(DiskFault::Failed) => {
                self.stuck = true;
                Err(CommitFault::Disk)
            }
            Err(DiskFault::NoMemory) => {
                self.stuck = true;
                Err(CommitFault::NoMemory)
            }
        }
    }
}
