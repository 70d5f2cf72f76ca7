//! The steps of a commit.

ghost use Rattle.std.specs.Prelude.{◌≡◌, ◌+◌, ◌*◌, length, None, IsOk, OnOk, Err};
ghost use Rattle.gopass_base.specs.Faults.{Costs, HasCause};
ghost use Rattle.disk_model.specs.Files.{put, moved};
ghost use Rattle.disk_model.specs.Disk.{Only, IsDurable};
ghost use Rattle.disk_model.specs.Runs.{Runs, Leaves};
ghost use Rattle.pending_journal.specs.Redo.{IsAtRest, IsBeforeOrAfter};
ghost use Rattle.pending_journal.specs.Change.{plan_in, changed};
ghost use Rattle.pending_journal.specs.Carrying.{IsUnseen, IsOfPlan, IsEither, IsStaged, IsFetched, IsRemoved, IsSameBut, IsReady, IsCarried};

use crate::change::Change;
use disk_model::{Disk, DiskFault};
use gopass_base::FilePath;

/// Writes the bytes of each put to its place in the stage.
fn stage<D: Disk>(disk: &mut D, change: &Change) -> Result<(), DiskFault>
    ensures runs { D.meaning.tells → Runs (IsUnseen change.now.root) (D.meaning.view disk.old) (D.meaning.view disk.new) }
    ensures staged { OnOk result (D.meaning.tells → IsStaged change.now (length change.now.puts.items) (D.meaning.view disk.old).files (D.meaning.view disk.new).files) }
    ensures held { D.meaning.held disk.new ≡ D.meaning.held disk.old }
    ensures asked { D.meaning.asked disk.new ≡ D.meaning.asked disk.old }
    ensures costs { Costs (length change.now.puts.items) (D.meaning.calls disk.old) (D.meaning.calls disk.new) (IsOk result) }
    ensures cause { HasCause (D.meaning.faults disk.old) (D.meaning.faults disk.new) (result ≡ Err DiskFault.Failed) }
{
    for put in &change.puts {
        disk.write(&put.staged, &put.bytes)?;
    }
    Ok(())
}

/// Moves each staged file to its path.
fn fetch<D: Disk>(disk: &mut D, change: &Change) -> Result<(), DiskFault>
    ensures runs { D.meaning.tells → Runs (IsOfPlan change.now.root (plan_in change.now)) (D.meaning.view disk.old) (D.meaning.view disk.new) }
    ensures fetched { OnOk result (D.meaning.tells → IsFetched change.now (length change.now.puts.items) (D.meaning.view disk.old).files (D.meaning.view disk.new).files) }
    ensures held { D.meaning.held disk.new ≡ D.meaning.held disk.old }
    ensures asked { D.meaning.asked disk.new ≡ D.meaning.asked disk.old }
    ensures costs { Costs (length change.now.puts.items) (D.meaning.calls disk.old) (D.meaning.calls disk.new) (IsOk result) }
    ensures cause { HasCause (D.meaning.faults disk.old) (D.meaning.faults disk.new) (result ≡ Err DiskFault.Failed) }
{
    for put in &change.puts {
        disk.rename(&put.staged, &put.path)?;
    }
    Ok(())
}

/// Removes the files at these paths.
pub(crate) fn remove_all<D: Disk>(disk: &mut D, paths: &[FilePath]) -> Result<(), DiskFault>
    ensures runs { D.meaning.tells → Runs (IsSameBut paths.now) (D.meaning.view disk.old) (D.meaning.view disk.new) }
    ensures removed { OnOk result (D.meaning.tells → IsRemoved paths.now (length paths.now) (D.meaning.view disk.old).files (D.meaning.view disk.new).files) }
    ensures held { D.meaning.held disk.new ≡ D.meaning.held disk.old }
    ensures asked { D.meaning.asked disk.new ≡ D.meaning.asked disk.old }
    ensures costs { Costs (length paths.now) (D.meaning.calls disk.old) (D.meaning.calls disk.new) (IsOk result) }
    ensures cause { HasCause (D.meaning.faults disk.old) (D.meaning.faults disk.new) (result ≡ Err DiskFault.Failed) }
{
    for path in paths {
        disk.remove(path)?;
    }
    Ok(())
}

/// Stages the puts, writes the journal under its first name and syncs. None of it is seen.
fn prepare<D: Disk>(disk: &mut D, change: &Change) -> Result<(), DiskFault>
    ensures runs { D.meaning.tells → Runs (IsUnseen change.now.root) (D.meaning.view disk.old) (D.meaning.view disk.new) }
    ensures ready { OnOk result (D.meaning.tells → IsReady change.now (D.meaning.view disk.old).files (D.meaning.view disk.new).files) }
    ensures only { OnOk result (D.meaning.tells → Only (D.meaning.view disk.new).files (D.meaning.view disk.new)) }
    ensures held { D.meaning.held disk.new ≡ D.meaning.held disk.old }
    ensures asked { D.meaning.asked disk.new ≡ D.meaning.asked disk.old }
    ensures costs { Costs (length change.now.puts.items + 2) (D.meaning.calls disk.old) (D.meaning.calls disk.new) (IsOk result) }
    ensures cause { HasCause (D.meaning.faults disk.old) (D.meaning.faults disk.new) (result ≡ Err DiskFault.Failed) }
{
    stage(disk, change)?;
    disk.write(&change.fresh, &change.text)?;
    disk.sync()
}

/// Gives the journal its name and syncs. From then on the change is made.
fn seal<D: Disk>(disk: &mut D, change: &Change) -> Result<(), DiskFault>
    ensures leaves { D.meaning.tells → Only (D.meaning.view disk.old).files (D.meaning.view disk.old)
        → Leaves (IsEither (D.meaning.view disk.old).files (moved change.now.fresh change.now.journal (D.meaning.view disk.old).files)) (D.meaning.view disk.old) (D.meaning.view disk.new) }
    ensures sealed { OnOk result (D.meaning.tells → IsDurable (moved change.now.fresh change.now.journal (D.meaning.view disk.old).files) (D.meaning.view disk.new)) }
    ensures held { D.meaning.held disk.new ≡ D.meaning.held disk.old }
    ensures asked { D.meaning.asked disk.new ≡ D.meaning.asked disk.old }
    ensures costs { Costs 2 (D.meaning.calls disk.old) (D.meaning.calls disk.new) (IsOk result) }
    ensures cause { HasCause (D.meaning.faults disk.old) (D.meaning.faults disk.new) (result ≡ Err DiskFault.Failed) }
{
    disk.rename(&change.fresh, &change.journal)?;
    disk.sync()
}

/// Does what the journal says and syncs.
pub(crate) fn settle<D: Disk>(disk: &mut D, change: &Change) -> Result<(), DiskFault>
    ensures runs { D.meaning.tells → Runs (IsOfPlan change.now.root (plan_in change.now)) (D.meaning.view disk.old) (D.meaning.view disk.new) }
    ensures carried { OnOk result (D.meaning.tells → IsCarried change.now (D.meaning.view disk.old).files (D.meaning.view disk.new).files) }
    ensures only { OnOk result (D.meaning.tells → Only (D.meaning.view disk.new).files (D.meaning.view disk.new)) }
    ensures held { D.meaning.held disk.new ≡ D.meaning.held disk.old }
    ensures asked { D.meaning.asked disk.new ≡ D.meaning.asked disk.old }
    ensures costs { Costs (length change.now.puts.items + length change.now.drops.items + 1) (D.meaning.calls disk.old) (D.meaning.calls disk.new) (IsOk result) }
    ensures cause { HasCause (D.meaning.faults disk.old) (D.meaning.faults disk.new) (result ≡ Err DiskFault.Failed) }
{
    fetch(disk, change)?;
    remove_all(disk, &change.drops)?;
    disk.sync()
}

/// Takes the journal away and syncs.
pub(crate) fn finish<D: Disk>(disk: &mut D, journal: &FilePath) -> Result<(), DiskFault>
    ensures leaves { D.meaning.tells → Only (D.meaning.view disk.old).files (D.meaning.view disk.old)
        → Leaves (IsEither (D.meaning.view disk.old).files (put (D.meaning.view disk.old).files journal.now None)) (D.meaning.view disk.old) (D.meaning.view disk.new) }
    ensures ended { OnOk result (D.meaning.tells → IsDurable (put (D.meaning.view disk.old).files journal.now None) (D.meaning.view disk.new)) }
    ensures held { D.meaning.held disk.new ≡ D.meaning.held disk.old }
    ensures asked { D.meaning.asked disk.new ≡ D.meaning.asked disk.old }
    ensures costs { Costs 2 (D.meaning.calls disk.old) (D.meaning.calls disk.new) (IsOk result) }
    ensures cause { HasCause (D.meaning.faults disk.old) (D.meaning.faults disk.new) (result ≡ Err DiskFault.Failed) }
{
    disk.remove(journal)?;
    disk.sync()
}

/// Makes the change whole or not at all.
pub(crate) fn carry_out<D: Disk>(disk: &mut D, change: &Change) -> Result<(), DiskFault>
    requires rests { D.meaning.tells → IsAtRest change.now.root (D.meaning.view disk.old) }
    ensures any_moment { D.meaning.tells → Leaves (IsBeforeOrAfter change.now.root (D.meaning.view disk.old).files (changed change.now (D.meaning.view disk.old).files)) (D.meaning.view disk.old) (D.meaning.view disk.new) }
    ensures made { OnOk result (D.meaning.tells → IsDurable (changed change.now (D.meaning.view disk.old).files) (D.meaning.view disk.new)) }
    ensures at_rest { OnOk result (D.meaning.tells → IsAtRest change.now.root (D.meaning.view disk.new)) }
    ensures held { D.meaning.held disk.new ≡ D.meaning.held disk.old }
    ensures asked { D.meaning.asked disk.new ≡ D.meaning.asked disk.old }
    ensures costs { Costs (2 * length change.now.puts.items + length change.now.drops.items + 7) (D.meaning.calls disk.old) (D.meaning.calls disk.new) (IsOk result) }
    ensures cause { HasCause (D.meaning.faults disk.old) (D.meaning.faults disk.new) (result ≡ Err DiskFault.Failed) }
{
    prepare(disk, change)?;
    seal(disk, change)?;
    settle(disk, change)?;
    finish(disk, &change.journal)
}
