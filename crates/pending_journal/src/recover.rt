//! What a crash left is made whole.

ghost use Rattle.std.specs.Prelude.{◌≡◌, ◌≤◌, ◌+◌, ◌-◌, ◌^◌, ℕ, List, length, ⊤, None, Some, MatchOption, IfOk, IfErr, IsOk, IsTrue, IsFalse, OnOk, OnErr, Err};
ghost use Rattle.gopass_base.specs.Faults.{Costs, HasCause, counted};
ghost use Rattle.disk_model.specs.Disk.{AsksUpTo, Rests, Syncs, Only};
ghost use Rattle.gopass_base.specs.Text.{Text};
ghost use Rattle.disk_model.specs.Listing.{IsListing};
ghost use Rattle.disk_model.specs.Runs.{Runs, Leaves};
ghost use Rattle.pending_journal.specs.Service.{stage_dir};
ghost use Rattle.pending_journal.specs.Journal.{most_bytes};
ghost use Rattle.pending_journal.specs.Redo.{RecoversTo, IsAlike, IsAtRest};
ghost use Rattle.pending_journal.specs.Carrying.{IsUnseen};
ghost use Rattle.pending_journal.specs.Change.{plan_in};
ghost use Rattle.pending_journal.specs.Recovery.{IsOldOrAlike, IsSameOrAlike, IsUntouched, IsMended, IsCleared};
ghost use Rattle.pending_journal.specs.Faults.{RefusesVault, HasBadJournal};
ghost use Rattle.pending_journal.specs.Costs.{IsMovedFrom, MendTakes, IsMendedIn, IsClearedIn, IsOpenedIn, IsNoMore};

use crate::change::Change;
use crate::commit::{finish, remove_all, settle};
use crate::fault::VaultFault;
use crate::own::{OwnPaths, own_paths};
use crate::read::read_journal;
use disk_model::{Disk, DiskFault, Got, Listed};
use gopass_base::DirPath;
use std::alloc::Global;

/// How many bytes a journal has at most.
const MAX_JOURNAL: usize = 20_000_000;

/// The change of the journal, where one is there.
fn find_journal<D: Disk>(
    alloc: Global,
    disk: &mut D,
    own: &OwnPaths,
) -> Result<Option<Change>, VaultFault>
    requires held { IsTrue (D.meaning.held disk.old) }
    ensures rests { D.meaning.tells → Rests (D.meaning.view disk.old) (D.meaning.view disk.new) }
    ensures found { IfOk result (λ found. MatchOption found (D.meaning.tells → (D.meaning.view disk.old).files own.now.journal ≡ None)
        (λ change. (change.root ≡ own.now.root) × (D.meaning.tells → (D.meaning.view disk.old).files own.now.journal ≡ Some change.text.items))) }
    ensures bound { IfOk result (λ found. MatchOption found ⊤ (λ change. length change.text.items ≤ most_bytes)) }
    ensures refuses { IfErr result (λ fault. D.meaning.tells → RefusesVault own.now.root (D.meaning.view disk.old).files fault) }
    ensures held { D.meaning.held disk.new ≡ D.meaning.held disk.old }
    ensures asks { AsksUpTo most_bytes (D.meaning.asked disk.old) (D.meaning.asked disk.new) }
    ensures counted { D.meaning.calls disk.new ≡ counted (D.meaning.calls disk.old) }
    ensures later { D.meaning.calls disk.old ≤ D.meaning.calls disk.new }
    ensures cause { HasCause (D.meaning.faults disk.old) (D.meaning.faults disk.new) (result ≡ Err VaultFault.Disk) }
{
    match disk.read(&own.journal, MAX_JOURNAL)? {
        Got::Absent => Ok(None),
        Got::Bytes(text) => Ok(Some(read_journal(alloc, &own.root, &text)?)),
        Got::Long => Err(VaultFault::BadJournal(1)),
    }
}

/// Makes the change of a journal that is there, and takes the journal away.
fn redo<D: Disk>(disk: &mut D, change: &Change) -> Result<(), DiskFault>
    requires held { IsTrue (D.meaning.held disk.old) }
    requires sealed { D.meaning.tells → ((D.meaning.view disk.old).files change.now.journal ≡ Some change.now.text.items) × Only (D.meaning.view disk.old).files (D.meaning.view disk.old) }
    ensures alike { D.meaning.tells → Leaves (IsAlike change.now.root (D.meaning.view disk.old).files) (D.meaning.view disk.old) (D.meaning.view disk.new) }
    ensures mended { OnOk result (D.meaning.tells → IsMended change.now.root (D.meaning.view disk.old).files (D.meaning.view disk.new)) }
    ensures moved { OnOk result (D.meaning.tells → IsMovedFrom change.now.root (plan_in change.now).puts (D.meaning.view disk.old).files (D.meaning.view disk.new).files) }
    ensures held { D.meaning.held disk.new ≡ D.meaning.held disk.old }
    ensures asked { D.meaning.asked disk.new ≡ D.meaning.asked disk.old }
    ensures costs { Costs (length change.now.puts.items + length change.now.drops.items + 3) (D.meaning.calls disk.old) (D.meaning.calls disk.new) (IsOk result) }
    ensures cause { HasCause (D.meaning.faults disk.old) (D.meaning.faults disk.new) (result ≡ Err DiskFault.Failed) }
{
    settle(disk, change)?;
    finish(disk, &change.journal)
}

/// Makes the change of the journal, where one is there.
fn mend<D: Disk>(alloc: Global, disk: &mut D, own: &OwnPaths) -> Result<(), VaultFault>
    requires held { IsTrue (D.meaning.held disk.old) }
    requires only { D.meaning.tells → Only (D.meaning.view disk.old).files (D.meaning.view disk.old) }
    ensures alike { D.meaning.tells → Leaves (IsSameOrAlike own.now.root (D.meaning.view disk.old).files) (D.meaning.view disk.old) (D.meaning.view disk.new) }
    ensures mended { OnOk result (D.meaning.tells → IsMended own.now.root (D.meaning.view disk.old).files (D.meaning.view disk.new)) }
    ensures refuses { IfErr result (λ fault. D.meaning.tells → RefusesVault own.now.root (D.meaning.view disk.old).files fault) }
    ensures untouched { (n : _) → result ≡ Err (VaultFault.BadJournal n) → D.meaning.tells → IsUntouched (D.meaning.view disk.old) (D.meaning.view disk.new) }
    ensures held { D.meaning.held disk.new ≡ D.meaning.held disk.old }
    ensures asks { AsksUpTo most_bytes (D.meaning.asked disk.old) (D.meaning.asked disk.new) }
    ensures costs { OnOk result (D.meaning.tells → IsMendedIn own.now.root (D.meaning.view disk.old).files (D.meaning.view disk.new).files (D.meaning.calls disk.old) (D.meaning.calls disk.new)) }
    ensures few { OnErr result (D.meaning.tells → (n : ℕ) → MendTakes own.now.root ((D.meaning.view disk.old).files own.now.journal) n → Costs n (D.meaning.calls disk.old) (D.meaning.calls disk.new) ⊥) }
    ensures bad { OnErr result (D.meaning.tells → HasBadJournal own.now.root (D.meaning.view disk.old).files → Costs 1 (D.meaning.calls disk.old) (D.meaning.calls disk.new) ⊥) }
    ensures counted { (k : _) → result ≡ Err (VaultFault.BadJournal k) → D.meaning.calls disk.new ≡ counted (D.meaning.calls disk.old) }
    ensures later { D.meaning.calls disk.old ≤ D.meaning.calls disk.new }
    ensures cause { HasCause (D.meaning.faults disk.old) (D.meaning.faults disk.new) (result ≡ Err VaultFault.Disk) }
{
    match find_journal(alloc, disk, own)? {
        None => Ok(()),
        Some(change) => Ok(redo(disk, &change)?),
    }
}

/// Takes the vault's own files away but the journal, and syncs.
fn clear<D: Disk>(disk: &mut D, own: &OwnPaths) -> Result<(), DiskFault>
    requires { IsTrue (D.meaning.held disk.old) }
    ensures runs { D.meaning.tells → Runs (IsUnseen own.now.root) (D.meaning.view disk.old) (D.meaning.view disk.new) }
    ensures cleared { OnOk result (D.meaning.tells → IsCleared own.now.root (D.meaning.view disk.new).files) }
    ensures only { OnOk result (D.meaning.tells → Only (D.meaning.view disk.new).files (D.meaning.view disk.new)) }
    ensures held { D.meaning.held disk.new ≡ D.meaning.held disk.old }
    ensures asks { AsksUpTo (2 ^ 64 - 1) (D.meaning.asked disk.old) (D.meaning.asked disk.new) }
    ensures costs { OnOk result (D.meaning.tells → IsClearedIn own.now.root (D.meaning.view disk.old).files (D.meaning.calls disk.old) (D.meaning.calls disk.new)) }
    ensures few { OnErr result (D.meaning.tells → (left : List Text) → IsListing (D.meaning.view disk.old).files (stage_dir own.now.root) left → Costs (length left + 3) (D.meaning.calls disk.old) (D.meaning.calls disk.new) ⊥) }
    ensures cause { HasCause (D.meaning.faults disk.old) (D.meaning.faults disk.new) (result ≡ Err DiskFault.Failed) }
{
    disk.remove(&own.fresh)?;
    match disk.list(&own.stage, usize::MAX)? {
        Listed::All(paths) => {
            remove_all(disk, &paths)?;
            disk.sync()
        }
        Listed::Many => unreachable!(),
    }
}

/// Makes what an earlier program left unsynced outlast a crash. Like all that an opening does but to
/// ask for the lock, it wants the lock.
fn sync<D: Disk>(disk: &mut D) -> Result<(), DiskFault>
    requires held { IsTrue (D.meaning.held disk.old) }
    ensures syncs { D.meaning.tells → Syncs (D.meaning.view disk.old) (D.meaning.view disk.new) }
    ensures only { OnOk result (D.meaning.tells → Only (D.meaning.view disk.old).files (D.meaning.view disk.new)) }
    ensures held { D.meaning.held disk.new ≡ D.meaning.held disk.old }
    ensures asked { D.meaning.asked disk.new ≡ D.meaning.asked disk.old }
    ensures counted { D.meaning.calls disk.new ≡ counted (D.meaning.calls disk.old) }
    ensures later { D.meaning.calls disk.old ≤ D.meaning.calls disk.new }
    ensures cause { HasCause (D.meaning.faults disk.old) (D.meaning.faults disk.new) (result ≡ Err DiskFault.Failed) }
{
    disk.sync()
}

/// Makes what a crash left whole, and gives the root directory once more.
pub(crate) fn recover<D: Disk>(
    alloc: Global,
    disk: &mut D,
    root: &DirPath,
) -> Result<DirPath, VaultFault>
    ensures root { IfOk result (λ copy. copy ≡ root.now) }
    ensures any_moment { D.meaning.tells → Leaves (IsOldOrAlike root.now (D.meaning.view disk.old)) (D.meaning.view disk.old) (D.meaning.view disk.new) }
    ensures at_rest { OnOk result (D.meaning.tells → IsAtRest root.now (D.meaning.view disk.new)) }
    ensures stands { OnOk result (D.meaning.tells → RecoversTo root.now (D.meaning.view disk.old).files (D.meaning.view disk.new).files) }
    ensures refuses { IfErr result (λ fault. D.meaning.tells → RefusesVault root.now (D.meaning.view disk.old).files fault) }
    ensures untouched { (n : _) → result ≡ Err (VaultFault.BadJournal n) → D.meaning.tells → IsUntouched (D.meaning.view disk.old) (D.meaning.view disk.new) }
    ensures held { OnOk result (IsTrue (D.meaning.held disk.new)) }
    ensures asks { AsksUpTo (most_bytes + (2 ^ 64 - 1)) (D.meaning.asked disk.old) (D.meaning.asked disk.new) }
    ensures bad_asks { (k : _) → result ≡ Err (VaultFault.BadJournal k) → AsksUpTo most_bytes (D.meaning.asked disk.old) (D.meaning.asked disk.new) }
    ensures costs { OnOk result (D.meaning.tells → IsOpenedIn root.now (D.meaning.view disk.old).files (D.meaning.calls disk.old) (D.meaning.calls disk.new)) }
    ensures few { OnErr result (D.meaning.tells → IsNoMore root.now (D.meaning.view disk.old).files (D.meaning.calls disk.old) (D.meaning.calls disk.new)) }
    ensures bad { OnErr result (D.meaning.tells → HasBadJournal root.now (D.meaning.view disk.old).files → Costs 3 (D.meaning.calls disk.old) (D.meaning.calls disk.new) ⊥) }
    ensures three { (k : _) → result ≡ Err (VaultFault.BadJournal k) → Costs 3 (D.meaning.calls disk.old) (D.meaning.calls disk.new) ⊤ }
    ensures unlocked { OnErr result (IsFalse (D.meaning.held disk.new) → Costs 1 (D.meaning.calls disk.old) (D.meaning.calls disk.new) ⊥ × (D.meaning.tells → Rests (D.meaning.view disk.old) (D.meaning.view disk.new))) }
    ensures cause { HasCause (D.meaning.faults disk.old) (D.meaning.faults disk.new) (result ≡ Err VaultFault.Disk) }
{
    let own = own_paths(alloc, root)?;
    disk.hold()?;
    sync(disk)?;
    mend(alloc, disk, &own)?;
    clear(disk, &own)?;
    let OwnPaths { root, .. } = own;
    Ok(root)
}
