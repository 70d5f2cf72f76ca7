//! The opening of a vault.

ghost use Rattle.std.specs.Prelude.{◌≡◌, ◌≤◌, ◌+◌, ◌-◌, ◌^◌, ⊤, IsTrue, IsFalse, Err};
ghost use Rattle.gopass_base.specs.Faults.{Costs, HasCause};
ghost use Rattle.disk_model.specs.Disk.{AsksUpTo, Rests};
ghost use Rattle.disk_model.specs.Runs.{Leaves};
ghost use Rattle.pending_journal.specs.Journal.{most_bytes};
ghost use Rattle.pending_journal.specs.Redo.{IsAtRest, RecoversTo};
ghost use Rattle.pending_journal.specs.Recovery.{IsOldOrAlike, IsUntouched};
ghost use Rattle.pending_journal.specs.Faults.{RefusesVault, HasBadJournal};
ghost use Rattle.pending_journal.specs.Costs.{IsOpenedIn, IsNoMore};
ghost use Rattle.pending_journal.specs.Opened.{IfVaultReady, IfVaultRefused, IsFresh, OnDisk};

use crate::fault::VaultFault;
use crate::recover::recover;
use crate::vault::Vault;
use disk_model::Disk;
use gopass_base::DirPath;
use std::alloc::Global;

/// What opening a vault gives: the vault, or the disk again.
#[derive(Drop)]
pub enum VaultOpened<D: Disk> {
    Ready(Vault<D>),
    Refused(VaultFault, D),
}

impl<D: Disk> Vault<D> {
    /// Asks for the lock of the disk, syncs, makes the change of a journal that is there, takes the
    /// vault's own files away and syncs. So what a crash left is made whole: the files are then those
    /// for which the files at the start stand, and the lock is had. It takes six calls of the disk;
    /// for a journal three more, one for each put and one for each drop; and one for each file that is
    /// left in the stage. It is refused where a journal is there that does not read, and then no file
    /// is changed; and where the lock is not had, and then nothing else is asked.
    pub fn open(alloc: Global, disk: D, root: &DirPath) -> VaultOpened<D>
        ensures any_moment { OnDisk result (λ after. D.meaning.tells → Leaves (IsOldOrAlike root.now (D.meaning.view disk)) (D.meaning.view disk) (D.meaning.view after)) }
        ensures ready { IfVaultReady result (λ vault. IsFresh root.now vault
            × (D.meaning.tells → RecoversTo root.now (D.meaning.view disk).files (D.meaning.view vault.disk).files × IsAtRest root.now (D.meaning.view vault.disk))) }
        ensures held { IfVaultReady result (λ vault. IsTrue (D.meaning.held vault.disk)) }
        ensures asks { OnDisk result (λ after. AsksUpTo (most_bytes + (2 ^ 64 - 1)) (D.meaning.asked disk) (D.meaning.asked after)) }
        ensures bad_asks { IfVaultRefused result (λ fault after. (n : _) → fault ≡ VaultFault.BadJournal n → AsksUpTo most_bytes (D.meaning.asked disk) (D.meaning.asked after)) }
        ensures costs { IfVaultReady result (λ vault. D.meaning.tells → IsOpenedIn root.now (D.meaning.view disk).files (D.meaning.calls disk) (D.meaning.calls vault.disk)) }
        ensures few { IfVaultRefused result (λ fault after. D.meaning.tells → IsNoMore root.now (D.meaning.view disk).files (D.meaning.calls disk) (D.meaning.calls after)) }
        ensures bad { IfVaultRefused result (λ fault after. D.meaning.tells → HasBadJournal root.now (D.meaning.view disk).files → Costs 3 (D.meaning.calls disk) (D.meaning.calls after) ⊥) }
        ensures three { IfVaultRefused result (λ fault after. (n : _) → fault ≡ VaultFault.BadJournal n → Costs 3 (D.meaning.calls disk) (D.meaning.calls after) ⊤) }
        ensures unlocked { IfVaultRefused result (λ fault after. IsFalse (D.meaning.held after) → Costs 1 (D.meaning.calls disk) (D.meaning.calls after) ⊥ × (D.meaning.tells → Rests (D.meaning.view disk) (D.meaning.view after))) }
        ensures refused { IfVaultRefused result (λ fault after. D.meaning.tells → RefusesVault root.now (D.meaning.view disk).files fault) }
        ensures untouched { IfVaultRefused result (λ fault after. (n : _) → fault ≡ VaultFault.BadJournal n → D.meaning.tells → IsUntouched (D.meaning.view disk) (D.meaning.view after)) }
        ensures cause { IfVaultRefused result (λ fault after. HasCause (D.meaning.faults disk) (D.meaning.faults after) (fault ≡ VaultFault.Disk)) }
        ensures later { OnDisk result (λ after. D.meaning.faults disk ≤ D.meaning.faults after) }
        ensures stays { IfVaultReady result (λ vault. D.meaning.faults vault.disk ≡ D.meaning.faults disk) }
    {
        let mut disk = disk;
        match recover(alloc, &mut disk, root) {
            Ok(root) => VaultOpened::Ready(Vault {
                disk,
                root,
                commits: 0,
                stuck: false,
            }),
            Err(fault) => VaultOpened::Refused(fault, disk),
        }
    }
}
