//! Why a vault is not opened.

ghost use Rattle.std.specs.Prelude.{◌≡◌};
ghost use Rattle.pending_journal.specs.declared.fault.VaultFault.TheVariants.{NoMemory as no_memory};

use disk_model::DiskFault;
use gopass_base::NoMemory as NoRoom;

/// Why a vault is not opened.
#[derive(Clone, Copy, Debug, PartialEq, Eq)]
pub enum VaultFault {
    /// The disk failed.
    Disk,
    /// The first line of the journal that does not read, from 1, or the first of a journal that is
    /// longer than any plan's.
    BadJournal(usize),
    NoMemory,
}

impl From<NoRoom> for VaultFault {
    ghost from_gives = { λ _ e. e ≡ no_memory };

    fn from(_: NoRoom) -> Self {
        VaultFault::NoMemory
    }
}

impl From<DiskFault> for VaultFault {
    ghost use Rattle.pending_journal.specs.Faults.{vault_fault_by_disk};
    ghost use Rattle.std.specs.Prelude.{◌≡◌};

    ghost from_gives = { λ fault e. e ≡ vault_fault_by_disk fault };

    fn from(fault: DiskFault) -> Self {
        match fault {
            DiskFault::Failed => VaultFault::Disk,
            DiskFault::NoMemory => VaultFault::NoMemory,
        }
    }
}
