//! Why a store is not opened.

ghost use Rattle.std.specs.Prelude.{◌≡◌};
ghost use Rattle.store_state.specs.declared.fault.StoreFault.TheVariants.{NoMemory as no_memory};

use disk_model::DiskFault;
use gopass_base::NoMemory;
use mount_table::FilePath;
use path_rules::RulesFault;
use std::alloc::AllocFailed;

/// A number of the store that has a greatest value.
#[derive(Clone, Copy, Debug, PartialEq, Eq)]
pub enum Limit {
    /// 64 mounts.
    Mounts,
    /// 512 rules.
    Rules,
    /// 64 ids of a rule.
    Ids,
    /// 8,192 secrets.
    Secrets,
    /// 32,768 bytes of a body.
    Body,
    /// 40,000 files below the directory of a mount.
    Files,
    /// 4,294,967,294 changes.
    Changes,
    /// 18,446,744,073,709,551,615 as a counter.
    Counter,
}

/// Why a store is not opened.
#[derive(Debug, Drop)]
pub enum StoreFault {
    /// A file, and its first line that does not read, from 1; 0 where it has more bytes than it may,
    /// and where it is a rule file without an id.
    BadFile(FilePath, usize),
    /// A limit that is passed.
    Full(Limit),
    /// The disk failed.
    Disk,
    NoMemory,
}

impl From<NoMemory> for StoreFault {
    ghost from_gives = { λ _ e. e ≡ no_memory };

    fn from(_: NoMemory) -> Self {
        StoreFault::NoMemory
    }
}

impl<T: Drop> From<AllocFailed<T>> for StoreFault {
    ghost from_gives = { λ _ e. e ≡ no_memory };

    fn from(_: AllocFailed<T>) -> Self {
        StoreFault::NoMemory
    }
}

impl From<RulesFault> for StoreFault {
    ghost use Rattle.std.specs.Prelude.{◌≡◌};
    ghost use Rattle.store_state.specs.Faults.{store_fault_by_rules};

    ghost from_gives = { λ fault e. e ≡ store_fault_by_rules fault };

    fn from(fault: RulesFault) -> Self {
        match fault {
            RulesFault::Full => StoreFault::Full(Limit::Rules),
            RulesFault::NoMemory => StoreFault::NoMemory,
        }
    }
}

impl From<DiskFault> for StoreFault {
    ghost use Rattle.std.specs.Prelude.{◌≡◌};
    ghost use Rattle.store_state.specs.Faults.{store_fault_by_disk};

    ghost from_gives = { λ fault e. e ≡ store_fault_by_disk fault };

    fn from(fault: DiskFault) -> Self {
        match fault {
            DiskFault::Failed => StoreFault::Disk,
            DiskFault::NoMemory => StoreFault::NoMemory,
        }
    }
}
