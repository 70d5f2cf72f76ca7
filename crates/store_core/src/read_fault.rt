//! Why a file of a store is not read.

ghost use Rattle.std.specs.Prelude.{◌≡◌};
ghost use Rattle.store_core.specs.Reads.{read_fault_by_disk};

use disk_model::DiskFault;

/// Why a file of a store is not read.
#[derive(Clone, Copy, Debug, PartialEq, Eq)]
pub enum ReadFault {
    /// The disk failed.
    Disk,
    NoMemory,
}

impl From<DiskFault> for ReadFault {
    ghost from_gives = { λ fault e. e ≡ read_fault_by_disk fault };

    fn from(fault: DiskFault) -> Self {
        match fault {
            DiskFault::Failed => ReadFault::Disk,
            DiskFault::NoMemory => ReadFault::NoMemory,
        }
    }
}
