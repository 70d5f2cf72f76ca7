//! Why a transcript does not hold.

use gopass_base::NoMemory;
use std::alloc::{AllocError, AllocFailed, Global};

/// Why a line of a transcript does not hold.
#[derive(Drop)]
pub(crate) enum Fault {
    NoMemory,
    /// The line is none of a transcript, or does not stand where it may.
    BadLine,
    /// What there is in place of what the line says.
    Wrong(String),
}

impl From<NoMemory> for Fault {
    fn from(_: NoMemory) -> Self {
        Fault::NoMemory
    }
}

impl From<AllocError> for Fault {
    fn from(_: AllocError) -> Self {
        Fault::NoMemory
    }
}

impl<T: Drop> From<AllocFailed<T>> for Fault {
    fn from(_: AllocFailed<T>) -> Self {
        Fault::NoMemory
    }
}

/// The bytes are those that are wanted.
pub(crate) fn same_bytes(alloc: Global, what: &str, is: &[u8], wanted: &[u8]) -> Result<(), Fault> {
    if is == wanted {
        return Ok(());
    }
    let text = String::from_utf8_lossy(alloc, is)?;
    Err(Fault::Wrong(format!(in alloc; "{what} {text:?}")?))
}

/// The number is the one that is wanted, where one is.
pub(crate) fn same_number(
    alloc: Global,
    what: &str,
    is: u64,
    wanted: Option<u64>,
) -> Result<(), Fault> {
    match wanted {
        Some(wanted) if is != wanted => Err(Fault::Wrong(format!(in alloc; "{what} {is}")?)),
        _ => Ok(()),
    }
}
