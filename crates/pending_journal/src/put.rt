//! A file that a change writes.

use gopass_base::FilePath;

/// A file that a change writes: where it is staged, its path and its bytes.
#[derive(Debug, Drop)]
pub(crate) struct Put {
    pub(crate) staged: FilePath,
    pub(crate) path: FilePath,
    pub(crate) bytes: Vec<u8>,
}
