//! A change of many files.

ghost use Rattle.std.specs.Prelude.{◌≡◌, ◌<◌, ◌-◌};
ghost use Rattle.pending_journal.specs.Built.{IsBuilt, ArePaths};
ghost use Rattle.pending_journal.specs.declared.change.ChangeAddFault.TheVariants.{NoMemory as no_memory};

use crate::put::Put;
use gopass_base::{DirPath, FilePath, NoMemory};
use std::alloc::{AllocError, Global};
use std::collections::BTreeSet;

/// Why a step is not added to a change, in this order.
#[derive(Clone, Copy, Debug, PartialEq, Eq)]
pub enum ChangeAddFault {
    /// There is a step for this path already.
    TwoForOne,
    /// The path is the vault's own.
    Service,
    /// There are 16,400 steps already.
    Long,
    NoMemory,
}

impl From<NoMemory> for ChangeAddFault {
    ghost from_gives = { λ _ e. e ≡ no_memory };

    fn from(_: NoMemory) -> Self {
        ChangeAddFault::NoMemory
    }
}

impl From<AllocError> for ChangeAddFault {
    ghost from_gives = { λ _ e. e ≡ no_memory };

    fn from(_: AllocError) -> Self {
        ChangeAddFault::NoMemory
    }
}

/// A change of many files, with all that a commit needs: the text of its journal and every path.
///
/// A step costs its line and a look-up among the paths, so that many steps are added in near
/// linear time. A put after drops also moves the lines of all drops: where there are many steps, the
/// puts are added first.
#[derive(Debug, Drop)]
pub struct Change {
    pub(crate) root: DirPath,
    pub(crate) journal: FilePath,
    pub(crate) fresh: FilePath,
    pub(crate) text: Vec<u8>,
    /// Where the lines of the drops begin in the text.
    pub(crate) puts_end: usize,
    pub(crate) puts: Vec<Put>,
    pub(crate) drops: Vec<FilePath>,
    /// The paths of all steps.
    pub(crate) paths: BTreeSet<FilePath, Global>,
    ghost built: { IsBuilt root journal fresh text.items puts_end puts.items drops.items },
    ghost paths_are: { ArePaths paths puts.items drops.items },
}
