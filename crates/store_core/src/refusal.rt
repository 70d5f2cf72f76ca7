//! Why a command on a store is refused.

ghost use Rattle.std.specs.Prelude.{◌≡◌};
ghost use Rattle.store_core.specs.Refusals.{as_refused};
ghost use Rattle.store_core.specs.declared.refusal.Refusal.TheVariants.{NoMemory as no_memory};

use crate::edit::ApplyFault;
use crate::read_fault::ReadFault;
use gopass_base::NoMemory;
use mount_table::Name;
use recipient_files::Id;
use store_state::Limit;

/// Why a command is refused. The names are those of secrets.
#[derive(Debug, Drop)]
pub enum Refusal {
    /// The store has no such secret.
    NotFound,
    /// The name is that of a folder, and of no secret.
    IsFolder,
    /// The secret is there, and is not to be written over.
    Exists(Name),
    /// No rule governs the name.
    NoRule(Name),
    /// A limit would be passed.
    Full(Limit),
    /// An id of the rule that the tool does not know.
    UnknownId(Id),
    /// No key is held for the file of the secret.
    NoKey(Name),
    /// The file of the secret is not sealed.
    NotSealed(Name),
    /// The tool failed for the secret.
    Tool(Name),
    /// The disk failed.
    Disk,
    NoMemory,
}

impl From<NoMemory> for Refusal {
    ghost from_gives = { λ _ e. e ≡ no_memory };

    fn from(_: NoMemory) -> Self {
        Refusal::NoMemory
    }
}

impl From<ReadFault> for Refusal {
    ghost use Rattle.std.specs.Prelude.{◌≡◌};
    ghost use Rattle.store_core.specs.Refusals.{refusal_by_read};

    ghost from_gives = { λ fault e. e ≡ refusal_by_read fault };

    fn from(fault: ReadFault) -> Self {
        match fault {
            ReadFault::Disk => Refusal::Disk,
            ReadFault::NoMemory => Refusal::NoMemory,
        }
    }
}

/// What an edit answers, as a command does.
pub(crate) fn refused_by(made: Result<(), ApplyFault>) -> Result<(), Refusal>
    ensures { result ≡ as_refused made }
{
    match made {
        Ok(()) => Ok(()),
        Err(ApplyFault::Disk) => Err(Refusal::Disk),
        Err(ApplyFault::NoMemory) => Err(Refusal::NoMemory),
    }
}
