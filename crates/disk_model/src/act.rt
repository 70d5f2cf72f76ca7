//! What a disk in memory did.

ghost use Rattle.std.specs.Prelude.{◌≡◌, ◌<◌, ◌-◌, ◌^◌, ◌++◌, ◌∷◌, [], IsTrue, IfOk, OnOk, OnErr};
ghost use Rattle.disk_model.specs.Entries.{entries_of, is_rising};
ghost use Rattle.disk_model.specs.Acts.{Write, Rename, Remove, act_of, entries_made, log_of};

use crate::entries::{move_file, put_file, take_file};
use gopass_base::{FilePath, NoMemory};
use std::alloc::Global;

/// A step that was made, or a sync.
#[derive(Drop)]
pub(crate) enum Act {
    Write(FilePath, Vec<u8>),
    Rename(FilePath, FilePath),
    Remove(FilePath),
    Sync,
}

pub(crate) fn written(alloc: Global, path: &FilePath, bytes: &[u8]) -> Result<Act, NoMemory>
    ensures { IfOk result (λ act. act_of act ≡ Write path.now bytes.now) }
{
    Ok(Act::Write(path.copy(alloc)?, bytes.to_vec(alloc)?))
}

pub(crate) fn renamed(alloc: Global, from: &FilePath, to: &FilePath) -> Result<Act, NoMemory>
    ensures { IfOk result (λ act. act_of act ≡ Rename from.now to.now) }
{
    Ok(Act::Rename(from.copy(alloc)?, to.copy(alloc)?))
}

pub(crate) fn removed(alloc: Global, path: &FilePath) -> Result<Act, NoMemory>
    ensures { IfOk result (λ act. act_of act ≡ Remove path.now) }
{
    Ok(Act::Remove(path.copy(alloc)?))
}

/// Makes of the files what the act says. Nothing changes where there is no memory.
pub(crate) fn apply(files: &mut Vec<(FilePath, Vec<u8>)>, act: &Act) -> Result<(), NoMemory>
    requires { IsTrue (is_rising (entries_of files.old.items)) }
    ensures made { OnOk result (entries_of files.new.items ≡ entries_made (act_of act.now) (entries_of files.old.items)) }
    ensures same { OnErr result (files.new.items ≡ files.old.items) }
{
    let alloc = *files.allocator();
    match act {
        Act::Write(path, bytes) => put_file(files, path.copy(alloc)?, bytes.clone()?),
        Act::Rename(from, to) => {
            move_file(files, from, to.copy(alloc)?);
            Ok(())
        }
        Act::Remove(path) => {
            let _ = take_file(files, path);
            Ok(())
        }
        Act::Sync => Ok(()),
    }
}

/// Makes of the files what the act says, and notes it under the number of its call. Nothing
/// changes where there is no memory, or no later number.
pub(crate) fn record(
    files: &mut Vec<(FilePath, Vec<u8>)>,
    log: &mut Vec<(u64, Act)>,
    number: u64,
    act: Act,
) -> Result<(), NoMemory>
    requires { IsTrue (is_rising (entries_of files.old.items)) }
    ensures number { OnOk result (number < 2 ^ 64 - 1) }
    ensures made { OnOk result (entries_of files.new.items ≡ entries_made (act_of act) (entries_of files.old.items)) }
    ensures noted { OnOk result (log_of log.new.items ≡ log_of log.old.items ++ (number, act_of act) ∷ []) }
    ensures files { OnErr result (files.new.items ≡ files.old.items) }
    ensures log { OnErr result (log.new.items ≡ log.old.items) }
{
    if number == u64::MAX {
        return Err(NoMemory);
    }
    log.reserve(1)?;
    apply(files, &act)?;
    log.push((number, act)).unwrap();
    Ok(())
}
