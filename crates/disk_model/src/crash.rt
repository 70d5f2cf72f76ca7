//! What a crash leaves.

ghost use Rattle.std.specs.Prelude.{◌≡◌, IsTrue, IfOk, OnOk, if◌then◌else◌};
ghost use Rattle.std.proofs.Math.Dec.{ltb};
ghost use Rattle.disk_model.specs.Acts.{act_of, entries_made, before, log_of};
ghost use Rattle.disk_model.specs.Entries.{entries_of, is_rising};
ghost use Rattle.disk_model.specs.Crashes.{torn, left_by, replay_one, reading_of, picked};

use crate::act::{Act, apply};
use crate::entries::{copy_files, put_file};
use gopass_base::{FilePath, NoMemory};
use std::alloc::Global;

/// Which of the steps since the last sync a crash leaves.
#[derive(Clone, Copy, Debug, PartialEq, Eq)]
pub enum Pick {
    None,
    All,
    /// Every second one, from the first.
    Even,
    /// All, but of a write only the first half of its bytes, rounded down.
    Torn,
}

/// Makes of the files what the act says, but of a write only the first half of its bytes.
fn apply_torn(files: &mut Vec<(FilePath, Vec<u8>)>, act: &Act) -> Result<(), NoMemory>
    requires { IsTrue (is_rising (entries_of files.old.items)) }
    ensures { OnOk result (entries_of files.new.items ≡ entries_made (torn (act_of act.now)) (entries_of files.old.items)) }
{
    if let Act::Write(path, bytes) = act {
        let alloc = *files.allocator();
        let half = bytes[..bytes.len() / 2].to_vec(alloc)?;
        return put_file(files, path.copy(alloc)?, half);
    }
    apply(files, act)
}

/// Makes of what a crash leaves that which it leaves of one step more.
fn apply_picked(
    left: &mut Vec<(FilePath, Vec<u8>)>,
    act: &Act,
    pick: Pick,
    is_odd: bool,
) -> Result<(), NoMemory>
    requires { IsTrue (is_rising (entries_of left.old.items)) }
    ensures { OnOk result (entries_of left.new.items ≡ left_by pick is_odd (act_of act.now) (entries_of left.old.items)) }
{
    match pick {
        Pick::None => Ok(()),
        Pick::All => apply(left, act),
        Pick::Even if is_odd => apply(left, act),
        Pick::Even => Ok(()),
        Pick::Torn => apply_torn(left, act),
    }
}

/// How far a log is read: the files, what of them a crash leaves, and whether the next step is the
/// first, the third, .. since the last sync.
#[derive(Drop)]
struct Replay {
    files: Vec<(FilePath, Vec<u8>)>,
    left: Vec<(FilePath, Vec<u8>)>,
    is_odd: bool,
}

/// Reads one act more.
fn read_on(reading: &mut Replay, act: &Act, pick: Pick) -> Result<(), NoMemory>
    requires files { IsTrue (is_rising (entries_of reading.old.files.items)) }
    requires left { IsTrue (is_rising (entries_of reading.old.left.items)) }
    ensures { OnOk result (reading_of reading.new ≡ replay_one pick (act_of act.now) (reading_of reading.old)) }
{
    if let Act::Sync = act {
        let alloc = *reading.files.allocator();
        reading.left = copy_files(alloc, &reading.files)?;
        reading.is_odd = true;
        return Ok(());
    }
    apply_picked(&mut reading.left, act, pick, reading.is_odd)?;
    apply(&mut reading.files, act)?;
    reading.is_odd = !reading.is_odd;
    Ok(())
}

/// Reads one act more, where it is of one of the first `moment` calls.
fn read_before(
    reading: &mut Replay,
    moment: u64,
    number: u64,
    act: &Act,
    pick: Pick,
) -> Result<(), NoMemory>
    requires files { IsTrue (is_rising (entries_of reading.old.files.items)) }
    requires left { IsTrue (is_rising (entries_of reading.old.left.items)) }
    ensures { OnOk result (reading_of reading.new ≡ (if ltb number moment then replay_one pick (act_of act.now) (reading_of reading.old) else reading_of reading.old)) }
{
    if number >= moment {
        return Ok(());
    }
    read_on(reading, act, pick)
}

/// What a crash leaves after the first `moment` calls.
pub(crate) fn left_at(
    alloc: Global,
    start: &[(FilePath, Vec<u8>)],
    log: &[(u64, Act)],
    moment: u64,
    pick: Pick,
) -> Result<Vec<(FilePath, Vec<u8>)>, NoMemory>
    requires { IsTrue (is_rising (entries_of start.now)) }
    ensures { IfOk result (λ left. entries_of left.items ≡ picked pick (entries_of start.now) (before moment (log_of log.now))) }
{
    let mut reading = Replay {
        files: copy_files(alloc, start)?,
        left: copy_files(alloc, start)?,
        is_odd: true,
    };
    for (number, act) in log {
        read_before(&mut reading, moment, *number, act, pick)?;
    }
    Ok(reading.left)
}
