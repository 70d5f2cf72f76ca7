//! Reading a journal.

ghost use Rattle.std.specs.Prelude.{◌≡◌, ◌≤◌, ◌+◌, [], length, IfOk, IfErr, OnOk, IsTrue, Err};
ghost use Rattle.std.specs.Str.{is_utf8};
ghost use Rattle.gopass_base.specs.Paths.{IsFilePath};
ghost use Rattle.pending_journal.specs.Journal.{JournalPlan, IsJournalPlan};
ghost use Rattle.pending_journal.specs.Change.{plan_in};
ghost use Rattle.pending_journal.specs.Faults.{RefusesText};
ghost use Rattle.pending_journal.specs.Steps.{with_put, with_drop, IsStep, journal_start};

use crate::change::{Change, ChangeAddFault};
use crate::fault::VaultFault;
use gopass_base::{DirPath, FilePath, PathFault, as_text, cut};
use std::alloc::Global;

/// Why a line is not taken.
#[derive(Clone, Copy, Debug, PartialEq, Eq)]
enum LineFault {
    Bad,
    NoMemory,
}

impl From<PathFault> for LineFault {
    ghost use Rattle.std.specs.Prelude.{◌≡◌};
    ghost use Rattle.pending_journal.specs.Steps.{fault_of_path};

    ghost from_gives = { λ fault e. e ≡ fault_of_path fault };

    fn from(fault: PathFault) -> Self {
        match fault {
            PathFault::Bad => LineFault::Bad,
            PathFault::NoMemory => LineFault::NoMemory,
        }
    }
}

impl From<ChangeAddFault> for LineFault {
    ghost use Rattle.std.specs.Prelude.{◌≡◌};
    ghost use Rattle.pending_journal.specs.Steps.{fault_of_step};

    ghost from_gives = { λ fault e. e ≡ fault_of_step fault };

    fn from(fault: ChangeAddFault) -> Self {
        match fault {
            ChangeAddFault::TwoForOne | ChangeAddFault::Service | ChangeAddFault::Long => {
                LineFault::Bad
            }
            ChangeAddFault::NoMemory => LineFault::NoMemory,
        }
    }
}

/// The change of a journal's text, which puts files of no bytes. The text is refused exactly where it
/// is the journal of no plan.
pub(crate) fn read_journal(alloc: Global, root: &DirPath, text: &[u8]) -> Result<Change, VaultFault>
    ensures root { IfOk result (λ change. change.root ≡ root.now) }
    ensures text { IfOk result (λ change. change.text.items ≡ text.now) }
    ensures refuses { IfErr result (RefusesText root.now text.now) }
{
    match text.strip_prefix(b"journal 1\n") {
        Some(lines) => read_lines(alloc, Change::new(alloc, root)?, lines),
        None => Err(VaultFault::BadJournal(1)),
    }
}

/// The change with the steps of these lines, the last of which is `end`.
fn read_lines(alloc: Global, mut change: Change, lines: &[u8]) -> Result<Change, VaultFault>
    ensures root { IfOk result (λ read. read.root ≡ change.root) }
    ensures text { IfOk result (λ read. read.text.items ≡ journal_start (plan_in change) lines.now) }
    ensures refuses { IfErr result (RefusesText change.root (journal_start (plan_in change) lines.now)) }
{
    let mut rest = lines;
    while let Some((line, after)) = cut(rest, b'\n') {
        let number = next_line(&change);
        if line == b"end".as_slice() {
            if after.is_empty() {
                return Ok(change);
            }
            return Err(VaultFault::BadJournal(number + 1));
        }
        match read_line(alloc, &mut change, line) {
            Ok(()) => rest = after,
            Err(LineFault::Bad) => return Err(VaultFault::BadJournal(number)),
            Err(LineFault::NoMemory) => return Err(VaultFault::NoMemory),
        }
    }
    Err(VaultFault::BadJournal(next_line(&change)))
}

/// The number of the line behind those of the change's steps.
fn next_line(change: &Change) -> usize
    ensures few { result ≤ 16402 }
    ensures line { result ≡ length change.now.puts.items + length change.now.drops.items + 2 }
{
    change.puts.len() + change.drops.len() + 2
}

/// Adds the step of a line.
fn read_line(alloc: Global, change: &mut Change, line: &[u8]) -> Result<(), LineFault>
    ensures root { change.new.root ≡ change.old.root }
    ensures step { OnOk result (IsStep (plan_in change.old) line.now (plan_in change.new)) }
    ensures bad { result ≡ Err LineFault.Bad → (plan : JournalPlan) → IsStep (plan_in change.old) line.now plan → ¬ IsJournalPlan change.old.root plan }
{
    if let Some(path) = line.strip_prefix(b"put\t") {
        return read_put(alloc, change, path);
    }
    match line.strip_prefix(b"drop\t") {
        Some(path) => read_drop(alloc, change, path),
        None => Err(LineFault::Bad),
    }
}

/// Adds that the path is put, which no drop stands before.
fn read_put(alloc: Global, change: &mut Change, path: &[u8]) -> Result<(), LineFault>
    ensures root { change.new.root ≡ change.old.root }
    ensures front { OnOk result (change.old.drops.items ≡ []) }
    ensures step { OnOk result (plan_in change.new ≡ with_put (plan_in change.old) path.now) }
    ensures bad { result ≡ Err LineFault.Bad → change.old.drops.items ≡ [] → ¬ IsJournalPlan change.old.root (with_put (plan_in change.old) path.now) }
{
    if !change.drops.is_empty() {
        return Err(LineFault::Bad);
    }
    let path = path_of(alloc, path)?;
    change.put(path, Vec::new(alloc))?;
    Ok(())
}

/// Adds that the path is dropped.
fn read_drop(alloc: Global, change: &mut Change, path: &[u8]) -> Result<(), LineFault>
    ensures root { change.new.root ≡ change.old.root }
    ensures step { OnOk result (plan_in change.new ≡ with_drop (plan_in change.old) path.now) }
    ensures bad { result ≡ Err LineFault.Bad → ¬ IsJournalPlan change.old.root (with_drop (plan_in change.old) path.now) }
{
    let path = path_of(alloc, path)?;
    change.erase(path)?;
    Ok(())
}

fn path_of(alloc: Global, bytes: &[u8]) -> Result<FilePath, LineFault>
    ensures path { IfOk result (λ path. path ≡ bytes.now) }
    ensures bad { result ≡ Err LineFault.Bad → IsTrue (is_utf8 bytes.now) → ¬ IsFilePath bytes.now }
{
    let Some(text) = as_text(bytes) else {
        return Err(LineFault::Bad);
    };
    Ok(FilePath::read(alloc, text)?)
}
