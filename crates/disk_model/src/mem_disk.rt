//! A disk in memory.

ghost use Rattle.std.specs.Prelude.{ℕ, ◌≡◌, ◌↔◌, ◌≤◌, ◌<◌, ◌-◌, ◌^◌, [], IfOk, IsErr, OnOk, OnErr, MatchResult, IsTrue, IsFalse, Err, None, Some, Contains};
ghost use Rattle.gopass_base.specs.Text.{Text};
ghost use Rattle.gopass_base.specs.Faults.{HasCause, counted};
ghost use Rattle.gopass_base.specs.Calls.{no_calls};
ghost use Rattle.disk_model.specs.Files.{put, moved, Writes, Moves, Drops};
ghost use Rattle.disk_model.specs.Disk.{with_limit, Rests, Steps, IsMade, Syncs, Only, Stay, IsDurable};
ghost use Rattle.disk_model.specs.Answers.{Reads, IsWithin};
ghost use Rattle.disk_model.specs.Listing.{Lists, IsShort};
ghost use Rattle.disk_model.specs.Entries.{entries_of, files_of, is_rising};
ghost use Rattle.disk_model.specs.Acts.{Write, Rename, Remove, Sync, act_of, before, Images};
ghost use Rattle.disk_model.specs.Crashes.{picked};
ghost use Rattle.disk_model.specs.Memory.{IsRecorded, rested, asked_up_to, taken, did, view_of, view_sound};

use crate::act::{Act, record, removed, renamed, written};
use crate::crash::{Pick, left_at};
use crate::entries::{copy_files, find, put_file};
use crate::listing::list;
use crate::{Disk, DiskFault, Got, Listed};
use gopass_base::{CallLog, Failed, FilePath, NoMemory};
use std::alloc::Global;
use std::marker::Model;

/// A disk in memory, which tells its content. It keeps its files in rising order of their paths,
/// those that it began with, and what it did since, each step and each sync with the number of its
/// call. A call that fails does nothing but to be counted.
#[derive(Drop)]
pub struct MemDisk {
    start: Vec<(FilePath, Vec<u8>)>,
    files: Vec<(FilePath, Vec<u8>)>,
    log: Vec<(u64, Act)>,
    calls: CallLog,
    asked: u128,
    is_held: bool,
}

impl Model for MemDisk {
    ghost use Rattle.disk_model.specs.Memory.{MemoryDisk, IsRecorded, memory_of};

    ghost Value = { MemoryDisk };

    ghost view = { λ disk. memory_of disk.start.items disk.files.items disk.log.items disk.calls disk.asked disk.is_held };

    ghost invariant = { λ disk. IsRecorded (memory_of disk.start.items disk.files.items disk.log.items disk.calls disk.asked disk.is_held) };
}

/// The files in rising order of their paths.
fn in_order(
    alloc: Global,
    files: Vec<(FilePath, Vec<u8>)>,
) -> Result<Vec<(FilePath, Vec<u8>)>, NoMemory>
    ensures content { IfOk result (λ sorted. (path : Text) → files_of (entries_of sorted.items) path ≡ files_of (entries_of files.items) path) }
    ensures rising { IfOk result (λ sorted. IsTrue (is_rising (entries_of sorted.items))) }
{
    let mut files = files;
    let mut sorted = Vec::new(alloc);
    while let Some((path, bytes)) = files.pop() {
        put_file(&mut sorted, path, bytes)?;
    }
    Ok(sorted)
}

/// The file under the path, where it has at most `max` bytes.
fn read(files: &[(FilePath, Vec<u8>)], path: &FilePath, max: usize) -> Result<Got, NoMemory>
    ensures got { IfOk result (Reads (files_of (entries_of files.now) path.now) max) }
    ensures bound { IfOk result (IsWithin max) }
{
    match find(files, path) {
        None => Ok(Got::Absent),
        Some(i) if files[i].1.len() > max => Ok(Got::Long),
        Some(i) => Ok(Got::Bytes(files[i].1.clone()?)),
    }
}

/// A disk that begins with these files.
fn begin(alloc: Global, files: Vec<(FilePath, Vec<u8>)>) -> Result<MemDisk, NoMemory>
    requires { IsTrue (is_rising (entries_of files.items)) }
    ensures start { IfOk result (λ disk. disk.start ≡ entries_of files.items) }
    ensures entries { IfOk result (λ disk. disk.entries ≡ entries_of files.items) }
    ensures log { IfOk result (λ disk. disk.log ≡ []) }
    ensures calls { IfOk result (λ disk. disk.calls ≡ no_calls []) }
    ensures asked { IfOk result (λ disk. disk.asked ≡ 0) }
    ensures held { IfOk result (λ disk. IsFalse disk.held) }
    ensures stands { IfOk result (λ disk. IsDurable (files_of disk.entries) (view_of disk)) }
{
    Ok(MemDisk {
        start: copy_files(alloc, &files)?,
        files,
        log: Vec::new(alloc),
        calls: CallLog::new(Vec::new(alloc)),
        asked: 0,
        is_held: false,
    })
}

impl MemDisk {
    /// A disk with these files, which are its only image, and not held. Where a path is there twice, the first
    /// file counts.
    pub fn new(alloc: Global, files: Vec<(FilePath, Vec<u8>)>) -> Result<MemDisk, NoMemory>
        ensures files { IfOk result (λ disk. (path : Text) → files_of disk.entries path ≡ files_of (entries_of files.items) path) }
        ensures start { IfOk result (λ disk. disk.start ≡ disk.entries) }
        ensures log { IfOk result (λ disk. disk.log ≡ []) }
        ensures calls { IfOk result (λ disk. disk.calls ≡ no_calls []) }
        ensures asked { IfOk result (λ disk. disk.asked ≡ 0) }
        ensures held { IfOk result (λ disk. IsFalse disk.held) }
        ensures stands { IfOk result (λ disk. IsDurable (files_of disk.entries) (view_of disk)) }
    {
        begin(alloc, in_order(alloc, files)?)
    }

    /// The calls with these numbers, from 0, fail from now on, in place of those given before.
    pub fn fail_at(&mut self, calls: Vec<u64>)
        ensures { self.new ≡ record self.old { calls = record self.old.calls { failing = calls.items } } }
    {
        self.calls.fail_at(calls);
    }

    /// The files in rising order of their paths.
    pub fn files(&self) -> &[(FilePath, Vec<u8>)]
        ensures files { entries_of result.now ≡ self.now.entries }
        ensures shown { (view_of self.now).files ≡ files_of self.now.entries }
        ensures rising { IsTrue (is_rising self.now.entries) }
    {
        &self.files
    }

    /// How many calls of the disk were made, also those that changed nothing or failed.
    pub fn steps(&self) -> u64
        ensures { result ≡ self.now.calls.made }
    {
        self.calls.made()
    }

    /// The disk as a crash after the first `moment` calls leaves it: the files at the last sync,
    /// with those of the later steps that are picked, and not held. A crash since any moment up to
    /// this one may have left these files.
    pub fn crash(&self, moment: u64, pick: Pick) -> Result<MemDisk, NoMemory>
        requires { moment ≤ self.now.calls.made }
        ensures files { IfOk result (λ disk. disk.entries ≡ picked pick self.now.start (before moment self.now.log)) }
        ensures image { IfOk result (λ disk. Images (files_of self.now.start) (before moment self.now.log) (files_of disk.entries)) }
        ensures left { IfOk result (λ disk. (t : ℕ) → t ≤ moment → (view_of self.now).left_since t (files_of disk.entries)) }
        ensures start { IfOk result (λ disk. disk.start ≡ disk.entries) }
        ensures log { IfOk result (λ disk. disk.log ≡ []) }
        ensures calls { IfOk result (λ disk. disk.calls ≡ no_calls []) }
        ensures asked { IfOk result (λ disk. disk.asked ≡ 0) }
        ensures held { IfOk result (λ disk. IsFalse disk.held) }
        ensures stands { IfOk result (λ disk. IsDurable (files_of disk.entries) (view_of disk)) }
    {
        let alloc = *self.files.allocator();
        begin(alloc, left_at(alloc, &self.start, &self.log, moment, pick)?)
    }

    /// One call that changes nothing.
    fn rest(&mut self) -> Result<(), Failed>
        ensures recorded { IsRecorded self.old }
        ensures rested { self.new ≡ rested self.old }
        ensures rests { Rests (view_of self.old) (view_of self.new) }
        ensures fails { IsErr result ↔ Contains self.old.calls.failing self.old.calls.made }
        ensures cause { HasCause self.old.calls.faults self.new.calls.faults (IsErr result) }
    {
        self.calls.call()
    }

    /// One call that names a limit and changes nothing.
    fn ask(&mut self, max: usize) -> Result<(), Failed>
        ensures recorded { IsRecorded self.old }
        ensures asked { self.new ≡ asked_up_to max self.old }
        ensures rests { Rests (view_of self.old) (view_of self.new) }
        ensures fails { IsErr result ↔ Contains self.old.calls.failing self.old.calls.made }
        ensures cause { HasCause self.old.calls.faults self.new.calls.faults (IsErr result) }
    {
        self.asked = self.asked.saturating_add(max as u128);
        self.rest()
    }

    /// One call that does what the act says, where there is memory for both.
    fn make(&mut self, act: Result<Act, NoMemory>) -> Result<(), DiskFault>
        ensures recorded { IsRecorded self.old }
        ensures did { OnOk result (MatchResult act (λ act. self.new ≡ did (act_of act) self.old) (λ _. ⊥)) }
        ensures number { OnOk result (self.old.calls.made < 2 ^ 64 - 1) }
        ensures rested { OnErr result (self.new ≡ rested self.old) }
        ensures fails { result ≡ Err DiskFault.Failed ↔ Contains self.old.calls.failing self.old.calls.made }
        ensures cause { HasCause self.old.calls.faults self.new.calls.faults (result ≡ Err DiskFault.Failed) }
    {
        let number = self.calls.made();
        self.calls.call()?;
        record(&mut self.files, &mut self.log, number, act?)?;
        Ok(())
    }
}

impl Disk for MemDisk {
    ghost meaning = { record { tells = Unit {0}; view = view_of; faults = λ disk. disk.calls.faults; calls = λ disk. disk.calls.made; asked = λ disk. disk.asked; held = λ disk. disk.held } };

    ghost sound = { λ disk told. view_sound disk };

    fn hold(&mut self) -> Result<(), DiskFault>
        ensures gives { OnOk result (self.new ≡ taken self.old) }
        ensures rested { OnErr result (self.new ≡ rested self.old) }
        ensures fails { result ≡ Err DiskFault.Failed ↔ Contains self.old.calls.failing self.old.calls.made }
        ensures rests { Unit {0} → Rests (view_of self.old) (view_of self.new) }
        ensures taken { OnOk result (IsTrue self.new.held) }
        ensures kept { IsTrue self.old.held → IsTrue self.new.held }
        ensures counted { self.new.calls.made ≡ counted self.old.calls.made }
        ensures later { self.old.calls.made ≤ self.new.calls.made }
        ensures asked { self.new.asked ≡ self.old.asked }
        ensures cause { HasCause self.old.calls.faults self.new.calls.faults (result ≡ Err DiskFault.Failed) }
    {
        self.rest()?;
        self.is_held = true;
        Ok(())
    }

    fn list(&mut self, dir: &FilePath, max: usize) -> Result<Listed, DiskFault>
        ensures asks { self.new ≡ asked_up_to max self.old }
        ensures fails { result ≡ Err DiskFault.Failed ↔ Contains self.old.calls.failing self.old.calls.made }
        ensures rests { Unit {0} → Rests (view_of self.old) (view_of self.new) }
        ensures listed { IfOk result (λ listed. Unit {0} → Lists (view_of self.old).files dir.now max listed) }
        ensures bound { IfOk result (IsShort max) }
        ensures held { self.new.held ≡ self.old.held }
        ensures counted { self.new.calls.made ≡ counted self.old.calls.made }
        ensures later { self.old.calls.made ≤ self.new.calls.made }
        ensures asked { self.new.asked ≡ with_limit max self.old.asked }
        ensures cause { HasCause self.old.calls.faults self.new.calls.faults (result ≡ Err DiskFault.Failed) }
    {
        self.ask(max)?;
        Ok(list(*self.files.allocator(), &self.files, dir, max)?)
    }

    fn read(&mut self, path: &FilePath, max: usize) -> Result<Got, DiskFault>
        ensures asks { self.new ≡ asked_up_to max self.old }
        ensures fails { result ≡ Err DiskFault.Failed ↔ Contains self.old.calls.failing self.old.calls.made }
        ensures rests { Unit {0} → Rests (view_of self.old) (view_of self.new) }
        ensures got { IfOk result (λ got. Unit {0} → Reads ((view_of self.old).files path.now) max got) }
        ensures bound { IfOk result (IsWithin max) }
        ensures held { self.new.held ≡ self.old.held }
        ensures counted { self.new.calls.made ≡ counted self.old.calls.made }
        ensures later { self.old.calls.made ≤ self.new.calls.made }
        ensures asked { self.new.asked ≡ with_limit max self.old.asked }
        ensures cause { HasCause self.old.calls.faults self.new.calls.faults (result ≡ Err DiskFault.Failed) }
    {
        self.ask(max)?;
        Ok(read(&self.files, path, max)?)
    }

    fn write(&mut self, path: &FilePath, bytes: &[u8]) -> Result<(), DiskFault>
        ensures did { OnOk result (self.new ≡ did (Write path.now bytes.now) self.old) }
        ensures rested { OnErr result (self.new ≡ rested self.old) }
        ensures fails { result ≡ Err DiskFault.Failed ↔ Contains self.old.calls.failing self.old.calls.made }
        ensures steps { Unit {0} → Steps (Writes path.now) (view_of self.old) (view_of self.new) }
        ensures made { OnOk result (Unit {0} → IsMade (Writes path.now) (put (view_of self.old).files path.now (Some bytes.now)) (view_of self.old) (view_of self.new)) }
        ensures held { self.new.held ≡ self.old.held }
        ensures counted { self.new.calls.made ≡ counted self.old.calls.made }
        ensures later { self.old.calls.made ≤ self.new.calls.made }
        ensures asked { self.new.asked ≡ self.old.asked }
        ensures cause { HasCause self.old.calls.faults self.new.calls.faults (result ≡ Err DiskFault.Failed) }
    {
        let act = written(*self.files.allocator(), path, bytes);
        self.make(act)
    }

    fn rename(&mut self, from: &FilePath, to: &FilePath) -> Result<(), DiskFault>
        ensures did { OnOk result (self.new ≡ did (Rename from.now to.now) self.old) }
        ensures rested { OnErr result (self.new ≡ rested self.old) }
        ensures fails { result ≡ Err DiskFault.Failed ↔ Contains self.old.calls.failing self.old.calls.made }
        ensures steps { Unit {0} → Steps (Moves from.now to.now) (view_of self.old) (view_of self.new) }
        ensures made { OnOk result (Unit {0} → IsMade (Moves from.now to.now) (moved from.now to.now (view_of self.old).files) (view_of self.old) (view_of self.new)) }
        ensures held { self.new.held ≡ self.old.held }
        ensures counted { self.new.calls.made ≡ counted self.old.calls.made }
        ensures later { self.old.calls.made ≤ self.new.calls.made }
        ensures asked { self.new.asked ≡ self.old.asked }
        ensures cause { HasCause self.old.calls.faults self.new.calls.faults (result ≡ Err DiskFault.Failed) }
    {
        let act = renamed(*self.files.allocator(), from, to);
        self.make(act)
    }

    fn remove(&mut self, path: &FilePath) -> Result<(), DiskFault>
        ensures did { OnOk result (self.new ≡ did (Remove path.now) self.old) }
        ensures rested { OnErr result (self.new ≡ rested self.old) }
        ensures fails { result ≡ Err DiskFault.Failed ↔ Contains self.old.calls.failing self.old.calls.made }
        ensures steps { Unit {0} → Steps (Drops path.now) (view_of self.old) (view_of self.new) }
        ensures made { OnOk result (Unit {0} → IsMade (Drops path.now) (put (view_of self.old).files path.now None) (view_of self.old) (view_of self.new)) }
        ensures held { self.new.held ≡ self.old.held }
        ensures counted { self.new.calls.made ≡ counted self.old.calls.made }
        ensures later { self.old.calls.made ≤ self.new.calls.made }
        ensures asked { self.new.asked ≡ self.old.asked }
        ensures cause { HasCause self.old.calls.faults self.new.calls.faults (result ≡ Err DiskFault.Failed) }
    {
        let act = removed(*self.files.allocator(), path);
        self.make(act)
    }

    fn sync(&mut self) -> Result<(), DiskFault>
        ensures did { OnOk result (self.new ≡ did Sync self.old) }
        ensures rested { OnErr result (self.new ≡ rested self.old) }
        ensures fails { result ≡ Err DiskFault.Failed ↔ Contains self.old.calls.failing self.old.calls.made }
        ensures syncs { Unit {0} → Syncs (view_of self.old) (view_of self.new) }
        ensures only { OnOk result (Unit {0} → Only (view_of self.old).files (view_of self.new)) }
        ensures stay { OnErr result (Unit {0} → Stay (view_of self.old) (view_of self.new)) }
        ensures held { self.new.held ≡ self.old.held }
        ensures counted { self.new.calls.made ≡ counted self.old.calls.made }
        ensures later { self.old.calls.made ≤ self.new.calls.made }
        ensures asked { self.new.asked ≡ self.old.asked }
        ensures cause { HasCause self.old.calls.faults self.new.calls.faults (result ≡ Err DiskFault.Failed) }
    {
        self.make(Ok(Act::Sync))
    }
}
