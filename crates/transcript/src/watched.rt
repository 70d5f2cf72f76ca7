//! The disk of a run.

ghost use Rattle.std.specs.Prelude.{IfOk};
ghost use Rattle.disk_model.specs.Listing.{IsShort};
ghost use Rattle.disk_model.specs.Memory.{view_of};

use disk_model::{Disk, DiskFault, Got, Listed, MemDisk};
use gopass_base::{FilePath, NoMemory};
use std::alloc::Global;

/// A disk in memory that counts how often a journal was put in its place, and lists a crowd of files
/// more in the directory `root`. These stand nowhere, since a disk in memory takes minutes for 40,000
/// files.
#[derive(Drop)]
pub(crate) struct Watched {
    pub disk: MemDisk,
    pub crowd: u64,
    pub commits: u64,
}

/// The paths with so many more, where they are at most `max` then.
fn with_more(paths: Vec<FilePath>, more: u64, max: usize) -> Result<Listed, NoMemory>
    ensures { IfOk result (IsShort max) }
{
    let alloc = *paths.allocator();
    let mut paths = paths;
    for number in 0..more {
        paths.push(path_of(alloc, number)?)?;
    }
    if paths.len() > max {
        return Ok(Listed::Many);
    }
    Ok(Listed::All(paths))
}

/// The path of one file more.
fn path_of(alloc: Global, number: u64) -> Result<FilePath, NoMemory> {
    let text = format!(in alloc; "root/.{number}")?;
    FilePath::read(alloc, &text).map_err(|_| NoMemory)
}

impl Disk for Watched {
    ghost meaning = { record { tells = ⊥; view = λ watched. view_of watched.disk; faults = λ watched. watched.disk.calls.faults; calls = λ watched. watched.disk.calls.made; asked = λ watched. watched.disk.asked; held = λ watched. watched.disk.held } };

    ghost sound = { λ watched told. absurd told };

    fn hold(&mut self) -> Result<(), DiskFault> {
        self.disk.hold()
    }

    fn list(&mut self, dir: &FilePath, max: usize) -> Result<Listed, DiskFault> {
        match self.disk.list(dir, max)? {
            Listed::All(paths) if dir.text() == "root" => Ok(with_more(paths, self.crowd, max)?),
            listed => Ok(listed),
        }
    }

    fn read(&mut self, path: &FilePath, max: usize) -> Result<Got, DiskFault> {
        self.disk.read(path, max)
    }

    fn write(&mut self, path: &FilePath, bytes: &[u8]) -> Result<(), DiskFault> {
        self.disk.write(path, bytes)
    }

    fn rename(&mut self, from: &FilePath, to: &FilePath) -> Result<(), DiskFault> {
        self.disk.rename(from, to)?;
        if to.text().ends_with("/.gopass-journal") {
            self.commits = self.commits.saturating_add(1);
        }
        Ok(())
    }

    fn remove(&mut self, path: &FilePath) -> Result<(), DiskFault> {
        self.disk.remove(path)
    }

    fn sync(&mut self) -> Result<(), DiskFault> {
        self.disk.sync()
    }
}
