//! Files of a disk by their paths.

use crate::fault::{Fault, same_bytes};
use disk_model::{MemDisk, Pick};
use gopass_base::FilePath;
use std::alloc::Global;

/// A path and the bytes under it.
pub(crate) type File = (FilePath, Vec<u8>);

pub(crate) fn path(alloc: Global, word: &str) -> Result<FilePath, Fault> {
    FilePath::read(alloc, word).map_err(|_| Fault::BadLine)
}

/// The paths of a line.
pub(crate) fn paths(alloc: Global, line: &str) -> Result<Vec<FilePath>, Fault> {
    let mut paths = Vec::new(alloc);
    for word in line.split_whitespace() {
        paths.push(path(alloc, word)?)?;
    }
    Ok(paths)
}

/// The bytes of the file under the path, where there is one.
pub(crate) fn file_at<'a>(disk: &'a MemDisk, path: &FilePath) -> Option<&'a [u8]> {
    for (at, bytes) in disk.files() {
        if at == path {
            return Some(bytes);
        }
    }
    None
}

fn add_copies(files: &mut Vec<File>, alloc: Global, more: &[File]) -> Result<(), Fault> {
    for (path, bytes) in more {
        files.push((path.copy(alloc)?, bytes.to_vec(alloc)?))?;
    }
    Ok(())
}

/// Whether each path lies after the one before it.
fn is_rising(files: &[File]) -> bool {
    let mut last: Option<&FilePath> = None;
    for (path, _) in files {
        if last.is_some_and(|last| path <= last) {
            return false;
        }
        last = Some(path);
    }
    true
}

/// A disk with the files of this one and with these. Of files with one path the last of these counts.
/// Thousands of files are put in rising order, since in any other it takes long.
pub(crate) fn with_files(disk: &MemDisk, alloc: Global, files: &[File]) -> Result<MemDisk, Fault> {
    let mut all = Vec::new(alloc);
    add_copies(&mut all, alloc, files)?;
    if !is_rising(files) {
        all.reverse();
    }
    add_copies(&mut all, alloc, disk.files())?;
    Ok(MemDisk::new(alloc, all)?)
}

/// The disk with the same files, all of them durable, whose calls count from 0.
pub(crate) fn begun(disk: &MemDisk) -> Result<MemDisk, Fault> {
    Ok(disk.crash(disk.steps(), Pick::All)?)
}

/// The file under the path with these bytes after its own.
pub(crate) fn longer(
    alloc: Global,
    disk: &MemDisk,
    path: &FilePath,
    more: &[u8],
) -> Result<Vec<File>, Fault> {
    let Some(bytes) = file_at(disk, path) else {
        return Err(Fault::BadLine);
    };
    let mut bytes = bytes.to_vec(alloc)?;
    bytes.extend_from_slice(more)?;
    let mut files = Vec::new(alloc);
    files.push((path.copy(alloc)?, bytes))?;
    Ok(files)
}

/// Adds the disk, where none has its files.
pub(crate) fn add_new(disks: &mut Vec<MemDisk>, disk: MemDisk) -> Result<(), Fault> {
    if !disks.iter().any(|other| other.files() == disk.files()) {
        disks.push(disk)?;
    }
    Ok(())
}

/// The file under the path has these bytes.
pub(crate) fn stands(
    alloc: Global,
    disk: &MemDisk,
    path: &FilePath,
    bytes: &[u8],
) -> Result<(), Fault> {
    match file_at(disk, path) {
        Some(is) => same_bytes(alloc, "the file is", is, bytes),
        None => Err(Fault::Wrong(String::from_str(alloc, "no file")?)),
    }
}

/// No file is under the path.
pub(crate) fn stands_not(alloc: Global, disk: &MemDisk, path: &FilePath) -> Result<(), Fault> {
    match file_at(disk, path) {
        Some(_) => Err(Fault::Wrong(String::from_str(alloc, "a file")?)),
        None => Ok(()),
    }
}

/// Each file of the first disk that the second has not, or has otherwise, is among the paths.
fn changes_at_most(
    alloc: Global,
    one: &MemDisk,
    other: &MemDisk,
    paths: &[FilePath],
) -> Result<(), Fault> {
    for (path, bytes) in one.files() {
        let is_same = file_at(other, path) == Some(bytes.as_slice());
        if !is_same && !paths.contains(path) {
            let text = path.text();
            return Err(Fault::Wrong(format!(in alloc; "changed {text}")?));
        }
    }
    Ok(())
}

/// The files under these paths differ, and no others.
pub(crate) fn changes(
    alloc: Global,
    before: &MemDisk,
    after: &MemDisk,
    paths: &[FilePath],
) -> Result<(), Fault> {
    changes_at_most(alloc, before, after, paths)?;
    changes_at_most(alloc, after, before, paths)?;
    for path in paths {
        if file_at(before, path) == file_at(after, path) {
            let text = path.text();
            return Err(Fault::Wrong(format!(in alloc; "left {text}")?));
        }
    }
    Ok(())
}
