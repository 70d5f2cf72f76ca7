//! What the calls of a disk in memory answer.

use crate::{Disk, DiskFault, Got, Listed, MemDisk};
use gopass_base::FilePath;
use std::test::Fail;

fn path(rt: &HostRuntime, text: &str) -> Result<FilePath, Fail> {
    Ok(FilePath::read(rt.alloc(), text)?)
}

fn disk(rt: &HostRuntime) -> Result<MemDisk, Fail> {
    let mut files = Vec::new(rt.alloc());
    files.push((path(rt, "r/b")?, b"two".to_vec(rt.alloc())?))?;
    files.push((path(rt, "r/a")?, b"one".to_vec(rt.alloc())?))?;
    files.push((path(rt, "q")?, Vec::new(rt.alloc())))?;
    Ok(MemDisk::new(rt.alloc(), files)?)
}

/// The paths of the files, behind one another.
fn paths_of(rt: &HostRuntime, disk: &MemDisk) -> Result<String, Fail> {
    let mut texts = String::new(rt.alloc());
    for (path, bytes) in disk.files() {
        if bytes.len() >= 4 {
            return Err(Fail::from("too long"));
        }
        texts.push_str(path.text())?;
    }
    Ok(texts)
}

#[test]
fn files_stand_in_order(rt: HostRuntime) -> Result<(), Fail> {
    let disk = disk(&rt)?;
    assert!(rt; paths_of(&rt, &disk)?.as_str() == "qr/ar/b");
    Ok(())
}

/// Whether the file is read with these bytes.
fn gives(disk: &mut MemDisk, path: &FilePath, max: usize, bytes: &[u8]) -> bool {
    match disk.read(path, max) {
        Ok(Got::Bytes(got)) => got.as_slice() == bytes,
        _ => false,
    }
}

fn is_long(disk: &mut MemDisk, path: &FilePath, max: usize) -> bool {
    matches!(disk.read(path, max), Ok(Got::Long))
}

fn is_absent(disk: &mut MemDisk, path: &FilePath, max: usize) -> bool {
    matches!(disk.read(path, max), Ok(Got::Absent))
}

/// Whether a file, less than it, and no file are read.
fn is_read(rt: &HostRuntime, disk: &mut MemDisk) -> Result<bool, Fail> {
    let two = path(rt, "r/b")?;
    let none = path(rt, "r")?;
    Ok(gives(disk, &two, 3, b"two") && is_long(disk, &two, 2) && is_absent(disk, &none, 3))
}

#[test]
fn a_read_gives_the_file_up_to_its_limit(rt: HostRuntime) -> Result<(), Fail> {
    let mut disk = disk(&rt)?;
    assert!(rt; is_read(&rt, &mut disk)?);
    assert_eq!(rt; disk.steps(), 3);
    Ok(())
}

/// The paths, each with a line feed behind it.
fn on_lines(rt: &HostRuntime, paths: &[FilePath]) -> Result<String, Fail> {
    let mut texts = String::new(rt.alloc());
    for path in paths {
        texts.push_str(path.text())?;
        texts.push('\n')?;
    }
    Ok(texts)
}

/// The paths of a listing, each with a line feed behind it, or `many`.
fn listed(
    rt: &HostRuntime,
    disk: &mut MemDisk,
    dir: &FilePath,
    max: usize,
) -> Result<String, Fail> {
    match disk.list(dir, max)? {
        Listed::Many => Ok(String::from_str(rt.alloc(), "many")?),
        Listed::All(paths) => on_lines(rt, &paths),
    }
}

/// Whether the listing has these paths.
fn lists(
    rt: &HostRuntime,
    disk: &mut MemDisk,
    dir: &str,
    max: usize,
    paths: &str,
) -> Result<bool, Fail> {
    let dir = path(rt, dir)?;
    Ok(listed(rt, disk, &dir, max)?.as_str() == paths)
}

/// A disk with empty files under these paths.
fn empty_files(rt: &HostRuntime, texts: &[&str]) -> Result<MemDisk, Fail> {
    let mut files = Vec::new(rt.alloc());
    for text in texts {
        files.push((path(rt, text)?, Vec::new(rt.alloc())))?;
    }
    Ok(MemDisk::new(rt.alloc(), files)?)
}

/// Directories, the most paths that are wanted, and what is listed.
const LISTS: &[(&str, usize, &str)] = &[
    ("r", 9, "r/.a\nr/a.b\nr/a/.gitx\nr/a/x\nr/b\n"),
    ("r", 5, "r/.a\nr/a.b\nr/a/.gitx\nr/a/x\nr/b\n"),
    ("r", 4, "many"),
    ("r/a", 2, "r/a/.gitx\nr/a/x\n"),
    ("r/.git", 1, "r/.git/d\n"),
    ("r/b", 0, ""),
    ("q", 0, ""),
];

#[test]
fn a_listing_has_the_paths_below_a_directory(rt: HostRuntime) -> Result<(), Fail> {
    let texts = [
        "r/b",
        "r/a/x",
        "r/a.b",
        "rr/c",
        "r",
        "r/.git/d",
        "r/a/.git/e",
        "r/a/.gitx",
        "r/.a",
    ];
    let mut disk = empty_files(&rt, &texts)?;
    for (dir, max, paths) in LISTS {
        assert!(rt; lists(&rt, &mut disk, dir, *max, paths)?, "{dir} {max}");
    }
    assert_eq!(rt; disk.steps(), 7);
    Ok(())
}

/// The disk, whose second call is to fail.
fn failing(rt: &HostRuntime) -> Result<MemDisk, Fail> {
    let calls = vec![in rt.alloc(); 1u64]?;
    let mut disk = disk(rt)?;
    disk.fail_at(calls);
    Ok(disk)
}

/// Whether some of the paths below a directory are listed.
fn is_listed(rt: &HostRuntime, disk: &mut MemDisk) -> Result<bool, Fail> {
    let dir = path(rt, "r")?;
    Ok(matches!(disk.list(&dir, 3), Ok(Listed::All(_))))
}

#[test]
fn to_hold_is_a_call(rt: HostRuntime) -> Result<(), Fail> {
    let mut disk = failing(&rt)?;
    assert_eq!(rt; disk.hold(), Ok(()));
    assert_eq!(rt; disk.hold(), Err(DiskFault::Failed));
    assert!(rt; is_listed(&rt, &mut disk)?);
    assert_eq!(rt; disk.steps(), 3);
    Ok(())
}

/// How a reading fails, where it does.
fn read_fault(rt: &HostRuntime, disk: &mut MemDisk) -> Result<Option<DiskFault>, Fail> {
    let path = path(rt, "q")?;
    Ok(disk.read(&path, 3).err())
}

fn second_fails(rt: &HostRuntime, disk: &mut MemDisk) -> Result<bool, Fail> {
    let first = read_fault(rt, disk)?;
    let second = read_fault(rt, disk)?;
    let third = read_fault(rt, disk)?;
    Ok(first.is_none() && second == Some(DiskFault::Failed) && third.is_none())
}

#[test]
fn the_given_calls_fail(rt: HostRuntime) -> Result<(), Fail> {
    let mut disk = failing(&rt)?;
    assert!(rt; second_fails(&rt, &mut disk)?);
    assert_eq!(rt; disk.steps(), 3);
    Ok(())
}

fn is_send<T: Send>() {}

/// That a disk and what it gives may go to another thread is told by the types.
#[test]
fn disks_are_send(_: HostRuntime) -> Result<(), Fail> {
    is_send::<MemDisk>();
    is_send::<Got>();
    is_send::<Listed>();
    Ok(())
}
