//! What a vault shows of its files, and what the tests of commits and openings share.

use crate::put::Put;
use crate::{Change, CommitFault, Vault, VaultOpened};
use disk_model::{Disk, Got, Listed, MemDisk, Pick};
use gopass_base::{DirPath, FilePath};
use std::alloc::Global;
use std::process::Abort;
use std::test::*;

/// A path and the bytes of its file.
pub(crate) type File<'a> = (&'a str, &'a str);

pub(crate) const PICKS: &[Pick] = &[Pick::None, Pick::All, Pick::Even, Pick::Torn];

pub(crate) fn path(alloc: Global, text: &str) -> Result<FilePath, Fail> {
    Ok(FilePath::read(alloc, text)?)
}

fn root(alloc: Global) -> Result<DirPath, Fail> {
    Ok(DirPath::read(alloc, "root")?)
}

/// A disk with these files.
pub(crate) fn disk(alloc: Global, files: &[File]) -> Result<MemDisk, Fail> {
    let mut list = Vec::new(alloc);
    for (text, bytes) in files {
        list.push((path(alloc, text)?, bytes.as_bytes().to_vec(alloc)?))?;
    }
    Ok(MemDisk::new(alloc, list)?)
}

/// Each path with its bytes, in their order.
pub(crate) fn shown(alloc: Global, disk: &MemDisk) -> Result<String, Fail> {
    let mut texts = String::new(alloc);
    for (path, bytes) in disk.files() {
        texts.push_str(path.text())?;
        texts.push('=')?;
        texts.push_str(str::from_utf8(bytes).unwrap_or("?"))?;
        texts.push(' ')?;
    }
    Ok(texts)
}

/// A disk with these files, whose call of this number, from 0, fails.
pub(crate) fn failing(alloc: Global, files: &[File], call: u64) -> Result<MemDisk, Fail> {
    let calls = vec![in alloc; call]?;
    let mut disk = disk(alloc, files)?;
    disk.fail_at(calls);
    Ok(disk)
}

/// What a crash leaves.
pub(crate) fn crashed(
    alloc: Global,
    disk: &MemDisk,
    moment: u64,
    pick: Pick,
) -> Result<MemDisk, Fail> {
    if moment > disk.steps() {
        return Err(Fail::from("no such moment"));
    }
    Ok(disk.crash(moment, pick)?)
}

/// The opening of the vault below `root`.
pub(crate) fn opening(alloc: Global, disk: MemDisk) -> Result<VaultOpened<MemDisk>, Fail> {
    Ok(Vault::open(alloc, disk, &root(alloc)?))
}

pub(crate) fn opened(alloc: Global, disk: MemDisk) -> Result<Vault<MemDisk>, Fail> {
    match opening(alloc, disk)? {
        VaultOpened::Ready(vault) => Ok(vault),
        VaultOpened::Refused(fault, _) => Err(Fail::from(fault)),
    }
}

/// Whether the disk has these files and no others.
pub(crate) fn has(alloc: Global, disk: &MemDisk, files: &str) -> Result<bool, Fail> {
    Ok(shown(alloc, disk)?.as_str() == files)
}

/// Whether the disk has these files and no others, after so many calls.
pub(crate) fn has_after(
    alloc: Global,
    disk: &MemDisk,
    steps: u64,
    files: &str,
) -> Result<bool, Fail> {
    Ok(has(alloc, disk, files)? && disk.steps() == steps)
}

/// Whether an opening leaves these files and no others.
pub(crate) fn opens_with(alloc: Global, disk: MemDisk, files: &str) -> Result<bool, Fail> {
    has(alloc, &opened(alloc, disk)?.into_disk(), files)
}

fn add_puts(alloc: Global, change: &mut Change, puts: &[File]) -> Result<(), Fail> {
    for (text, bytes) in puts {
        change.put(path(alloc, text)?, bytes.as_bytes().to_vec(alloc)?)?;
    }
    Ok(())
}

fn add_drops(alloc: Global, change: &mut Change, drops: &[&str]) -> Result<(), Fail> {
    for text in drops {
        change.erase(path(alloc, text)?)?;
    }
    Ok(())
}

/// The change that puts these files and drops these paths.
pub(crate) fn change(alloc: Global, puts: &[File], drops: &[&str]) -> Result<Change, Fail> {
    let mut change = Change::new(alloc, &root(alloc)?)?;
    add_puts(alloc, &mut change, puts)?;
    add_drops(alloc, &mut change, drops)?;
    Ok(change)
}

/// What committing the change answers.
pub(crate) fn committed(
    vault: &mut Vault<MemDisk>,
    change: &Change,
) -> Result<Result<(), CommitFault>, Fail> {
    if vault.root().text() != change.root.text() {
        return Err(Fail::from("another root"));
    }
    Ok(vault.commit(change))
}

/// The disk of the vault, behind the commit of the change.
fn disk_behind(vault: Vault<MemDisk>, change: &Change) -> Result<MemDisk, Fail> {
    let mut vault = vault;
    match committed(&mut vault, change)? {
        Ok(()) => Ok(vault.into_disk()),
        Err(fault) => Err(Fail::from(fault)),
    }
}

/// A disk with these files, on which a vault was opened and the change committed.
pub(crate) fn disk_after(alloc: Global, files: &[File], change: &Change) -> Result<MemDisk, Fail> {
    disk_behind(opened(alloc, disk(alloc, files)?)?, change)
}

/// The paths, each with a line feed behind it.
fn on_lines(alloc: Global, paths: &[FilePath]) -> Result<String, Fail> {
    let mut texts = String::new(alloc);
    for path in paths {
        texts.push_str(path.text())?;
        texts.push('\n')?;
    }
    Ok(texts)
}

/// The paths that the vault lists, each with a line feed behind it, or `many`.
fn listed<D: Disk>(
    alloc: Global,
    vault: &mut Vault<D>,
    dir: &FilePath,
    max: usize,
) -> Result<String, Fail> {
    match vault.list(dir, max)? {
        Listed::Many => Ok(String::from_str(alloc, "many")?),
        Listed::All(paths) => on_lines(alloc, &paths),
    }
}

/// Whether the vault lists these paths below the directory.
fn lists<D: Disk>(
    alloc: Global,
    vault: &mut Vault<D>,
    dir: &str,
    max: usize,
    paths: &str,
) -> Result<bool, Fail> {
    let dir = path(alloc, dir)?;
    Ok(listed(alloc, vault, &dir, max)?.as_str() == paths)
}

/// The vault, where it is stuck behind the commit of the change.
fn stuck_by(vault: Vault<MemDisk>, change: &Change) -> Result<Vault<MemDisk>, Fail> {
    let mut vault = vault;
    match committed(&mut vault, change)? {
        Err(CommitFault::Disk) => Ok(vault),
        _ => Err(Fail::from("not stuck")),
    }
}

/// A vault whose call of number 9 fails, behind the commit of the change.
fn stuck_at_9(alloc: Global, change: &Change) -> Result<Vault<MemDisk>, Fail> {
    let files = [("root/.gopass-stages", "plain"), ("root/a.gpg", "a")];
    stuck_by(opened(alloc, failing(alloc, &files, 9)?)?, change)
}

/// A vault that is stuck with two files in its stage and the new text of a journal.
fn stuck(alloc: Global) -> Result<Vault<MemDisk>, Fail> {
    let puts = [("root/a.gpg", "new"), ("root/c.gpg", "c")];
    stuck_at_9(alloc, &change(alloc, &puts, &[])?)
}

/// How many files the vault's disk has, its own too, and how often it was called.
fn counts(vault: Vault<MemDisk>) -> (usize, u64) {
    let disk = vault.into_disk();
    (disk.files().len(), disk.steps())
}

/// Directories, the most paths that are wanted, and what is listed.
const LISTS: &[(&str, usize, &str)] = &[
    ("root", 5, "root/.gopass-stages\nroot/a.gpg\n"),
    ("root", 2, "root/.gopass-stages\nroot/a.gpg\n"),
    ("root", 1, "many"),
    ("root/.gopass-stage", 0, ""),
];

fn lists_all(rt: &impl Abort, alloc: Global, vault: &mut Vault<MemDisk>) -> Result<(), Fail> {
    for (dir, max, paths) in LISTS {
        assert!(rt; lists(alloc, vault, dir, *max, paths)?, "{dir} {max}");
    }
    Ok(())
}

#[test]
fn a_vault_lists_all_files_but_its_own(rt: HostRuntime) -> Result<(), Fail> {
    let mut vault = stuck(rt.alloc())?;
    lists_all(&rt, rt.alloc(), &mut vault)?;
    let counts = counts(vault);
    assert!(rt; counts == (5, 17));
    Ok(())
}

/// The length of the file that the vault shows under the path, where it has at most five bytes.
fn length_of<D: Disk>(
    alloc: Global,
    vault: &mut Vault<D>,
    text: &str,
) -> Result<Option<usize>, Fail> {
    match vault.read(&path(alloc, text)?, 5)? {
        Got::Bytes(bytes) => Ok(Some(bytes.len())),
        Got::Absent | Got::Long => Ok(None),
    }
}

/// Paths, and the lengths of the files that are shown under them.
const LENGTHS: &[(&str, Option<usize>)] = &[
    ("root/a.gpg", Some(1)),
    ("root/.gopass-stages", Some(5)),
    ("root/c.gpg", None),
    ("root/.gopass-journal", None),
    ("root/.gopass-journal.new", None),
    ("root/.gopass-stage/000000", None),
    ("root/.gopass-stage/000001", None),
];

fn reads_all(rt: &impl Abort, alloc: Global, vault: &mut Vault<MemDisk>) -> Result<(), Fail> {
    for (text, length) in LENGTHS {
        assert!(rt; length_of(alloc, vault, text)? == *length, "{text}");
    }
    Ok(())
}

/// Whether a file that is there is longer than no byte at all.
fn is_long(alloc: Global, vault: &mut Vault<MemDisk>) -> Result<bool, Fail> {
    let path = path(alloc, "root/a.gpg")?;
    Ok(matches!(vault.read(&path, 0), Ok(Got::Long)))
}

#[test]
fn a_vault_reads_all_files_but_its_own(rt: HostRuntime) -> Result<(), Fail> {
    let mut vault = stuck(rt.alloc())?;
    reads_all(&rt, rt.alloc(), &mut vault)?;
    let is_long = is_long(rt.alloc(), &mut vault)?;
    let (_, steps) = counts(vault);
    assert!(rt; is_long);
    assert!(rt; steps == 14);
    Ok(())
}

fn is_send<T: Send>() {}

fn vaults_are_send<D: Disk + Send>() {
    is_send::<Vault<D>>();
    is_send::<VaultOpened<D>>();
}

/// That a vault, where its disk may, and a change may go to another thread is told by the types.
#[test]
fn values_are_send(_: HostRuntime) -> Result<(), Fail> {
    vaults_are_send::<MemDisk>();
    is_send::<Change>();
    is_send::<Put>();
    Ok(())
}
