//! Openings that are refused, and what the others take away.

use crate::tests::{File, crashed, disk, has, has_after, opened, opening, shown};
use crate::{Vault, VaultFault, VaultOpened};
use disk_model::{MemDisk, Pick};
use std::alloc::Global;
use std::test::*;

/// Journals that do not read, each with its first bad line.
const BAD: &[(&str, usize)] = &[
    ("", 1),
    ("journal 1\nend", 2),
    ("journal 1\nput\troot/.gopass-stage/000000\nend\n", 2),
    ("journal 1\nput\troot/a.gpg\ndrop\troot/a.gpg\nend\n", 3),
];

/// The line of the journal for which the opening is refused, and the disk that it hands back.
fn refused(alloc: Global, disk: MemDisk) -> Result<(usize, MemDisk), Fail> {
    match opening(alloc, disk)? {
        VaultOpened::Refused(VaultFault::BadJournal(line), disk) => Ok((line, disk)),
        VaultOpened::Refused(fault, _) => Err(Fail::from(fault)),
        VaultOpened::Ready(_) => Err(Fail::from("ready")),
    }
}

/// A disk with this journal among other files.
fn with_journal(alloc: Global, text: &str) -> Result<MemDisk, Fail> {
    disk(
        alloc,
        &[
            ("root/.gopass-journal", text),
            ("root/.gopass-journal.new", "x"),
            ("root/.gopass-stage/000000", "new"),
            ("root/a.gpg", "old"),
            ("root/b.gpg", "b"),
        ],
    )
}

/// Whether a crash of the disk that was handed back is refused for this line too, and keeps these
/// files.
fn is_refused_again(
    alloc: Global,
    disk: &MemDisk,
    bad_line: usize,
    files: &str,
) -> Result<bool, Fail> {
    let (line, left) = refused(alloc, crashed(alloc, disk, 3, Pick::Even)?)?;
    Ok(has(alloc, &left, files)? && line == bad_line)
}

/// Whether the disk with these files is refused for this line after three calls, and keeps them.
fn is_refused(alloc: Global, disk: MemDisk, bad_line: usize, files: &str) -> Result<bool, Fail> {
    let (line, disk) = refused(alloc, disk)?;
    let is_same = has_after(alloc, &disk, 3, files)?;
    Ok(is_refused_again(alloc, &disk, bad_line, files)? && is_same && line == bad_line)
}

/// Whether the disk with this journal is refused for this line, and keeps its files.
fn refuses(alloc: Global, text: &str, bad_line: usize) -> Result<bool, Fail> {
    let disk = with_journal(alloc, text)?;
    let before = shown(alloc, &disk)?;
    is_refused(alloc, disk, bad_line, before.as_str())
}

#[test]
fn a_journal_that_does_not_read_refuses_the_opening(rt: HostRuntime) -> Result<(), Fail> {
    for (text, bad_line) in BAD {
        assert!(rt; refuses(rt.alloc(), text, *bad_line)?, "{text}");
    }
    Ok(())
}

const JOURNAL: &str = "journal 1\nput\troot/a.gpg\nput\tw/c\ndrop\troot/b.gpg\nend\n";

type Found = (&'static [File<'static>], u64, &'static str);

/// Disks as they are found, the calls of their opening, and the files that it leaves.
const FOUND: &[Found] = &[
    (&[], 6, ""),
    (&[("root/a.gpg", "a")], 6, "root/a.gpg=a "),
    (
        &[
            ("root/.gopass-journal", "journal 1\nend\n"),
            ("root/a.gpg", "a"),
        ],
        9,
        "root/a.gpg=a ",
    ),
    (
        &[
            ("root/.gopass-journal.new", "journal 1\nput"),
            ("root/.gopass-stage/000000", "x"),
            ("root/.gopass-stage/y/z", "x"),
            ("root/.gopass-stage", "kept"),
            ("root/.gopass-stages/000000", "kept"),
            ("root/a/.gopass-journal", "kept"),
        ],
        8,
        "root/.gopass-stage=kept root/.gopass-stages/000000=kept root/a/.gopass-journal=kept ",
    ),
    (
        &[
            ("root/.gopass-journal", JOURNAL),
            ("root/.gopass-stage/000000", "new a"),
            ("root/.gopass-stage/000001", "new c"),
            ("root/.gopass-stage/000002", "left"),
            ("root/a.gpg", "a"),
            ("root/b.gpg", "b"),
        ],
        13,
        "root/a.gpg=new a w/c=new c ",
    ),
    (
        &[
            ("root/.gopass-journal", JOURNAL),
            ("root/.gopass-stage/000001", "new c"),
            ("root/a.gpg", "new a"),
        ],
        12,
        "root/a.gpg=new a w/c=new c ",
    ),
    (
        &[
            ("root/.gopass-journal", JOURNAL),
            ("root/.gopass-journal.new", "x"),
            ("root/a.gpg", "new a"),
            ("root/b.gpg", "b"),
            ("w/c", "new c"),
        ],
        12,
        "root/a.gpg=new a w/c=new c ",
    ),
];

/// The disk of the vault, where nothing was committed there.
fn disk_of_new(vault: Vault<MemDisk>) -> Result<MemDisk, Fail> {
    if vault.root().text() != "root" || vault.commits() != 0 || vault.is_stuck() {
        return Err(Fail::from("not as opened"));
    }
    Ok(vault.into_disk())
}

/// Whether a crash of the disk after these calls opens in six calls, and has these files.
fn opens_again(alloc: Global, disk: &MemDisk, steps: u64, files: &str) -> Result<bool, Fail> {
    let again = opened(alloc, crashed(alloc, disk, steps, Pick::None)?)?;
    has_after(alloc, &again.into_disk(), 6, files)
}

/// Whether the disk has these files after these calls, and opens with them again.
fn is_whole(alloc: Global, disk: &MemDisk, steps: u64, files: &str) -> Result<bool, Fail> {
    Ok(has_after(alloc, disk, steps, files)? && opens_again(alloc, disk, steps, files)?)
}

/// Whether the opening of a disk with these files makes it whole in these calls.
fn makes_whole(alloc: Global, files: &[File], steps: u64, left: &str) -> Result<bool, Fail> {
    let vault = opened(alloc, disk(alloc, files)?)?;
    is_whole(alloc, &disk_of_new(vault)?, steps, left)
}

#[test]
fn an_opening_makes_what_it_finds_whole(rt: HostRuntime) -> Result<(), Fail> {
    for (files, steps, left) in FOUND {
        assert!(rt; makes_whole(rt.alloc(), files, *steps, left)?, "{left}");
    }
    Ok(())
}
