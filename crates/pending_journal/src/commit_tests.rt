//! What a commit does, call for call.

use crate::tests::{File, change, committed, crashed, disk_after, failing, has, opened};
use crate::{Change, CommitFault, Vault};
use disk_model::{MemDisk, Pick};
use std::alloc::Global;
use std::process::Abort;
use std::test::*;

const FILES: &[File] = &[("root/a.gpg", "old"), ("root/b.gpg", "b")];

/// The disk of an opening with a commit of a put and a drop behind it.
fn used(alloc: Global) -> Result<MemDisk, Fail> {
    let change = change(alloc, &[("root/a.gpg", "new")], &["root/b.gpg"])?;
    disk_after(alloc, FILES, &change)
}

/// What a crash leaves after some of the ten calls where all steps are picked.
const MOMENTS: &[(u64, &str)] = &[
    (6, "root/a.gpg=old root/b.gpg=b "),
    (
        9,
        "root/.gopass-journal.new=journal 1\nput\troot/a.gpg\ndrop\troot/b.gpg\nend\n root/.gopass-stage/000000=new root/a.gpg=old root/b.gpg=b ",
    ),
    (
        11,
        "root/.gopass-journal=journal 1\nput\troot/a.gpg\ndrop\troot/b.gpg\nend\n root/.gopass-stage/000000=new root/a.gpg=old root/b.gpg=b ",
    ),
    (
        12,
        "root/.gopass-journal=journal 1\nput\troot/a.gpg\ndrop\troot/b.gpg\nend\n root/a.gpg=new root/b.gpg=b ",
    ),
    (
        14,
        "root/.gopass-journal=journal 1\nput\troot/a.gpg\ndrop\troot/b.gpg\nend\n root/a.gpg=new ",
    ),
    (15, "root/a.gpg=new "),
];

/// Whether a crash at this moment leaves these files, where all steps are picked.
fn leaves(alloc: Global, disk: &MemDisk, moment: u64, files: &str) -> Result<bool, Fail> {
    has(alloc, &crashed(alloc, disk, moment, Pick::All)?, files)
}

fn is_ten_calls(rt: &impl Abort, alloc: Global, disk: &MemDisk) -> Result<(), Fail> {
    assert!(rt; disk.steps() == 16);
    for (moment, files) in MOMENTS {
        assert!(rt; leaves(alloc, disk, *moment, files)?, "{moment}");
    }
    Ok(())
}

#[test]
fn a_commit_of_a_put_and_a_drop_is_ten_calls(rt: HostRuntime) -> Result<(), Fail> {
    is_ten_calls(&rt, rt.alloc(), &used(rt.alloc())?)
}

/// What four commits in a row answer, and the count after each.
const COUNTS: &[(Result<(), CommitFault>, u64)] = &[
    (Ok(()), 1),
    (Ok(()), 2),
    (Err(CommitFault::Disk), 2),
    (Err(CommitFault::Stuck), 2),
];

fn counts(rt: &impl Abort, vault: &mut Vault<MemDisk>, change: &Change) -> Result<(), Fail> {
    for (answer, commits) in COUNTS {
        assert!(rt; committed(vault, change)? == *answer);
        assert!(rt; vault.commits() == *commits);
        assert!(rt; vault.is_stuck() == answer.is_err());
    }
    Ok(())
}

/// The calls of an opening and of these commits.
fn calls_of(rt: &impl Abort, alloc: Global, change: &Change) -> Result<u64, Fail> {
    let mut vault = opened(alloc, failing(alloc, FILES, 24)?)?;
    counts(rt, &mut vault, change)?;
    Ok(vault.into_disk().steps())
}

#[test]
fn commits_are_counted(rt: HostRuntime) -> Result<(), Fail> {
    let change = change(rt.alloc(), &[("root/a.gpg", "1")], &[])?;
    assert!(rt; calls_of(&rt, rt.alloc(), &change)? == 25);
    Ok(())
}
