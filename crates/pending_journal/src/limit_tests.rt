//! A change of as many steps as one holds at most.

use crate::tests::{change, disk, has_after, opened, path};
use crate::{Change, ChangeAddFault};
use disk_model::MemDisk;
use gopass_base::FilePath;
use std::alloc::Global;
use std::test::*;

/// The path of a file in the root directory.
fn numbered(alloc: Global, kind: &str, number: usize) -> Result<FilePath, Fail> {
    path(alloc, &format!(in alloc; "root/{kind}{number}.gpg")?)
}

fn add_puts(alloc: Global, change: &mut Change) -> Result<(), Fail> {
    for number in 0..8_200 {
        change.put(numbered(alloc, "p", number)?, Vec::new(alloc))?;
    }
    Ok(())
}

fn add_drops(alloc: Global, change: &mut Change) -> Result<(), Fail> {
    for number in 0..8_200 {
        change.erase(numbered(alloc, "d", number)?)?;
    }
    Ok(())
}

/// A change of 8,200 puts, and as many drops after them.
fn full(alloc: Global) -> Result<Change, Fail> {
    let mut change = change(alloc, &[], &[])?;
    add_puts(alloc, &mut change)?;
    add_drops(alloc, &mut change)?;
    Ok(change)
}

/// Whether the change takes no drop more.
fn is_full(alloc: Global, change: &mut Change) -> Result<bool, Fail> {
    let answer = change.erase(path(alloc, "root/more.gpg")?);
    Ok(answer == Err(ChangeAddFault::Long))
}

/// A disk on which the change was sealed, with some of the files that it stages and drops.
fn sealed(alloc: Global, change: &Change) -> Result<MemDisk, Fail> {
    let files = [
        (
            "root/.gopass-journal",
            str::from_utf8(&change.text).unwrap_or(""),
        ),
        ("root/.gopass-stage/000009", "nine"),
        ("root/.gopass-stage/008199", "last"),
        ("root/.gopass-stage/008200", "left"),
        ("root/d8199.gpg", "dropped"),
    ];
    disk(alloc, &files)
}

/// A disk on which the greatest change was sealed.
fn sealed_full(alloc: Global) -> Result<MemDisk, Fail> {
    let mut change = full(alloc)?;
    if is_full(alloc, &mut change)? {
        sealed(alloc, &change)
    } else {
        Err(Fail::from("not full"))
    }
}

/// Whether the change is carried out in a call for each line and ten.
fn is_carried_out(alloc: Global, disk: MemDisk) -> Result<bool, Fail> {
    let disk = opened(alloc, disk)?.into_disk();
    let files = "root/p8199.gpg=last root/p9.gpg=nine ";
    has_after(alloc, &disk, 6 + 3 + 16_400 + 1, files)
}

#[test]
fn a_journal_of_16400_lines_is_carried_out(rt: HostRuntime) -> Result<(), Fail> {
    let disk = sealed_full(rt.alloc())?;
    assert!(rt; is_carried_out(rt.alloc(), disk)?);
    Ok(())
}
