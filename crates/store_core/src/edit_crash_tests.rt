//! Edits of all kinds on disks that fail, and what crashes leave of them.

use super::*;
use crate::edit_tests::{
    HAD, SEVERAL, SEVERAL_CHANGE, SEVERAL_HAVE, TREE, applied, edit_of, push_disk, push_had,
};
use crate::tests::{failing, store};
use disk_model::{MemDisk, Pick};
use std::test::*;

/// Whether the store has what it had where it is stuck, and what the edit of all kinds makes where not.
fn has_as_told(rt: &HostRuntime, store: &Store<MemDisk>) -> Result<bool, Fail> {
    let mut text = String::new(rt.alloc());
    push_had(rt, &mut text, store)?;
    let has = if store.is_stuck() { HAD } else { SEVERAL_HAVE };
    Ok(text.as_str() == has)
}

/// Tries the edit of all kinds, and answers whether the disk failed, which makes the store stuck.
fn attempt(rt: &HostRuntime, store: &mut Store<MemDisk>) -> Result<bool, Fail> {
    let edit = edit_of(rt.alloc(), SEVERAL)?;
    let failed = match applied(store, &edit)? {
        Ok(()) => false,
        Err(ApplyFault::Disk) => true,
        Err(ApplyFault::NoMemory) => return Err(Fail::from("no memory")),
    };
    if store.is_stuck() != failed || !has_as_told(rt, store)? {
        return Err(Fail::from("a store that it is not"));
    }
    Ok(failed)
}

/// Whether the edit of all kinds failed where the call with this number fails, and the disk then.
fn attempted(rt: &HostRuntime, call: u64) -> Result<(bool, MemDisk), Fail> {
    let mut store = store(rt, failing(rt, TREE, call)?)?;
    let failed = attempt(rt, &mut store)?;
    Ok((failed, store.into_vault().into_disk()))
}

/// Whether a text tells of the disk after the edit of all kinds, and not of that before it.
fn tells_made(text: &str) -> Result<bool, Fail> {
    let mut parts = text.split('\t');
    match (parts.next(), parts.next(), parts.next()) {
        (Some(""), Some(HAD), None) => Ok(false),
        (Some(SEVERAL_CHANGE), Some(SEVERAL_HAVE), None) => Ok(true),
        _ => Err(Fail::from("neither before nor after")),
    }
}

/// Whether the disk is that after the edit of all kinds, where it is opened again.
fn is_made(rt: &HostRuntime, disk: MemDisk) -> Result<bool, Fail> {
    // What an interrupted commit left goes at the opening.
    let disk = store(rt, disk)?.into_vault().into_disk();
    let mut text = String::new(rt.alloc());
    push_disk(rt, &mut text, disk)?;
    tells_made(&text)
}

/// In how many of the crashes now the edit is made.
fn made_after_crashes(rt: &HostRuntime, disk: &MemDisk) -> Result<usize, Fail> {
    let mut made = 0usize;
    for pick in [Pick::None, Pick::All, Pick::Even, Pick::Torn] {
        if is_made(rt, disk.crash(disk.steps(), pick)?)? {
            made = made.saturating_add(1);
        }
    }
    Ok(made)
}

/// Whether the edit failed where the call with this number fails, in how many of four crashes then it
/// is made, and whether it is made on the disk as it stands.
fn tried(rt: &HostRuntime, call: u64) -> Result<(bool, usize, bool), Fail> {
    let (failed, mut disk) = attempted(rt, call)?;
    let crashes = made_after_crashes(rt, &disk)?;
    disk.fail_at(Vec::new(rt.alloc()));
    Ok((failed, crashes, is_made(rt, disk)?))
}

/// The first call of a commit, behind those of the opening.
const FIRST: u64 = 12;

#[test]
fn a_failing_disk_leaves_an_edit_whole_or_not_at_all(rt: HostRuntime) -> Result<(), Fail> {
    let mut fails = 0usize;
    let mut made = 0usize;
    for call in FIRST..FIRST + 24 {
        let (failed, crashes, is) = tried(&rt, call)?;
        if failed {
            fails = fails.saturating_add(1);
            made = made.saturating_add(usize::from(is));
        } else {
            assert!(rt; is && crashes == 4, "{call}");
        }
    }
    assert_eq!(rt; (fails, made), (21, 13));
    Ok(())
}
