//! What crashes and failing calls leave of a change, and of the openings after it.

use crate::tests::{
    File, PICKS, change, committed, crashed, disk_after, failing, has, opened, opening, opens_with,
    shown,
};
use crate::{Change, CommitFault, Vault, VaultFault, VaultOpened};
use disk_model::{MemDisk, Pick};
use std::alloc::Global;
use std::process::Abort;
use std::test::*;

const FILES: &[File] = &[
    ("root/a.gpg", "old a"),
    ("root/b.gpg", "old b"),
    ("root/k.gpg", "kept"),
];

/// The files before the change, and those after it.
const BEFORE: &str = "root/a.gpg=old a root/b.gpg=old b root/k.gpg=kept ";

const AFTER: &str = "root/a.gpg=new a root/c.gpg=new c root/k.gpg=kept ";

/// The change of two puts, one over a file that is there, and a drop.
fn three_steps(alloc: Global) -> Result<Change, Fail> {
    change(
        alloc,
        &[("root/a.gpg", "new a"), ("root/c.gpg", "new c")],
        &["root/b.gpg"],
    )
}

/// A disk on which a vault was opened and the change committed: six calls and twelve.
fn used(alloc: Global) -> Result<MemDisk, Fail> {
    disk_after(alloc, FILES, &three_steps(alloc)?)
}

/// What a crash makes of the change: the eleventh call gives the journal its name, and the sync
/// behind it makes that last.
fn files_after(moment: u64, pick: Pick) -> &'static str {
    if moment > 11 || moment == 11 && pick != Pick::None {
        AFTER
    } else {
        BEFORE
    }
}

/// Whether the disk has these files, and every crash of it opens with them.
fn always_has(alloc: Global, disk: &MemDisk, files: &str) -> Result<bool, Fail> {
    let mut is_same = has(alloc, disk, files)?;
    for moment in 0..=disk.steps() {
        for pick in PICKS {
            let left = crashed(alloc, disk, moment, *pick)?;
            is_same = opens_with(alloc, left, files)? && is_same;
        }
    }
    Ok(is_same)
}

/// Whether the disk opens with these files, and what every crash of that opening leaves too.
fn always_opens_with(alloc: Global, disk: MemDisk, files: &str) -> Result<bool, Fail> {
    always_has(alloc, &opened(alloc, disk)?.into_disk(), files)
}

fn every_crash_opens(rt: &impl Abort, alloc: Global, disk: &MemDisk) -> Result<(), Fail> {
    assert!(rt; disk.steps() == 18);
    for moment in 0..=disk.steps() {
        for pick in PICKS {
            let left = crashed(alloc, disk, moment, *pick)?;
            let files = files_after(moment, *pick);
            assert!(rt; always_opens_with(alloc, left, files)?, "{moment} {pick:?}");
        }
    }
    Ok(())
}

#[test]
fn every_crash_of_an_opening_opens(rt: HostRuntime) -> Result<(), Fail> {
    every_crash_opens(&rt, rt.alloc(), &used(rt.alloc())?)
}

/// The vault in which the call of this number, from 0, fails, and what committing the change there
/// answers.
fn failed(
    alloc: Global,
    call: u64,
    change: &Change,
) -> Result<(Vault<MemDisk>, Result<(), CommitFault>), Fail> {
    let mut vault = opened(alloc, failing(alloc, FILES, call)?)?;
    let answer = committed(&mut vault, change)?;
    Ok((vault, answer))
}

/// Whether the vault is stuck, and stays so where the change is committed again.
fn stays_stuck(vault: &mut Vault<MemDisk>, change: &Change) -> Result<bool, Fail> {
    let was_stuck = vault.is_stuck() && vault.commits() == 0;
    let again = committed(vault, change)?;
    let is_stuck = vault.is_stuck() && vault.commits() == 0;
    Ok(was_stuck && again == Err(CommitFault::Stuck) && is_stuck)
}

/// Whether the vault is stuck behind the failing call, which is the last one.
fn is_stuck_behind(alloc: Global, call: u64, change: &Change) -> Result<bool, Fail> {
    let (mut vault, answer) = failed(alloc, call, change)?;
    let is_stuck = stays_stuck(&mut vault, change)?;
    let steps = vault.into_disk().steps();
    Ok(is_stuck && answer == Err(CommitFault::Disk) && steps == call.saturating_add(1))
}

#[test]
fn a_vault_is_stuck_behind_every_failing_call(rt: HostRuntime) -> Result<(), Fail> {
    let change = three_steps(rt.alloc())?;
    for call in 6..18u64 {
        assert!(rt; is_stuck_behind(rt.alloc(), call, &change)?, "{call}");
    }
    Ok(())
}

/// The files of the disk once it was opened.
fn left_by(alloc: Global, disk: MemDisk) -> Result<String, Fail> {
    shown(alloc, &opened(alloc, disk)?.into_disk())
}

/// Whether what is left is the files before the change or those after it, and these where it is not
/// early.
fn is_whole(left: &str, is_early: bool, files: &str) -> bool {
    (left == BEFORE || left == AFTER) && (is_early || left == files)
}

/// Whether the disk, which was called so often before its opening, has these files, and what every
/// crash of that opening leaves too. What is left before its first sync, which is its second
/// call, may be the files before the change or those after it.
fn stays_whole(alloc: Global, disk: &MemDisk, calls: u64, files: &str) -> Result<bool, Fail> {
    let mut stays = has(alloc, disk, files)?;
    for moment in 0..=disk.steps() {
        let is_early = moment < calls.saturating_add(2);
        for pick in PICKS {
            let left = left_by(alloc, crashed(alloc, disk, moment, *pick)?)?;
            stays = stays && is_whole(&left, is_early, files);
        }
    }
    Ok(stays)
}

/// Whether the disk opens with these files, and so does what every crash of that opening leaves.
fn opens_whole(alloc: Global, disk: MemDisk, files: &str) -> Result<bool, Fail> {
    let calls = disk.steps();
    stays_whole(alloc, &opened(alloc, disk)?.into_disk(), calls, files)
}

/// The disk on which a call of the change failed, and on which none fails from then on.
fn mended(alloc: Global, call: u64, change: &Change) -> Result<MemDisk, Fail> {
    let (vault, _) = failed(alloc, call, change)?;
    let mut disk = vault.into_disk();
    disk.fail_at(Vec::new(alloc));
    Ok(disk)
}

#[test]
fn every_failing_call_leaves_a_change_whole(rt: HostRuntime) -> Result<(), Fail> {
    let change = three_steps(rt.alloc())?;
    for call in 6..18u64 {
        let files = if call < 11 { BEFORE } else { AFTER };
        let disk = mended(rt.alloc(), call, &change)?;
        assert!(rt; opens_whole(rt.alloc(), disk, files)?, "{call}");
    }
    Ok(())
}

/// The disk that an opening hands back where a call fails, and on which none fails from then on.
fn refused(alloc: Global, disk: MemDisk) -> Result<MemDisk, Fail> {
    match opening(alloc, disk)? {
        VaultOpened::Refused(VaultFault::Disk, mut disk) => {
            disk.fail_at(Vec::new(alloc));
            Ok(disk)
        }
        VaultOpened::Refused(fault, _) => Err(Fail::from(fault)),
        VaultOpened::Ready(_) => Err(Fail::from("ready")),
    }
}

/// The disk that the opening of this crash hands back where its call of this number, from 0, fails.
fn refused_at(alloc: Global, disk: &MemDisk, moment: u64, call: u64) -> Result<MemDisk, Fail> {
    let calls = vec![in alloc; call]?;
    let mut left = crashed(alloc, disk, moment, Pick::All)?;
    left.fail_at(calls);
    refused(alloc, left)
}

/// The calls of the opening of this crash.
fn calls_of(alloc: Global, disk: &MemDisk, moment: u64) -> Result<u64, Fail> {
    let left = crashed(alloc, disk, moment, Pick::All)?;
    Ok(opened(alloc, left)?.into_disk().steps())
}

/// Moments of crashes, the calls of the openings after them, and the files that they leave.
const OPENINGS: &[(u64, u64, &str)] = &[(9, 8, BEFORE), (12, 12, AFTER), (18, 6, AFTER)];

fn every_call_refuses(rt: &impl Abort, alloc: Global, disk: &MemDisk) -> Result<(), Fail> {
    for (moment, calls, files) in OPENINGS {
        assert!(rt; calls_of(alloc, disk, *moment)? == *calls, "{moment}");
        for call in 0..*calls {
            let left = refused_at(alloc, disk, *moment, call)?;
            assert!(rt; always_opens_with(alloc, left, files)?, "{moment} {call}");
        }
    }
    Ok(())
}

#[test]
fn every_failing_call_refuses_the_opening(rt: HostRuntime) -> Result<(), Fail> {
    every_call_refuses(&rt, rt.alloc(), &used(rt.alloc())?)
}
