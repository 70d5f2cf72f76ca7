//! What the calls make of a disk in memory, and what a crash leaves of it.

use crate::{Disk, DiskFault, MemDisk, Pick};
use gopass_base::FilePath;
use std::test::Fail;

fn path(rt: &HostRuntime, text: &str) -> Result<FilePath, Fail> {
    Ok(FilePath::read(rt.alloc(), text)?)
}

/// A disk with these files.
fn disk(rt: &HostRuntime, files: &[(&str, &str)]) -> Result<MemDisk, Fail> {
    let mut list = Vec::new(rt.alloc());
    for (text, bytes) in files {
        list.push((path(rt, text)?, bytes.as_bytes().to_vec(rt.alloc())?))?;
    }
    Ok(MemDisk::new(rt.alloc(), list)?)
}

/// Each path with its bytes, in their order.
fn shown(rt: &HostRuntime, disk: &MemDisk) -> Result<String, Fail> {
    let mut texts = String::new(rt.alloc());
    for (path, bytes) in disk.files() {
        texts.push_str(path.text())?;
        texts.push('=')?;
        texts.push_str(str::from_utf8(bytes).unwrap_or("?"))?;
        texts.push(' ')?;
    }
    Ok(texts)
}

/// What is asked of a disk.
#[derive(Clone, Copy)]
enum Call {
    Hold,
    List(&'static str),
    Read(&'static str),
    Write(&'static str, &'static str),
    Rename(&'static str, &'static str),
    Remove(&'static str),
    Sync,
}

fn ask(rt: &HostRuntime, disk: &mut MemDisk, call: Call) -> Result<Result<(), DiskFault>, Fail> {
    Ok(match call {
        Call::Hold => disk.hold(),
        Call::List(text) => disk.list(&path(rt, text)?, 9).map(|_| ()),
        Call::Read(text) => disk.read(&path(rt, text)?, 9).map(|_| ()),
        Call::Write(text, bytes) => disk.write(&path(rt, text)?, bytes.as_bytes()),
        Call::Rename(from, to) => disk.rename(&path(rt, from)?, &path(rt, to)?),
        Call::Remove(text) => disk.remove(&path(rt, text)?),
        Call::Sync => disk.sync(),
    })
}

/// What each of the calls answers: a dot, or `F` where it failed.
fn run(rt: &HostRuntime, disk: &mut MemDisk, calls: &[Call]) -> Result<String, Fail> {
    let mut answers = String::new(rt.alloc());
    for call in calls {
        answers.push_str(match ask(rt, disk, *call)? {
            Ok(()) => ".",
            Err(DiskFault::Failed) => "F",
            Err(DiskFault::NoMemory) => "M",
        })?;
    }
    Ok(answers)
}

/// Whether the calls answer so.
fn answers(
    rt: &HostRuntime,
    disk: &mut MemDisk,
    calls: &[Call],
    wanted: &str,
) -> Result<bool, Fail> {
    Ok(run(rt, disk, calls)?.as_str() == wanted)
}

/// Whether the disk has these files and no others.
fn has(rt: &HostRuntime, disk: &MemDisk, files: &str) -> Result<bool, Fail> {
    Ok(shown(rt, disk)?.as_str() == files)
}

/// What a crash leaves.
fn crashed(disk: &MemDisk, moment: u64, pick: Pick) -> Result<MemDisk, Fail> {
    if moment > disk.steps() {
        return Err(Fail::from("there is no such moment"));
    }
    Ok(disk.crash(moment, pick)?)
}

/// Whether a crash leaves these files.
fn leaves(
    rt: &HostRuntime,
    disk: &MemDisk,
    moment: u64,
    pick: Pick,
    files: &str,
) -> Result<bool, Fail> {
    has(rt, &crashed(disk, moment, pick)?, files)
}

fn left_by(rt: &HostRuntime, disk: &MemDisk, moment: u64, pick: Pick) -> Result<String, Fail> {
    shown(rt, &crashed(disk, moment, pick)?)
}

/// What a crash leaves of no step, of all, of every second and of torn ones.
fn left(rt: &HostRuntime, disk: &MemDisk, moment: u64) -> Result<String, Fail> {
    let mut texts = String::new(rt.alloc());
    for pick in &[Pick::None, Pick::All, Pick::Even, Pick::Torn] {
        texts.push_str(&left_by(rt, disk, moment, *pick)?)?;
        texts.push_str("| ")?;
    }
    Ok(texts)
}

/// Whether a crash at this moment leaves these texts.
fn is_left(rt: &HostRuntime, disk: &MemDisk, moment: u64, texts: &str) -> Result<bool, Fail> {
    Ok(left(rt, disk, moment)?.as_str() == texts)
}

/// Whether all these moments leave what stands beside them.
fn are_left(rt: &HostRuntime, disk: &MemDisk, moments: &[(u64, &str)]) -> Result<bool, Fail> {
    for (moment, texts) in moments {
        if !is_left(rt, disk, *moment, texts)? {
            return Ok(false);
        }
    }
    Ok(true)
}

/// Whether the step, made of two files, is made and leaves these files.
fn makes(rt: &HostRuntime, step: Call, files: &str) -> Result<bool, Fail> {
    let mut disk = disk(rt, &[("b", "2"), ("a", "1")])?;
    Ok(answers(rt, &mut disk, &[step], ".")? && has(rt, &disk, files)?)
}

#[test]
fn each_step_leaves_its_files(rt: HostRuntime) -> Result<(), Fail> {
    for (step, files) in [
        (Call::Write("a", "x"), "a=x b=2 "),
        (Call::Write("c", "x"), "a=1 b=2 c=x "),
        (Call::Write("aa", ""), "a=1 aa= b=2 "),
        (Call::Rename("a", "b"), "b=1 "),
        (Call::Rename("a", "c"), "b=2 c=1 "),
        (Call::Rename("b", "a"), "a=2 "),
        (Call::Rename("c", "a"), "a=1 b=2 "),
        (Call::Rename("a", "a"), "a=1 b=2 "),
        (Call::Remove("a"), "b=2 "),
        (Call::Remove("b"), "a=1 "),
        (Call::Remove("c"), "a=1 b=2 "),
        (Call::Sync, "a=1 b=2 "),
    ] {
        assert!(rt; makes(&rt, step, files)?, "{files}");
    }
    Ok(())
}

/// Seven calls: two steps, a sync, three steps, a sync.
fn used(rt: &HostRuntime) -> Result<MemDisk, Fail> {
    let mut disk = disk(rt, &[("o", "old")])?;
    let _ = run(
        rt,
        &mut disk,
        &[
            Call::Write("a", "abcde"),
            Call::Write("b", "xy"),
            Call::Sync,
            Call::Write("c", "123"),
            Call::Rename("a", "d"),
            Call::Remove("b"),
            Call::Sync,
        ],
    )?;
    Ok(disk)
}

/// What is left of these calls at each moment.
const LEFT: &[(u64, &str)] = &[
    (0, "o=old | o=old | o=old | o=old | "),
    (1, "o=old | a=abcde o=old | a=abcde o=old | a=ab o=old | "),
    (
        2,
        "o=old | a=abcde b=xy o=old | a=abcde o=old | a=ab b=x o=old | ",
    ),
    (
        3,
        "a=abcde b=xy o=old | a=abcde b=xy o=old | a=abcde b=xy o=old | a=abcde b=xy o=old | ",
    ),
    (
        4,
        "a=abcde b=xy o=old | a=abcde b=xy c=123 o=old | a=abcde b=xy c=123 o=old | a=abcde b=xy c=1 o=old | ",
    ),
    (
        5,
        "a=abcde b=xy o=old | b=xy c=123 d=abcde o=old | a=abcde b=xy c=123 o=old | b=xy c=1 d=abcde o=old | ",
    ),
    (
        6,
        "a=abcde b=xy o=old | c=123 d=abcde o=old | a=abcde c=123 o=old | c=1 d=abcde o=old | ",
    ),
    (
        7,
        "c=123 d=abcde o=old | c=123 d=abcde o=old | c=123 d=abcde o=old | c=123 d=abcde o=old | ",
    ),
];

#[test]
fn a_crash_leaves_what_is_picked(rt: HostRuntime) -> Result<(), Fail> {
    let disk = used(&rt)?;
    assert!(rt; are_left(&rt, &disk, LEFT)?);
    Ok(())
}

/// A disk of which the second, the fifth and the eighth call fail.
fn failing(rt: &HostRuntime) -> Result<MemDisk, Fail> {
    let calls = vec![in rt.alloc(); 1u64, 4, 7]?;
    let mut disk = disk(rt, &[("o", "old")])?;
    disk.fail_at(calls);
    Ok(disk)
}

/// Eight calls.
const CALLS: [Call; 8] = [
    Call::Read("o"),
    Call::Remove("o"),
    Call::Write("a", "1"),
    Call::Hold,
    Call::Rename("o", "p"),
    Call::List("o"),
    Call::Write("b", "2"),
    Call::Sync,
];

const LEFT_BY_FAILING: &[(u64, &str)] = &[
    (2, "o=old | o=old | o=old | o=old | "),
    (3, "o=old | a=1 o=old | a=1 o=old | a= o=old | "),
    (6, "o=old | a=1 o=old | a=1 o=old | a= o=old | "),
    (7, "o=old | a=1 b=2 o=old | a=1 o=old | a= b= o=old | "),
    (8, "o=old | a=1 b=2 o=old | a=1 o=old | a= b= o=old | "),
];

/// The disk of the eight calls, three of which failed.
fn used_failing(rt: &HostRuntime) -> Result<MemDisk, Fail> {
    let mut disk = failing(rt)?;
    if answers(rt, &mut disk, &CALLS, ".F..F..F")? {
        Ok(disk)
    } else {
        Err(Fail::from("other calls failed"))
    }
}

#[test]
fn what_fails_is_not_made_but_counts(rt: HostRuntime) -> Result<(), Fail> {
    let disk = used_failing(&rt)?;
    assert_eq!(rt; disk.steps(), 8);
    assert!(rt; are_left(&rt, &disk, LEFT_BY_FAILING)?);
    Ok(())
}

/// Whether the sync behind the one that failed is made, and lasts.
fn is_made_at_last(rt: &HostRuntime, disk: &mut MemDisk) -> Result<bool, Fail> {
    Ok(
        answers(rt, disk, &[Call::Sync], ".")?
            && leaves(rt, disk, 8, Pick::None, "o=old ")?
            && leaves(rt, disk, 9, Pick::None, "a=1 b=2 o=old ")?,
    )
}

#[test]
fn a_sync_counts_once_it_is_made(rt: HostRuntime) -> Result<(), Fail> {
    let mut disk = used_failing(&rt)?;
    assert!(rt; is_made_at_last(&rt, &mut disk)?);
    Ok(())
}

const LEFT_AGAIN: &str =
    "b=xy c=1 d=abcde o=old | b=xy c=6789 d=abcde o=old | b=xy d=abcde o=old | b=xy c=67 d=abcde o=old | ";

/// Whether two calls are made of what a crash left, and a crash leaves of them what is picked.
fn crashes_again(rt: &HostRuntime, disk: &mut MemDisk) -> Result<bool, Fail> {
    let calls = [Call::Remove("c"), Call::Write("c", "6789")];
    let is_new = disk.steps() == 0;
    Ok(answers(rt, disk, &calls, "..")? && is_left(rt, disk, 2, LEFT_AGAIN)? && is_new)
}

#[test]
fn a_crashed_disk_can_crash_again(rt: HostRuntime) -> Result<(), Fail> {
    let mut disk = crashed(&used(&rt)?, 5, Pick::Torn)?;
    assert!(rt; crashes_again(&rt, &mut disk)?);
    Ok(())
}
