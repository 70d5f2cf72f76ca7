//! Sets of recipients, and the texts of rule files.

use super::*;
use std::test::Fail;

fn ids(alloc: Global, texts: &[&str]) -> Result<Vec<Id>, Fail> {
    let mut ids = Vec::new(alloc);
    for text in texts {
        ids.push(Id::read(alloc, text)?)?;
    }
    Ok(ids)
}

/// As many different ids.
fn numbered(alloc: Global, count: u8) -> Result<Vec<Id>, Fail> {
    let mut ids = Vec::new(alloc);
    for number in 0..count {
        let text = format!(in alloc; "id-{number:02}")?;
        ids.push(Id::read(alloc, &text)?)?;
    }
    Ok(ids)
}

/// A rule file of as many different ids, each of them twice.
fn numbered_file(alloc: Global, count: u8) -> Result<String, Fail> {
    let mut text = String::new(alloc);
    for number in 0..count {
        let line = format!(in alloc; "id-{number:02}\nid-00\n")?;
        text.push_str(&line)?;
    }
    Ok(text)
}

/// What is written for what is read, or the first bad line.
fn again(alloc: Global, bytes: &[u8]) -> Result<Vec<u8>, RuleFault> {
    match Recipients::read(alloc, bytes)?.write() {
        Ok(text) => Ok(text),
        Err(NoRoom) => Err(RuleFault::NoMemory),
    }
}

/// Whether the rule file is written so.
fn is_read_as(alloc: Global, bytes: &[u8], text: &str) -> Result<bool, Fail> {
    Ok(again(alloc, bytes)?.as_slice() == text.as_bytes())
}

#[test]
fn a_rule_file_is_read_as_its_set(rt: HostRuntime) -> Result<(), Fail> {
    for (bytes, want) in [
        ("bob # office\n\nalice\nbob\n", "alice\nbob\n"),
        ("alice\nbob", "alice\nbob\n"),
        ("  alice  \n b b \n", "alice\nb b\n"),
        ("#alice\nbob#alice#\n   \n # \n", "bob\n"),
        ("\n\n\nalice\n\n", "alice\n"),
    ] {
        assert!(rt;
            is_read_as(rt.alloc(), bytes.as_bytes(), want)?,
            "at {bytes:?}"
        );
    }
    assert!(rt; is_read_as(rt.alloc(), b"alice # \xff\n", "alice\n")?);
    Ok(())
}

#[test]
fn the_first_bad_line_of_a_rule_file_is_told(rt: HostRuntime) -> Result<(), Fail> {
    for (bytes, line, kind) in [
        (b"alice\nbob\r\n".as_slice(), 2, RuleKind::BadId),
        (b"# none\n".as_slice(), 0, RuleKind::None),
        (b"".as_slice(), 0, RuleKind::None),
        (b"alice\n\n -bob\n".as_slice(), 3, RuleKind::BadId),
        (b"@team\nalice\n".as_slice(), 1, RuleKind::BadId),
        (b"\tbob\n".as_slice(), 1, RuleKind::BadId),
        (b"alice\nbob \xff\n-\n".as_slice(), 2, RuleKind::NotText),
        (b"alice\n\xc3".as_slice(), 2, RuleKind::NotText),
    ] {
        let fault = RuleFault::Bad { line, kind };
        assert_eq!(rt; again(rt.alloc(), bytes), Err(fault), "at {bytes:?}");
    }
    Ok(())
}

#[test]
fn a_rule_file_names_64_ids_at_most(rt: HostRuntime) -> Result<(), Fail> {
    let most = numbered_file(rt.alloc(), 64)?;
    let set = Recipients::read(rt.alloc(), most.as_bytes())?;
    assert_eq!(rt; set.ids().len(), 64);
    let more = numbered_file(rt.alloc(), 65)?;
    let fault = RuleFault::Bad {
        line: 129,
        kind: RuleKind::TooMany,
    };
    assert_eq!(rt; again(rt.alloc(), more.as_bytes()), Err(fault));
    Ok(())
}

fn has_ids(alloc: Global, set: &Recipients, wanted: &[&str]) -> Result<bool, Fail> {
    Ok(set.ids() == ids(alloc, wanted)?.as_slice())
}

#[test]
fn ids_are_sorted_and_count_once(rt: HostRuntime) -> Result<(), Fail> {
    let set = set_of(rt.alloc(), &ids(rt.alloc(), &["bob", "alice", "bob"])?)?;
    assert!(rt; has_ids(rt.alloc(), &set, &["alice", "bob"])?);
    Ok(())
}

/// How many ids a set of as many different ones has.
fn count_of(alloc: Global, count: u8) -> Result<usize, Fail> {
    Ok(set_of(alloc, &numbered(alloc, count)?)?.ids().len())
}

/// How many ids a set of 64 has, one of which is given twice.
fn count_of_most(alloc: Global) -> Result<usize, Fail> {
    let mut most = numbered(alloc, 64)?;
    most.push(Id::read(alloc, "id-07")?)?;
    Ok(set_of(alloc, &most)?.ids().len())
}

fn is_too_many(alloc: Global) -> Result<bool, Fail> {
    let more = numbered(alloc, 65)?;
    Ok(matches!(Recipients::of(alloc, &more), Err(OfFault::TooMany)))
}

#[test]
fn a_set_has_1_to_64_ids(rt: HostRuntime) -> Result<(), Fail> {
    let none = Recipients::of(rt.alloc(), &[]);
    assert!(rt; matches!(none, Err(OfFault::Empty)));
    assert_eq!(rt; count_of(rt.alloc(), 64)?, 64);
    assert_eq!(rt; count_of_most(rt.alloc())?, 64);
    assert!(rt; is_too_many(rt.alloc())?);
    Ok(())
}

/// Whether a set of bob refuses to add him, and to take out him or another.
fn is_kept(set: &mut Recipients, alice: &Id, bob: &Id) -> bool {
    set.add(bob) == Err(IdAddFault::Already)
        && set.remove(alice) == Err(IdRemoveFault::Absent)
        && set.remove(bob) == Err(IdRemoveFault::Last)
}

fn is_written(set: &Recipients, text: &[u8]) -> Result<bool, Fail> {
    Ok(set.write()?.as_slice() == text)
}

/// Whether alice is added to the set and taken out again.
fn comes_and_goes(set: &mut Recipients, kept: &Recipients, alice: &Id) -> Result<bool, Fail> {
    let is_added = set.add(alice) == Ok(()) && !set.same(kept);
    let is_written = is_written(set, b"alice\nbob\n")?;
    Ok(is_added && is_written && set.remove(alice) == Ok(()) && set.same(kept))
}

fn bob_and_alice(alloc: Global, set: &mut Recipients, kept: &Recipients) -> Result<bool, Fail> {
    let alice = Id::read(alloc, "alice")?;
    let bob = Id::read(alloc, "bob")?;
    Ok(is_kept(set, &alice, &bob) && set.same(kept) && comes_and_goes(set, kept, &alice)?)
}

fn set_of(alloc: Global, ids: &[Id]) -> Result<Recipients, Fail> {
    Ok(Recipients::of(alloc, ids)?)
}

#[test]
fn ids_are_added_and_taken_out(rt: HostRuntime) -> Result<(), Fail> {
    let mut set = set_of(rt.alloc(), &ids(rt.alloc(), &["bob"])?)?;
    let kept = set.copy()?;
    assert!(rt; bob_and_alice(rt.alloc(), &mut set, &kept)?);
    Ok(())
}

/// Why the id is not added.
fn add_fault(alloc: Global, set: &mut Recipients, id: &str) -> Result<Option<IdAddFault>, Fail> {
    let id = Id::read(alloc, id)?;
    Ok(set.add(&id).err())
}

#[test]
fn a_full_set_takes_no_more(rt: HostRuntime) -> Result<(), Fail> {
    let mut set = set_of(rt.alloc(), &numbered(rt.alloc(), 64)?)?;
    let more = add_fault(rt.alloc(), &mut set, "more")?;
    let there = add_fault(rt.alloc(), &mut set, "id-00")?;
    assert_eq!(rt; more, Some(IdAddFault::Full));
    assert_eq!(rt; there, Some(IdAddFault::Already));
    assert_eq!(rt; set.ids().len(), 64);
    Ok(())
}

fn is_send<T: Send>() {}

/// That a set may go to another thread is told by the types.
#[test]
fn sets_are_send(_: HostRuntime) -> Result<(), Fail> {
    is_send::<Recipients>();
    is_send::<Id>();
    Ok(())
}
