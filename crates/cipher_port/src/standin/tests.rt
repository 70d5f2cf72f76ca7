//! Texts that are sealed, and texts that are not.

use super::*;
use std::test::Fail;

fn is_sealed(alloc: Global, bytes: &[u8]) -> Result<bool, StandinFault> {
    match standin_read(alloc, bytes) {
        Ok(_) => Ok(true),
        Err(StandinFault::NotSealed) => Ok(false),
        Err(StandinFault::NoMemory) => Err(StandinFault::NoMemory),
    }
}

/// A text for so many ids, and a body of so many bytes.
fn text_for(alloc: Global, ids: u64, bytes: u64) -> Result<String, Fail> {
    let mut text = String::from_str(alloc, "gopass-standin 1\n")?;
    for number in 0..ids {
        let line = format!(in alloc; "to id-{number:02}\n")?;
        text.push_str(&line)?;
    }
    text.push_str("body ")?;
    for _ in 0..bytes {
        text.push_str("5a")?;
    }
    text.push_str("\nend\n")?;
    Ok(text)
}

#[test]
fn reads_recipients_and_body(rt: HostRuntime) -> Result<(), Fail> {
    let text = "gopass-standin 1\nto alice\nto bob\nbody 70770a\nend\n";
    let sealed = standin_read(rt.alloc(), text.as_bytes())?;
    let ids = sealed.to.ids();
    assert_eq!(rt; text.len(), 49);
    assert_eq!(rt; ids.len(), 2);
    assert_eq!(rt; ids[0].text(), "alice");
    assert_eq!(rt; ids[1].text(), "bob");
    assert_eq!(rt; sealed.body.as_slice(), b"pw\n".as_slice());
    Ok(())
}

#[test]
fn tells_what_is_sealed(rt: HostRuntime) -> Result<(), Fail> {
    for (text, want) in [
        ("gopass-standin 1\nto alice\nbody \nend\n", true),
        ("gopass-standin 1\nto alice\nbody 70770A\nend\n", false),
        ("gopass-standin 1\nto alice\nbody 707\nend\n", false),
        ("gopass-standin 1\nto bob\nto alice\nbody 70\nend\n", false),
        ("gopass-standin 1\nto bob\nto bob\nbody 70\nend\n", false),
        ("gopass-standin 1\nto alice \nbody 70\nend\n", false),
        ("gopass-standin 1\nbody 70\nend\n", false),
        ("gopass-standin 1\nto alice\nbody 70\nend", false),
        ("gopass-standin 1\nto alice\nbody 70\nend\n\n", false),
        ("gopass-standin 2\nto alice\nbody 70\nend\n", false),
        ("", false),
    ] {
        assert_eq!(rt; is_sealed(rt.alloc(), text.as_bytes())?, want, "{text:?}");
    }
    Ok(())
}

#[test]
fn keeps_the_limits(rt: HostRuntime) -> Result<(), Fail> {
    for (ids, bytes, want) in [
        (1, 32_768, true),
        (1, 32_769, false),
        (64, 1, true),
        (65, 1, false),
    ] {
        let text = text_for(rt.alloc(), ids, bytes)?;
        assert_eq!(rt;
            is_sealed(rt.alloc(), text.as_bytes())?,
            want,
            "{ids} ids, {bytes} bytes"
        );
    }
    Ok(())
}

#[test]
fn writes_what_it_reads(rt: HostRuntime) -> Result<(), Fail> {
    for text in [
        "gopass-standin 1\nto alice\nto bob\nbody 70770a\nend\n",
        "gopass-standin 1\nto alice\nbody \nend\n",
    ] {
        let sealed = standin_read(rt.alloc(), text.as_bytes())?;
        let body = sealed.body.as_slice();
        assert!(rt; body.len() <= 32_768);
        let again = standin_write(rt.alloc(), &sealed.to, body)?;
        assert_eq!(rt; again.as_slice(), text.as_bytes());
    }
    Ok(())
}
