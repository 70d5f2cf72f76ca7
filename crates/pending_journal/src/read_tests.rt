//! Journals that are read, and those that are not.

use crate::change::Change;
use crate::fault::VaultFault;
use crate::read::read_journal;
use gopass_base::{DirPath, FilePath};
use std::alloc::{AllocError, Global};
use std::test::*;

fn read(alloc: Global, text: &[u8]) -> Result<Result<Change, VaultFault>, Fail> {
    let root = DirPath::read(alloc, "root")?;
    Ok(read_journal(alloc, &root, text))
}

fn fault_of(alloc: Global, text: &[u8]) -> Result<Option<VaultFault>, Fail> {
    Ok(read(alloc, text)?.err())
}

/// Journals that do not read, each with its first bad line.
const BAD: &[(&[u8], usize)] = &[
    (b"", 1),
    (b"journal 1", 1),
    (b"journal 2\nend\n", 1),
    (b"journal 1\r\nend\n", 1),
    (b"journal 1\n", 2),
    (b"journal 1\nend", 2),
    (b"journal 1\n\nend\n", 2),
    (b"journal 1\nend\nx\n", 3),
    (b"journal 1\nend\nend\n", 3),
    (b"journal 1\nend\n\n", 3),
    (b"journal 1\nput\troot/a.gpg\n", 3),
    (b"journal 1\nput\troot/a.gpg\nend", 3),
    (b"journal 1\nput\troot/a.gpg\nput\troot/a.gpg\nend\n", 3),
    (b"journal 1\nput\troot/a.gpg\ndrop\troot/a.gpg\nend\n", 3),
    (b"journal 1\ndrop\troot/a.gpg\ndrop\troot/a.gpg\nend\n", 3),
    (b"journal 1\ndrop\troot/a.gpg\nput\troot/b.gpg\nend\n", 3),
    (b"journal 1\nput\troot/.gopass-stage/000000\nend\n", 2),
    (b"journal 1\ndrop\troot/.gopass-journal\nend\n", 2),
    (b"journal 1\ndrop\troot/.gopass-journal.new\nend\n", 2),
    (b"journal 1\nput root/a.gpg\nend\n", 2),
    (b"journal 1\nmove\troot/a.gpg\nend\n", 2),
    (b"journal 1\nput\t\nend\n", 2),
    (b"journal 1\nput\troot/../a.gpg\nend\n", 2),
    (b"journal 1\ndrop\troot/a\tb.gpg\nend\n", 2),
    (b"journal 1\nput\troot/\xff.gpg\nend\n", 2),
    (b"journal 1\nput\troot/a.gpg\nput\t\nput\t\n", 3),
];

#[test]
fn the_first_bad_line_is_told(rt: HostRuntime) -> Result<(), Fail> {
    for (text, line) in BAD {
        let fault = fault_of(rt.alloc(), text)?;
        assert_eq!(rt; fault, Some(VaultFault::BadJournal(*line)));
    }
    Ok(())
}

fn add(steps: &mut String, sign: char, path: &FilePath) -> Result<(), AllocError> {
    steps.push(sign)?;
    steps.push_str(path.text())
}

/// The paths that are put, each behind a plus, and those that are dropped, each behind a minus.
fn steps_of(alloc: Global, change: &Change) -> Result<String, AllocError> {
    let mut steps = String::new(alloc);
    for put in &change.puts {
        add(&mut steps, '+', &put.path)?;
    }
    for path in &change.drops {
        add(&mut steps, '-', path)?;
    }
    Ok(steps)
}

/// Journals, and their steps.
const GOOD: &[(&str, &str)] = &[
    ("journal 1\nend\n", ""),
    (
        "journal 1\nput\troot/b.gpg\nput\troot/a.gpg\nend\n",
        "+root/b.gpg+root/a.gpg",
    ),
    ("journal 1\ndrop\troot/a.gpg\nend\n", "-root/a.gpg"),
    (
        "journal 1\nput\troot/x/é.gpg\nput\ta\ndrop\troot/.gopass-mounts\ndrop\twork/b\nend\n",
        "+root/x/é.gpg+a-root/.gopass-mounts-work/b",
    ),
];

/// Whether the journal has these steps, and no bytes.
fn has_steps(alloc: Global, text: &str, steps: &str) -> Result<bool, Fail> {
    let change = read(alloc, text.as_bytes())??;
    let is_bare = change.puts.iter().all(|put| put.bytes.is_empty());
    Ok(steps_of(alloc, &change)?.as_str() == steps && is_bare)
}

#[test]
fn a_journal_is_read_as_its_steps(rt: HostRuntime) -> Result<(), Fail> {
    for (text, steps) in GOOD {
        assert!(rt; has_steps(rt.alloc(), text, steps)?, "{steps}");
    }
    Ok(())
}
