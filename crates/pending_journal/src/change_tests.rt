use crate::change::{Change, ChangeAddFault};
use gopass_base::{DirPath, FilePath};
use std::test::*;

/// A step: whether it is a put, and its path.
type Step<'a> = (bool, &'a str);

fn change(rt: &HostRuntime) -> Result<Change, Fail> {
    let root = DirPath::read(rt.alloc(), "root")?;
    Ok(Change::new(rt.alloc(), &root)?)
}

/// Adds the step, and tells why it is refused where it is.
fn step(rt: &HostRuntime, change: &mut Change, step: Step) -> Result<Option<ChangeAddFault>, Fail> {
    let (is_put, text) = step;
    let path = FilePath::read(rt.alloc(), text)?;
    Ok(if is_put {
        change.put(path, b"x".to_vec(rt.alloc())?).err()
    } else {
        change.erase(path).err()
    })
}

/// The change with these steps, each of which is taken.
fn with_steps(rt: &HostRuntime, steps: &[Step]) -> Result<Change, Fail> {
    let mut change = change(rt)?;
    for each in steps {
        if let Some(fault) = step(rt, &mut change, *each)? {
            return Err(Fail::from(fault));
        }
    }
    Ok(change)
}

#[test]
fn a_change_has_the_text_of_its_steps(rt: HostRuntime) -> Result<(), Fail> {
    let cases: [(&[Step], &str); 5] = [
        (&[], "journal 1\nend\n"),
        (
            &[(true, "root/a.gpg"), (false, "root/b.gpg")],
            "journal 1\nput\troot/a.gpg\ndrop\troot/b.gpg\nend\n",
        ),
        (
            &[(false, "root/b.gpg"), (true, "root/a.gpg")],
            "journal 1\nput\troot/a.gpg\ndrop\troot/b.gpg\nend\n",
        ),
        (
            &[
                (true, "w/z.gpg"),
                (false, "root/.gopass-mounts"),
                (true, "root/a.gpg"),
                (false, "a"),
            ],
            "journal 1\nput\tw/z.gpg\nput\troot/a.gpg\ndrop\troot/.gopass-mounts\ndrop\ta\nend\n",
        ),
        (
            &[
                (false, "root/.gopass-stage"),
                (true, "root/.gopass-journal/x"),
            ],
            "journal 1\nput\troot/.gopass-journal/x\ndrop\troot/.gopass-stage\nend\n",
        ),
    ];
    for (steps, text) in cases {
        let change = with_steps(&rt, steps)?;
        assert_eq!(rt; change.text.as_slice(), text.as_bytes());
    }
    Ok(())
}

/// Paths that no step more is added for, and why.
const REFUSED: &[(&str, ChangeAddFault)] = &[
    ("root/a.gpg", ChangeAddFault::TwoForOne),
    ("root/b.gpg", ChangeAddFault::TwoForOne),
    ("root/.gopass-journal", ChangeAddFault::Service),
    ("root/.gopass-journal.new", ChangeAddFault::Service),
    ("root/.gopass-stage/x", ChangeAddFault::Service),
    ("root/.gopass-stage/000000", ChangeAddFault::Service),
];

const TWO_STEPS: &[u8] = b"journal 1\nput\troot/a.gpg\ndrop\troot/b.gpg\nend\n";

const THREE_STEPS: &[u8] = b"journal 1\nput\troot/a.gpg\nput\troot/c.gpg\ndrop\troot/b.gpg\nend\n";

/// Whether the step is refused for this fault, and the change is then as it was.
fn refuses(
    rt: &HostRuntime,
    change: &mut Change,
    refused: Step,
    fault: ChangeAddFault,
) -> Result<bool, Fail> {
    let answer = step(rt, change, refused)?;
    let lengths = (change.puts.len(), change.drops.len());
    Ok(answer == Some(fault) && change.text.as_slice() == TWO_STEPS && lengths == (1, 1))
}

/// The first path for which a step is not refused as wanted.
fn first_taken(rt: &HostRuntime, change: &mut Change) -> Result<Option<&'static str>, Fail> {
    for (text, fault) in REFUSED {
        for is_put in &[true, false] {
            if !refuses(rt, change, (*is_put, text), *fault)? {
                return Ok(Some(text));
            }
        }
    }
    Ok(None)
}

/// Whether a step more is taken.
fn takes_more(rt: &HostRuntime, change: &mut Change) -> Result<bool, Fail> {
    let answer = step(rt, change, (true, "root/c.gpg"))?;
    Ok(answer.is_none() && change.text.as_slice() == THREE_STEPS)
}

#[test]
fn refused_steps_change_nothing(rt: HostRuntime) -> Result<(), Fail> {
    let mut change = with_steps(&rt, &[(true, "root/a.gpg"), (false, "root/b.gpg")])?;
    assert_eq!(rt; first_taken(&rt, &mut change)?, None);
    assert!(rt; takes_more(&rt, &mut change)?);
    Ok(())
}
