//! Transcripts that do not hold.

use std::alloc::Global;
use std::test::Fail;
use transcript::refusal;

/// A store with a secret, above each of these lines.
const STORE: &str = r"
    files root/.gpg-id = alice\n
    files root/web/site.gpg = gopass-standin 1\nto alice\nbody 70770a\nend\n
";

/// Each is wrong in one thing that is compared.
const WRONG: &[&str] = &[
    r"$ show web/site",
    r"
    $ show web/site
    > p
    ",
    r"
    $ show web/site
    > pw\nx
    ",
    r"
    $ show web/site
    > pw\n
    ! x
    ",
    r"
    $ show web/site
    > pw\n
    ? 1
    ",
    r"
    $ show web/site
    > pw\n
    or
    > x\n
    ",
    r"
    $ show web/site
    > pw\n
    calls 0
    ",
    r"
    $ show web/site
    > pw\n
    disk calls 10
    ",
    r"
    $ insert x
    < new\n
    commits 0
    ",
    r"
    $ insert x
    < new\nrest
    left res
    ",
    r"
    $ insert x
    < new\n
    changes nothing
    ",
    r"
    $ insert x
    < new\n
    changes root/x.gpg root/.gpg-id
    ",
    r"
    $ insert x
    < new\n
    stands root/x.gpg = x
    ",
    r"
    $ insert x
    < new\n
    stands root/y.gpg = x
    ",
    r"
    $ insert x
    < new\n
    none root/x.gpg
    ",
    r"
    $ insert -f web/site
    < new\n
    crash everywhere
    $ show web/site
    > new\n
    ",
];

const HOLDS: &str = r"
    $ show web/site
    > pw\n
";

/// What is told of a transcript.
const WHY: &[(&str, &str)] = &[
    (
        "$ mounts\nfrob x",
        "line 1: $ mounts: printed \"/\\troot\\tplain\\n\"",
    ),
    (
        "\n\n  $ frob\n  ? 2",
        "line 3: $ frob: told \"gopass: bad words at 0\\n\"",
    ),
    ("$ ls\n? 1", "line 1: $ ls: status 0"),
    ("$ ls\n\nfrob x y", "line 3: frob x y: a bad line"),
    ("$ ls\n> \\q", "line 2: > \\q: a bad line"),
    (
        "$ ls\nnone x\n# no more\nstands root/x = x",
        "line 4: stands root/x = x: no file",
    ),
];

/// Each has a line that is none, or one where it may not stand, or runs nothing.
const BAD: &[&str] = &[
    "",
    "# $ mounts",
    "files root/a.gpg = x",
    "frob x",
    "$ show web/site\n> pw\\n\ndisk fails at 0",
    "disk fails at 0\nnew store\n$ mounts\n> /\\troot\\tplain\\n",
    "> x\n$ ls",
    "$ mounts\n> \\q",
    "$ mounts\n> *3",
    "$ mounts\n> x*",
    "$ mounts\n? 256",
    "$ show web/site\n> pw\\n\ncrash after 12 torn",
    "undo\n$ mounts\n> /\\troot\\tplain\\n",
    "adds root/x = x\n$ mounts\n> /\\troot\\tplain\\n",
    "clock fails at 0\n$ mounts\n> /\\troot\\tplain\\n",
];

/// Whether the transcript that begins with the store and goes on with these lines is refused.
fn is_refused(alloc: Global, lines: &str) -> Result<bool, Fail> {
    let text = format!(in alloc; "{STORE}{lines}")?;
    Ok(refusal(alloc, &text)?.is_some())
}

#[test]
fn what_does_not_hold_is_refused(rt: HostRuntime) -> Result<(), Fail> {
    for lines in WRONG {
        assert!(rt; is_refused(rt.alloc(), lines)?, "{lines:?}");
    }
    for lines in BAD {
        assert!(rt; is_refused(rt.alloc(), lines)?, "{lines:?}");
    }
    assert!(rt; !is_refused(rt.alloc(), HOLDS)?);
    Ok(())
}

#[test]
fn a_refusal_names_the_line(rt: HostRuntime) -> Result<(), Fail> {
    for (lines, why) in WHY {
        assert_eq!(rt; refusal(rt.alloc(), lines)?.as_deref(), Some(*why));
    }
    Ok(())
}
