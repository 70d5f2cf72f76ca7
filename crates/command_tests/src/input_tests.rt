//! What a run takes of the input.

use std::test::Fail;
use transcript::check;

const INPUT: &str = r"
    files root/.gpg-id = alice\n
    files root/web/site.gpg = gopass-standin 1\nto alice\nbody 70770a\nend\n

    # insert takes a line or all of the input
    $ insert x
    < p\nq\n
    left q\n
    undo
    $ insert -m x
    < p\nq\n
    left
    undo
    $ insert web/site
    < p\nq\n
    ! gopass: web/site is there already\n
    ? 4
    left q\n
    $ insert -m web/site
    < p\nq\n
    ! gopass: web/site is there already\n
    ? 4
    left

    # a bad name is told once the body is taken
    $ insert a//b
    < p\nq\n
    ! gopass: bad name at 2: a//b\n
    ? 2
    left q\n
    $ insert -m a//b
    < p\nq\n
    ! gopass: bad name at 2: a//b\n
    ? 2
    left
    $ insert -m ''
    < p\nq\n
    ! gopass: bad name at 0: \n
    ? 2
    left

    # other words take nothing
    $ insert
    < p\nq\n
    ! gopass: bad words at 1\n
    ? 2
    left p\nq\n
    $ insert -m
    < p\nq\n
    ! gopass: bad words at 2\n
    ? 2
    left p\nq\n
    $ find zz
    < p\nq\n
    ? 1
    left p\nq\n
    $ show x
    < p\nq\n
    ! gopass: x is not in the store\n
    ? 3
    left p\nq\n

    # a disk that fails in the opening leaves the input
    disk fails at each of 0..10
    $ insert -m x
    < p\nq\n
    ! gopass: the disk failed\n
    ? 12
    left p\nq\n
";

const REFUSED: &str = r"
    files root/.gpg-id = alice\n
    files root/.gopass-mounts = \troot\tplane\n
    $ insert x
    < p\nq\n
    ! gopass: root/.gopass-mounts: line 1 is bad\n
    ? 6
    left p\nq\n
    $ insert -m x
    < p\nq\n
    ! gopass: root/.gopass-mounts: line 1 is bad\n
    ? 6
    left p\nq\n
    $ insert -m a//b
    < p\nq\n
    ! gopass: root/.gopass-mounts: line 1 is bad\n
    ? 6
    left p\nq\n
    new store
    files root/.gpg-id = alice\n
    files root/.gopass-journal = journal 2\n
    $ insert x
    < p\nq\n
    ! gopass: root/.gopass-journal: line 1 is bad\n
    ? 6
    left p\nq\n
    $ insert -m x
    < p\nq\n
    ! gopass: root/.gopass-journal: line 1 is bad\n
    ? 6
    left p\nq\n
    $ insert -m a//b
    < p\nq\n
    ! gopass: root/.gopass-journal: line 1 is bad\n
    ? 6
    left p\nq\n
    new store
    files root/.gpg-id = alice\n
    files root/a/.gpg-id = alice\n-bob\n
    $ insert x
    < p\nq\n
    ! gopass: root/a/.gpg-id: line 2 is bad\n
    ? 6
    left p\nq\n
    $ insert -m x
    < p\nq\n
    ! gopass: root/a/.gpg-id: line 2 is bad\n
    ? 6
    left p\nq\n
    $ insert -m a//b
    < p\nq\n
    ! gopass: root/a/.gpg-id: line 2 is bad\n
    ? 6
    left p\nq\n
";

#[test]
fn a_run_takes_what_its_command_asks_for(rt: HostRuntime) -> Result<(), Fail> {
    check(rt.alloc(), INPUT)
}

#[test]
fn a_refused_opening_takes_nothing(rt: HostRuntime) -> Result<(), Fail> {
    check(rt.alloc(), REFUSED)
}
