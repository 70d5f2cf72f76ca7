//! `show NAME`.

use std::test::Fail;
use transcript::check;

const SHOW: &str = r"
    files root/.gpg-id = alice\n
    files root/web/site.gpg = gopass-standin 1\nto alice\nbody 70770a\nend\n
    files root/e.gpg = gopass-standin 1\nto alice\nbody \nend\n
    files root/u.gpg = gopass-standin 1\nto alice\nbody 70770A\nend\n
    files root/o.gpg = gopass-standin 1\nto bob\nbody 6f0a\nend\n
    files root/b.gpg = gopass-standin 1\nto alice\nto bob\nbody 620a\nend\n

    # show prints the body
    $ show web/site
    > pw\n
    $ show e
    $ show b
    > b\n

    # show refuses
    $ show nope
    ! gopass: nope is not in the store\n
    ? 3
    $ show web
    ! gopass: web is a folder\n
    ? 3
    $ show web/
    ! gopass: bad name at 4: web/\n
    ? 2
    $ show -- -x
    ! gopass: -x is not in the store\n
    ? 3
    $ show a/.b
    ! gopass: bad name at 2: a/.b\n
    ? 2
    $ show u
    ! gopass: u: not sealed\n
    ? 8
    $ show o
    ! gopass: o: no key\n
    ? 8
    $ show -
    ! gopass: - is not in the store\n
    ? 3

    # other words are bad
    $
    ! gopass: bad words at 0\n
    ? 2
    $ frob web/site
    ! gopass: bad words at 0\n
    ? 2
    $ show
    ! gopass: bad words at 1\n
    ? 2
    $ show -x
    ! gopass: bad words at 1\n
    ? 2
    $ show e e
    ! gopass: bad words at 2\n
    ? 2
    $ show e -- e
    ! gopass: bad words at 3\n
    ? 2
    $ show --
    ! gopass: bad words at 2\n
    ? 2
    $ show --flat e
    ! gopass: bad words at 1\n
    ? 2
    $ show e --flat
    ! gopass: bad words at 2\n
    ? 2

    # a name has at most 400 bytes
    $ show x*100/x*100/x*100/x*97
    ! gopass: x*100/x*100/x*100/x*97 is not in the store\n
    ? 3
    $ show x*100/x*100/x*100/x*98
    ! gopass: bad name at 400: x*100/x*100/x*100/x*98\n
    ? 2

    # a name has at most 16 parts, none of them empty, and no folder of it ends as a file does
    $ show a/a/a/a/a/a/a/a/a/a/a/a/a/a/a/a
    ! gopass: a/a/a/a/a/a/a/a/a/a/a/a/a/a/a/a is not in the store\n
    ? 3
    $ show a/a/a/a/a/a/a/a/a/a/a/a/a/a/a/a/a
    ! gopass: bad name at 32: a/a/a/a/a/a/a/a/a/a/a/a/a/a/a/a/a\n
    ? 2
    $ show a//b
    ! gopass: bad name at 2: a//b\n
    ? 2
    $ show x.gpg/y
    ! gopass: bad name at 0: x.gpg/y\n
    ? 2

    # a name may end as its file does
    files root/y/x.gpg.gpg = gopass-standin 1\nto alice\nbody 780a\nend\n
    $ show y/x.gpg
    > x\n
";

const FAULTS: &str = r"
    files root/.gpg-id = alice\n
    files root/web/site.gpg = gopass-standin 1\nto alice\nbody 70770a\nend\n

    holds carol
    $ show web/site
    ! gopass: web/site: no key\n
    ? 8
    holds alice

    tool fails at 0
    $ show web/site
    ! gopass: web/site: the tool failed\n
    ? 11

    # the lock, a sync, the journal, its new text, the stage, a sync, the mounts file, the pending file,
    # the listing, a rule file and the secret's file
    disk fails at each of 0..11
    $ show web/site
    ! gopass: the disk failed\n
    ? 12

    output fails at 0
    $ show web/site
    ? 16
";

const OPENINGS: &str = r"
    # a file that is not read yet refuses the opening
    files root/web/site.gpg = gopass-standin 1\nto alice\nbody 70770a\nend\n
    files root/.gopass-pending =
    $ show web/
    ! gopass: root/.gopass-pending: line 1 is bad\n
    ? 6
    files root/.gopass-mounts = x
    $ show web/
    ! gopass: root/.gopass-mounts: line 1 is bad\n
    ? 6
    files root/.gopass-journal = journal 1\nput\troot/a.gpg\n
    $ show web/
    ! gopass: root/.gopass-journal: line 3 is bad\n
    ? 6

    # a journal that does not read refuses the opening
    new store
    files root/web/site.gpg = gopass-standin 1\nto alice\nbody 70770a\nend\n
    files root/.gopass-journal = journal 1\nput\troot/a.gpg\n
    $ show web/site
    ! gopass: root/.gopass-journal: line 3 is bad\n
    ? 6
    files root/.gopass-journal = journal 1\ndrop\t../x\nend\n
    $ show web/site
    ! gopass: root/.gopass-journal: line 2 is bad\n
    ? 6

    # a journal is carried out before a secret is shown
    new store
    files root/web/site.gpg = gopass-standin 1\nto alice\nbody 70770a\nend\n
    files root/.gopass-journal = journal 1\nend\n
    $ show web/site
    > pw\n
    new store
    files root/web/site.gpg = gopass-standin 1\nto alice\nbody 70770a\nend\n
    files root/.gopass-journal = journal 1\nput\troot/web/site.gpg\nend\n
    files root/.gopass-stage/000000 = gopass-standin 1\nto alice\nbody 6e65770a\nend\n
    $ show web/site
    > new\n
    new store
    files root/web/site.gpg = gopass-standin 1\nto alice\nbody 70770a\nend\n
    files root/.gopass-stage/000000 = gopass-standin 1\nto alice\nbody 6e65770a\nend\n
    $ show web/site
    > pw\n
";

#[test]
fn show_prints_or_refuses(rt: HostRuntime) -> Result<(), Fail> {
    check(rt.alloc(), SHOW)
}

#[test]
fn faults_of_the_outside_are_told(rt: HostRuntime) -> Result<(), Fail> {
    check(rt.alloc(), FAULTS)
}

#[test]
fn openings_are_refused_or_make_a_change_whole(rt: HostRuntime) -> Result<(), Fail> {
    check(rt.alloc(), OPENINGS)
}
