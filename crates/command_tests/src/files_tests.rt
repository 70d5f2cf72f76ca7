//! The files that a run leaves.

use std::test::Fail;
use transcript::check;

const PUTS: &str = r"
    files root/.gopass-mounts = \troot\tplain\nbare\tv\tplain\nwork\tw\tplain\n
    files root/.gpg-id = alice\n
    files root/a/.gpg-id = carol\nbob # office\nalice\n
    files root/web/site.gpg = not sealed
    files w/.gpg-id = bob\n
    files w/z/.gpg-id = carol\nbob
    $ insert x
    < new\nrest
    changes root/x.gpg
    stands root/x.gpg = gopass-standin 1\nto alice\nbody 6e65770a\nend\n
    undo
    $ insert -m x
    < new\nrest
    changes root/x.gpg
    stands root/x.gpg = gopass-standin 1\nto alice\nbody 6e65770a72657374\nend\n
    undo
    $ insert -f web/site
    < new\nrest
    changes root/web/site.gpg
    stands root/web/site.gpg = gopass-standin 1\nto alice\nbody 6e65770a\nend\n
    undo
    $ insert a/b/c
    < new\nrest
    changes root/a/b/c.gpg
    stands root/a/b/c.gpg = gopass-standin 1\nto alice\nto bob\nto carol\nbody 6e65770a\nend\n
    undo
    $ insert ab
    < new\nrest
    changes root/ab.gpg
    stands root/ab.gpg = gopass-standin 1\nto alice\nbody 6e65770a\nend\n
    undo
    $ insert a
    < new\nrest
    changes root/a.gpg
    stands root/a.gpg = gopass-standin 1\nto alice\nbody 6e65770a\nend\n
    undo
    $ insert work
    < new\nrest
    changes root/work.gpg
    stands root/work.gpg = gopass-standin 1\nto alice\nbody 6e65770a\nend\n
    undo
    $ insert work/x
    < new\nrest
    changes w/x.gpg
    stands w/x.gpg = gopass-standin 1\nto bob\nbody 6e65770a\nend\n
    undo
    $ insert -m work/z/x
    < new\nrest
    changes w/z/x.gpg
    stands w/z/x.gpg = gopass-standin 1\nto bob\nto carol\nbody 6e65770a72657374\nend\n
    undo

    # no rule reaches into a mount
    $ insert bare/x
    < new\nrest
    ! gopass: no rule for bare/x\n
    ? 7
    changes nothing
";

const BAD_JOURNALS: &str = r"
    files root/.gpg-id = alice\n
    files root/web/site.gpg = gopass-standin 1\nto alice\nbody 70770a\nend\n
    files root/.gopass-journal = journal 1\nput\troot/web/site.gpg\n
    files root/.gopass-journal.new = journal 1\n
    files root/.gopass-stage/000000 = new
    files root/.gopass-stage/000001 =
    $ insert -f web/site
    < new\nrest
    ! gopass: root/.gopass-journal: line 3 is bad\n
    ? 6
    changes nothing
    $ insert -m x
    < new\nrest
    ! gopass: root/.gopass-journal: line 3 is bad\n
    ? 6
    changes nothing
    $ show web/site
    < new\nrest
    ! gopass: root/.gopass-journal: line 3 is bad\n
    ? 6
    changes nothing
    $ ls
    < new\nrest
    ! gopass: root/.gopass-journal: line 3 is bad\n
    ? 6
    changes nothing
    new store
    files root/.gpg-id = alice\n
    files root/web/site.gpg = gopass-standin 1\nto alice\nbody 70770a\nend\n
    files root/.gopass-journal = journal 1\ndrop\troot/web/site.gpg\ndrop\t../x\nend\n
    files root/.gopass-stage/000000 = new
    $ insert -f web/site
    < new\nrest
    ! gopass: root/.gopass-journal: line 3 is bad\n
    ? 6
    changes nothing
    $ insert -m x
    < new\nrest
    ! gopass: root/.gopass-journal: line 3 is bad\n
    ? 6
    changes nothing
    $ show web/site
    < new\nrest
    ! gopass: root/.gopass-journal: line 3 is bad\n
    ? 6
    changes nothing
    $ ls
    < new\nrest
    ! gopass: root/.gopass-journal: line 3 is bad\n
    ? 6
    changes nothing
";

#[test]
fn insert_puts_the_stand_in_of_the_governing_ids_and_the_body(rt: HostRuntime) -> Result<(), Fail> {
    check(rt.alloc(), PUTS)
}

#[test]
fn a_bad_journal_leaves_every_file(rt: HostRuntime) -> Result<(), Fail> {
    check(rt.alloc(), BAD_JOURNALS)
}
