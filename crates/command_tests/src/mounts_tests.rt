//! Stores with mounts.

use std::test::Fail;
use transcript::check;

const MOUNTED: &str = r"
    files root/.gopass-mounts = \troot\tplain\nwork\tw\tplain\nwork/db\td\tplain\n
    files root/.gpg-id = alice\n
    files root/work.gpg = gopass-standin 1\nto alice\nbody 310a\nend\n
    files w/db.gpg = gopass-standin 1\nto alice\nbody 320a\nend\n
    files w/dbx/x.gpg = gopass-standin 1\nto alice\nbody 330a\nend\n
    files d/x.gpg = gopass-standin 1\nto alice\nbody 340a\nend\n
    files w/db/x.gpg = shadowed
    files w/notes = strange
    $ show work
    > 1\n
    $ show work/db
    > 2\n
    $ show work/dbx/x
    > 3\n
    $ show work/db/x
    > 4\n
    $ mounts
    > /\troot\tplain\n
    > work\tw\tplain\n
    > work/db\td\tplain\n
    $ ls --flat
    > work\n
    > work/db\n
    > work/db/x\n
    > work/dbx/x\n
    $ ls work/db
    > x\n

    # a mount without secrets is a folder
    new store
    files root/.gopass-mounts = \troot\tplain\nwork\tw\tplain\nwork/db\td\tplain\n
    $ ls work/db
    $ ls work
    $ ls work/d
    ! gopass: work/d is not in the store\n
    ? 3
    $ show work
    ! gopass: work is not in the store\n
    ? 3
";

const BAD_MOUNTS: &str = r"
    files root/.gopass-mounts = \troot\tplain\nwork\tw\tplain\nwork/db\td\tplain
    $ ls
    ! gopass: root/.gopass-mounts: line 3 is bad\n
    ? 6
    $ mounts
    ! gopass: root/.gopass-mounts: line 3 is bad\n
    ? 6
    $ find x
    ! gopass: root/.gopass-mounts: line 3 is bad\n
    ? 6
    $ show a//b
    ! gopass: root/.gopass-mounts: line 3 is bad\n
    ? 6
    $ show
    ! gopass: bad words at 1\n
    ? 2
    files root/.gopass-mounts = \troot\tplain\nwork\tw\tplane\n
    $ ls
    ! gopass: root/.gopass-mounts: line 2 is bad\n
    ? 6
    $ mounts
    ! gopass: root/.gopass-mounts: line 2 is bad\n
    ? 6
    $ find x
    ! gopass: root/.gopass-mounts: line 2 is bad\n
    ? 6
    $ show a//b
    ! gopass: root/.gopass-mounts: line 2 is bad\n
    ? 6
    $ show
    ! gopass: bad words at 1\n
    ? 2
    files root/.gopass-mounts =
    $ ls
    ! gopass: root/.gopass-mounts: line 1 is bad\n
    ? 6
    $ mounts
    ! gopass: root/.gopass-mounts: line 1 is bad\n
    ? 6
    $ find x
    ! gopass: root/.gopass-mounts: line 1 is bad\n
    ? 6
    $ show a//b
    ! gopass: root/.gopass-mounts: line 1 is bad\n
    ? 6
    $ show
    ! gopass: bad words at 1\n
    ? 2
    files root/.gopass-mounts = x*131073
    $ ls
    ! gopass: root/.gopass-mounts: line 0 is bad\n
    ? 6
    $ mounts
    ! gopass: root/.gopass-mounts: line 0 is bad\n
    ? 6
    $ find x
    ! gopass: root/.gopass-mounts: line 0 is bad\n
    ? 6
    $ show a//b
    ! gopass: root/.gopass-mounts: line 0 is bad\n
    ? 6
    $ show
    ! gopass: bad words at 1\n
    ? 2
";

#[test]
fn secrets_lie_in_their_mounts(rt: HostRuntime) -> Result<(), Fail> {
    check(rt.alloc(), MOUNTED)
}

#[test]
fn a_mounts_file_that_does_not_read_refuses_the_opening(rt: HostRuntime) -> Result<(), Fail> {
    check(rt.alloc(), BAD_MOUNTS)
}
