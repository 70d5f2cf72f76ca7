//! How often a run asks the tool and the disk.
//!
//! An opening with nothing to mend makes six calls for the vault: the lock, a sync, the journal, its
//! new text, the stage and a sync. Then it reads the mounts file and the pending file, lists the
//! directory of each mount, and reads each rule file. `show` reads a file more; the commit of a change
//! of one put makes nine calls.

use std::test::Fail;
use transcript::check;

const CALLS: &str = r"
    files root/.gpg-id = alice\n
    files root/web/site.gpg = gopass-standin 1\nto alice\nbody 70770a\nend\n
    $ show web/site
    > pw\n
    calls 1
    disk calls 11
    $ show web
    ! gopass: web is a folder\n
    ? 3
    calls 0
    disk calls 10
    $ show web/
    ! gopass: bad name at 4: web/\n
    ? 2
    calls 0
    disk calls 10
    $ ls
    > web/\n
    >   site\n
    calls 0
    disk calls 10
    $ ls --flat web
    > web/site\n
    calls 0
    disk calls 10
    $ find web
    > web/site\n
    calls 0
    disk calls 10
    $ find zz
    ? 1
    calls 0
    disk calls 10
    $ mounts
    > /\troot\tplain\n
    calls 0
    disk calls 10
    $ recipients
    > /\n
    >   alice\n
    calls 0
    disk calls 10
    $ insert x
    < new\n
    calls 1
    disk calls 19
    undo
    $ insert -f web/site
    < new\n
    calls 1
    disk calls 19
    undo
    $ insert web/site
    < new\n
    ! gopass: web/site is there already\n
    ? 4
    calls 0
    disk calls 10

    # bad words ask nobody
    $
    ! gopass: bad words at 0\n
    ? 2
    calls 0
    disk calls 0
    $ frob web/site
    ! gopass: bad words at 0\n
    ? 2
    calls 0
    disk calls 0
    $ show web/site x
    ! gopass: bad words at 2\n
    ? 2
    calls 0
    disk calls 0

    # each mount is listed once, and each rule file read once
    new store
    files root/.gopass-mounts = \troot\tplain\nwork\tw\tplain\nwork/db\td\tplain\n
    files root/.gpg-id = alice\n
    files w/.gpg-id = bob\n
    files w/z/.gpg-id = bob\n
    $ ls
    calls 0
    disk calls 14
    $ recipients
    > /\n
    >   alice\n
    > work\n
    >   bob\n
    > work/z\n
    >   bob\n
    calls 0
    disk calls 14
    $ show work/x
    ! gopass: work/x is not in the store\n
    ? 3
    calls 0
    disk calls 14
    $ insert work/x
    < new\n
    calls 1
    disk calls 23
";

#[test]
fn each_command_opens_the_store_once(rt: HostRuntime) -> Result<(), Fail> {
    check(rt.alloc(), CALLS)
}
