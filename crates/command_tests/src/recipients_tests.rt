//! The rules of a store, and `recipients`.

use std::test::Fail;
use transcript::check;

const RULES: &str = r"
    files root/.gpg-id = bob # office\n\nalice\nbob\n
    files root/a/b/.gpg-id = bob\n
    files root/a.gpg = not looked at
    $ recipients
    > /\n
    >   alice\n
    >   bob\n
    > a/b\n
    >   bob\n
    $ recipients x
    ! gopass: bad words at 1\n
    ? 2

    # a store without rules prints none
    new store
    $ recipients

    # rules of mounts are printed, and shadowed ones are not
    new store
    files root/.gopass-mounts = \troot\tplain\nwork\tw\tplain\nwork/db\td\tplain\n
    files root/.gpg-id = alice\n
    files root/work/.gpg-id = not read, since it is shadowed\n
    files w/.gpg-id = bob\n
    files w/db/.gpg-id = not read, since it is shadowed\n
    files w/z/.gpg-id = alice\nbob\n
    files d/x/.gpg-id = carol
    $ recipients
    > /\n
    >   alice\n
    > work\n
    >   bob\n
    > work/db/x\n
    >   carol\n
    > work/z\n
    >   alice\n
    >   bob\n
";

const BAD_RULES: &str = r"
    files root/.gpg-id = alice\nbob\r\n
    $ recipients
    ! gopass: root/.gpg-id: line 2 is bad\n
    ? 6
    $ ls
    ! gopass: root/.gpg-id: line 2 is bad\n
    ? 6
    $ mounts
    ! gopass: root/.gpg-id: line 2 is bad\n
    ? 6
    $ find x
    ! gopass: root/.gpg-id: line 2 is bad\n
    ? 6
    $ show x
    ! gopass: root/.gpg-id: line 2 is bad\n
    ? 6
    files root/.gpg-id = \x23 none\n
    $ recipients
    ! gopass: root/.gpg-id: line 0 is bad\n
    ? 6
    $ ls
    ! gopass: root/.gpg-id: line 0 is bad\n
    ? 6
    $ mounts
    ! gopass: root/.gpg-id: line 0 is bad\n
    ? 6
    $ find x
    ! gopass: root/.gpg-id: line 0 is bad\n
    ? 6
    $ show x
    ! gopass: root/.gpg-id: line 0 is bad\n
    ? 6
    files root/.gpg-id = -x\n
    $ recipients
    ! gopass: root/.gpg-id: line 1 is bad\n
    ? 6
    $ ls
    ! gopass: root/.gpg-id: line 1 is bad\n
    ? 6
    $ mounts
    ! gopass: root/.gpg-id: line 1 is bad\n
    ? 6
    $ find x
    ! gopass: root/.gpg-id: line 1 is bad\n
    ? 6
    $ show x
    ! gopass: root/.gpg-id: line 1 is bad\n
    ? 6
    files root/.gpg-id = \n*65537
    $ recipients
    ! gopass: root/.gpg-id: line 0 is bad\n
    ? 6
    $ ls
    ! gopass: root/.gpg-id: line 0 is bad\n
    ? 6
    $ mounts
    ! gopass: root/.gpg-id: line 0 is bad\n
    ? 6
    $ find x
    ! gopass: root/.gpg-id: line 0 is bad\n
    ? 6
    $ show x
    ! gopass: root/.gpg-id: line 0 is bad\n
    ? 6
";

#[test]
fn recipients_prints_each_rule(rt: HostRuntime) -> Result<(), Fail> {
    check(rt.alloc(), RULES)
}

#[test]
fn a_rule_file_that_does_not_read_refuses_the_opening(rt: HostRuntime) -> Result<(), Fail> {
    check(rt.alloc(), BAD_RULES)
}
