//! `ls`, `find` and `mounts`.

use std::test::Fail;
use transcript::check;

const LISTINGS: &str = r"
    files root/.gpg-id = alice\n
    files root/a.gpg = not looked at
    files root/a/b.gpg = not looked at

    # ls prints the tree or the names
    $ ls
    > a\n
    > a/\n
    >   b\n
    $ list
    > a\n
    > a/\n
    >   b\n
    $ ls /
    > a\n
    > a/\n
    >   b\n
    $ ls --flat
    > a\n
    > a/b\n
    $ ls a
    > b\n
    $ ls a/
    > b\n
    $ ls --flat a
    > a/b\n

    # ls refuses
    $ ls b
    ! gopass: b is not in the store\n
    ? 3
    $ ls a/b
    ! gopass: a/b is not in the store\n
    ? 3
    $ ls a//
    ! gopass: bad name at 2: a//\n
    ? 2
    $ ls ''
    ! gopass: bad name at 0: \n
    ? 2
    $ ls x.gpg
    ! gopass: bad name at 0: x.gpg\n
    ? 2
    $ ls a b
    ! gopass: bad words at 2\n
    ? 2

    # a tree has a line for each folder
    new store
    files root/a/b/c.gpg =
    files root/a/b/d.gpg =
    files root/a/e.gpg =
    files root/a-b.gpg =
    files root/f.gpg =
    $ ls
    > a-b\n
    > a/\n
    >   b/\n
    >     c\n
    >     d\n
    >   e\n
    > f\n
    $ ls a
    > b/\n
    >   c\n
    >   d\n
    > e\n
    $ ls a/b
    > c\n
    > d\n
    $ ls --flat a
    > a/b/c\n
    > a/b/d\n
    > a/e\n

    # an empty store has a root folder
    new store
    $ ls
    $ find ''
    ? 1
    $ mounts
    > /\troot\tplain\n

    # find prints the names that have a text
    new store
    files root/a.gpg =
    files root/b.gpg =
    files root/mail/web.gpg =
    files root/web/site.gpg =
    $ find zz
    ? 1
    $ find web
    > mail/web\n
    > web/site\n
    $ find b/s
    > web/site\n
    $ find l/w
    > mail/web\n
    $ find ''
    > a\n
    > b\n
    > mail/web\n
    > web/site\n
    $ find .gpg
    ? 1
";

#[test]
fn listings_are_printed(rt: HostRuntime) -> Result<(), Fail> {
    check(rt.alloc(), LISTINGS)
}
