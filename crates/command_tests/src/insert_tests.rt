//! `insert [-f] [-m] NAME`.

use std::test::Fail;
use transcript::check;

const INSERT: &str = r"
    files root/.gpg-id = alice\n
    files root/web/site.gpg = gopass-standin 1\nto alice\nbody 70770a\nend\n

    # a secret is written over with force alone
    $ insert web/site
    < new\n
    ! gopass: web/site is there already\n
    ? 4
    commits 0
    $ show web/site
    > pw\n
    $ insert -f web/site
    < new\n
    commits 1
    $ show web/site
    > new\n

    # a body is one line, with a line feed after it
    $ insert a
    < p
    $ show a
    > p\n
    $ insert b
    < p\nq\n
    $ show b
    > p\n
    $ insert c
    < \nq
    $ show c
    > \n

    # or all of the input
    $ insert -m d
    < p\nq
    $ show d
    > p\nq
    $ insert -m e
    $ show e
    $ insert -f -m f
    < p\n
    $ show f
    > p\n

    # a body has at most 32,768 bytes
    $ insert -m g
    < x*32768
    $ insert -m h
    < x*32769
    ! gopass: limit 32768 body\n
    ? 10
    $ insert i
    < x*32767
    $ show i
    > x*32767\n
    $ insert j
    < x*32768
    ! gopass: limit 32768 body\n
    ? 10

    # faults of the outside are told
    input fails at 0
    $ insert n
    < new\n
    ! gopass: the input failed\n
    ? 15
    input fails at 0
    $ insert -m n
    < new\n
    ! gopass: the input failed\n
    ? 15
    input fails at 0
    $ show web/site
    > new\n
    tool fails at 0
    $ insert -f web/site
    < newer\n
    ! gopass: web/site: the tool failed\n
    ? 11
";

const REFUSED: &str = r"
    files root/.gpg-id = alice\n
    files root/web/site.gpg = gopass-standin 1\nto alice\nbody 70770a\nend\n
    $ insert x
    ! gopass: no body\n
    ? 2
    files root/.gpg-id = dora\n
    $ insert x
    < new\n
    ! gopass: dora is not known to the tool\n
    ? 9
    new store
    $ insert x
    < new\n
    ! gopass: no rule for x\n
    ? 7
";

#[test]
fn insert_takes_a_body(rt: HostRuntime) -> Result<(), Fail> {
    check(rt.alloc(), INSERT)
}

#[test]
fn insert_refuses(rt: HostRuntime) -> Result<(), Fail> {
    check(rt.alloc(), REFUSED)
}
