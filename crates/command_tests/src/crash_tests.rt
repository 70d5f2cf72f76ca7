//! What crashes and failing calls leave of a change.

use std::test::Fail;
use transcript::check;

const CRASHES: &str = r"
    files root/.gpg-id = alice\n
    files root/web/site.gpg = gopass-standin 1\nto alice\nbody 70770a\nend\n
    $ insert -f web/site
    < new\n
    disk calls 19
    crash everywhere
    $ show web/site
    > pw\n
    or
    > new\n

    # after the last call, which the answer follows, it is the new one
    new store
    files root/.gpg-id = alice\n
    files root/web/site.gpg = gopass-standin 1\nto alice\nbody 70770a\nend\n
    $ insert -f web/site
    < new\n
    crash at the end
    $ show web/site
    > new\n
";

const FAILING: &str = r"
    files root/.gpg-id = alice\n
    files root/web/site.gpg = gopass-standin 1\nto alice\nbody 70770a\nend\n
    disk fails at each of 0..19
    $ insert -f web/site
    < new\n
    ! gopass: the disk failed\n
    ? 12
    $ show web/site
    > pw\n
    or
    > new\n

    # also after each crash
    new store
    files root/.gpg-id = alice\n
    files root/web/site.gpg = gopass-standin 1\nto alice\nbody 70770a\nend\n
    disk fails at each of 0..19
    $ insert -f web/site
    < new\n
    ! gopass: the disk failed\n
    ? 12
    crash everywhere
    $ show web/site
    > pw\n
    or
    > new\n
";

#[test]
fn every_crash_shows_the_old_or_the_new_body(rt: HostRuntime) -> Result<(), Fail> {
    check(rt.alloc(), CRASHES)
}

#[test]
fn every_failing_call_shows_the_old_or_the_new_body(rt: HostRuntime) -> Result<(), Fail> {
    check(rt.alloc(), FAILING)
}
