//! Streams that fail, and streams that never do.

use std::test::Fail;
use transcript::check;

const SINKS: &str = r"
    files root/.gpg-id = alice\n
    files root/web/site.gpg = gopass-standin 1\nto alice\nbody 70770a\nend\n
    errors fails at 0
    $
    ? 16
    errors fails at 0
    $ show x
    ? 16
    errors fails at 0
    $ insert web/site
    < new\nrest
    ? 16

    # where nothing goes to standard error it is not called
    errors fails at 0
    $ show web/site
    > pw\n
    errors fails at 0
    $ insert x
    < new\nrest
    errors fails at 0
    $ find zz
    ? 1
";

const SURE: &str = r"
    files root/.gpg-id = alice\n
    files root/web/site.gpg = gopass-standin 1\nto alice\nbody 70770a\nend\n
    sure streams
    $ show web/site
    < new\nrest
    > pw\n
    left new\nrest
    sure streams
    $ show x
    < new\nrest
    ! gopass: x is not in the store\n
    ? 3
    left new\nrest
    sure streams
    $ insert x
    < new\nrest
    left rest
    undo
    sure streams
    $ insert -m x
    < new\nrest
    left
";

#[test]
fn a_sink_for_errors_that_fails_is_told(rt: HostRuntime) -> Result<(), Fail> {
    check(rt.alloc(), SINKS)
}

#[test]
fn streams_that_never_fail_do_as_well(rt: HostRuntime) -> Result<(), Fail> {
    check(rt.alloc(), SURE)
}
