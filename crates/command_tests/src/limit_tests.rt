//! Stores at their limits, and stores that pass one.

use std::test::Fail;
use transcript::check;

const PLACES: &str = r"
    # 64 mounts, one of them that of the root directory
    files root/.gopass-mounts = \troot\tplain\n
    each 11..74 adds root/.gopass-mounts = m#\tm#\tplain\n
    $ mounts
    > /\troot\tplain\n
    each 11..74 > m#\tm#\tplain\n
    adds root/.gopass-mounts = m74\tm74\tplain\n
    $ mounts
    ! gopass: root/.gopass-mounts: line 65 is bad\n
    ? 6

    # 512 rules, one of them at the root
    new store
    files root/.gpg-id = alice\n
    each 10000..10511 files root/#/.gpg-id = bob\n
    $ recipients
    > /\n
    >   alice\n
    each 10000..10511 > #\n  bob\n
    files root/10511/.gpg-id = bob\n
    $ recipients
    ! gopass: limit 512 rules\n
    ? 10
";

const SECRETS: &str = r"
    files root/.gpg-id = alice\n
    each 10000..18191 files root/#.gpg =
    $ insert x
    < new\n
    $ insert y
    < new\n
    ! gopass: limit 8192 secrets\n
    ? 10
    $ insert -f x
    < new\n
";

const MORE: &str = r"
    files root/.gpg-id = alice\n
    each 10000..18193 files root/#.gpg =
    $ find zz
    ! gopass: limit 8192 secrets\n
    ? 10
";

const FILES: &str = r"
    files root/.gpg-id = alice\n
    files root/web/site.gpg = gopass-standin 1\nto alice\nbody 70770a\nend\n

    # 39,999 files, of which two stand
    crowd 39997
    $ insert x
    < new\n
    undo

    # 40,000 files
    crowd 39998
    $ insert x
    < new\n
    ! gopass: limit 40000 files\n
    ? 10
    $ insert -f web/site
    < new\n

    # 40,001 files
    crowd 39999
    $ find zz
    ! gopass: limit 40000 files\n
    ? 10
";

#[test]
fn a_store_has_at_most_64_mounts_and_512_rules(rt: HostRuntime) -> Result<(), Fail> {
    check(rt.alloc(), PLACES)
}

#[test]
fn insert_fills_a_store_up_to_8192_secrets(rt: HostRuntime) -> Result<(), Fail> {
    check(rt.alloc(), SECRETS)
}

#[test]
fn a_store_with_8193_secrets_is_not_opened(rt: HostRuntime) -> Result<(), Fail> {
    check(rt.alloc(), MORE)
}

#[test]
fn a_mount_has_at_most_40000_files(rt: HostRuntime) -> Result<(), Fail> {
    check(rt.alloc(), FILES)
}
