//! What an edit has to be to be made: entries that differ, and no limit that is passed.

use super::*;
use crate::edit_tests::{One, SEVERAL, add_rule, add_secret, add_template, applied, edit_of};
use crate::tests::store;
use disk_model::MemDisk;
use mount_table::FilePath;
use std::alloc::Global;
use std::test::*;

/// Entries, and whether they differ.
const OF_ONE_THING: &[(&[One], bool)] = &[
    (&[], true),
    (SEVERAL, true),
    (
        &[
            One::Secret("a", None),
            One::Rule("a", None),
            One::Template("a", None),
        ],
        true,
    ),
    (
        &[One::Secret("a", Some("1")), One::Secret("a", None)],
        false,
    ),
    (
        &[
            One::Rule("a", None),
            One::Rule("/", None),
            One::Rule("a", None),
        ],
        false,
    ),
    (
        &[
            One::Secret("x", None),
            One::Template("a", Some("")),
            One::Template("/", None),
            One::Template("/", None),
        ],
        false,
    ),
];

#[test]
fn entries_of_one_thing_do_not_differ(rt: HostRuntime) -> Result<(), Fail> {
    for (entries, differ) in OF_ONE_THING {
        let edit = edit_of(rt.alloc(), entries)?;
        assert_eq!(rt; edit.entries_differ(), *differ);
        assert!(rt; edit.entries_are_few());
    }
    Ok(())
}

/// The path of the rule file of the folder with this number.
fn rule_path(alloc: Global, number: usize) -> Result<FilePath, Fail> {
    let text = format!(in alloc; "root/f{number:03}/.gpg-id")?;
    Ok(FilePath::read(alloc, &text)?)
}

/// So many rule files, one each in a folder of its own.
fn rule_files(alloc: Global, count: usize) -> Result<Vec<(FilePath, Vec<u8>)>, Fail> {
    let mut files = Vec::new(alloc);
    for number in 0..count {
        let path = rule_path(alloc, number)?;
        files.push((path, b"alice\n".to_vec(alloc)?))?;
    }
    Ok(files)
}

/// A store with so many rules.
fn with_rules(rt: &HostRuntime, count: usize) -> Result<Store<MemDisk>, Fail> {
    let files = rule_files(rt.alloc(), count)?;
    store(rt, MemDisk::new(rt.alloc(), files)?)
}

fn limit_of(store: &Store<MemDisk>, edit: &Edit) -> Result<Option<Limit>, Fail> {
    if store.is_stuck() || !edit.entries_are_few() {
        return Err(Fail::from("no edit of this store"));
    }
    Ok(store.limit_of(edit)?)
}

/// Entries, the limit that they pass, and the number of rules then, where those that pass none are made.
type Row<'a> = (&'a [One], Option<Limit>, usize);

/// Whether the entries pass this limit, and the store has so many rules then.
fn holds(rt: &HostRuntime, store: &mut Store<MemDisk>, row: Row) -> Result<bool, Fail> {
    let (entries, limit, count) = row;
    let edit = edit_of(rt.alloc(), entries)?;
    let is = limit_of(store, &edit)? == limit;
    if limit.is_none() {
        applied(store, &edit)??;
    }
    Ok(is && store.rules().folders().len() == count)
}

/// Whether each row holds, one after the other.
fn all_hold(rt: &HostRuntime, store: &mut Store<MemDisk>, rows: &[Row]) -> Result<bool, Fail> {
    let mut all = true;
    for row in rows {
        all = holds(rt, store, *row)? && all;
    }
    Ok(all)
}

/// Whether they do on a store that begins with 511 rules.
fn hold_on_511(rt: &HostRuntime, rows: &[Row]) -> Result<bool, Fail> {
    let mut store = with_rules(rt, 511)?;
    all_hold(rt, &mut store, rows)
}

#[test]
fn a_store_has_at_most_512_rules(rt: HostRuntime) -> Result<(), Fail> {
    const NEW: Option<&str> = Some("bob\n");
    const ROWS: &[Row] = &[
        (
            &[One::Rule("g", NEW), One::Rule("h", NEW)],
            Some(Limit::Rules),
            511,
        ),
        (&[One::Rule("g", NEW)], None, 512),
        (&[One::Rule("f510", NEW)], None, 512),
        (&[One::Rule("h", NEW)], Some(Limit::Rules), 512),
        (&[One::Secret("h", NEW), One::Template("h", NEW)], None, 512),
        (&[One::Rule("h", NEW), One::Rule("f000", None)], None, 512),
        (&[One::Rule("h", None)], None, 511),
    ];
    assert!(rt; hold_on_511(&rt, ROWS)?);
    Ok(())
}

/// So many secrets more.
fn add_secrets(alloc: Global, edit: &mut Edit, count: usize) -> Result<(), Fail> {
    for number in 0..count {
        let name = format!(in alloc; "s{number:05}")?;
        add_secret(alloc, edit, &name, Some(""))?;
    }
    Ok(())
}

/// So many rules more.
fn add_rules(alloc: Global, edit: &mut Edit, count: usize) -> Result<(), Fail> {
    for number in 0..count {
        let folder = format!(in alloc; "g{number}")?;
        add_rule(alloc, edit, &folder, Some("bob\n"))?;
    }
    Ok(())
}

/// The limit that so many secrets and rules more pass, in a store with one rule.
fn limit_by(rt: &HostRuntime, secrets: usize, rules: usize) -> Result<Option<Limit>, Fail> {
    let mut edit = Edit::new(rt.alloc());
    add_secrets(rt.alloc(), &mut edit, secrets)?;
    add_rules(rt.alloc(), &mut edit, rules)?;
    let store = with_rules(rt, 1)?;
    limit_of(&store, &edit)
}

#[test]
fn a_store_has_at_most_8192_secrets(rt: HostRuntime) -> Result<(), Fail> {
    for (secrets, rules, limit) in [
        (8_192, 0, None),
        (8_193, 0, Some(Limit::Secrets)),
        (8_193, 511, Some(Limit::Secrets)),
        (8_193, 512, Some(Limit::Rules)),
    ] {
        assert_eq!(rt; limit_by(&rt, secrets, rules)?, limit, "{secrets} {rules}");
    }
    Ok(())
}

/// Whether an edit of so many secrets, so many rules and a template has few entries.
fn are_few(alloc: Global, secrets: usize, rules: usize) -> Result<bool, Fail> {
    let mut edit = Edit::new(alloc);
    add_secrets(alloc, &mut edit, secrets)?;
    add_rules(alloc, &mut edit, rules)?;
    add_template(alloc, &mut edit, "a", None)?;
    Ok(edit.entries_are_few())
}

#[test]
fn an_edit_has_at_most_16400_entries(rt: HostRuntime) -> Result<(), Fail> {
    assert!(rt; are_few(rt.alloc(), 16_398, 1)?);
    assert!(rt; !are_few(rt.alloc(), 16_398, 2)?);
    Ok(())
}
