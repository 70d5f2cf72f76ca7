//! Edits of rules, secrets and templates, and what they leave on the disk and in the store.

use super::*;
use crate::tests::{File, disk, push_folders, push_names, push_number, push_paths, store};
use disk_model::MemDisk;
use mount_table::{FilePath, Folder, Name};
use recipient_files::Recipients;
use std::alloc::Global;
use std::test::*;

/// One entry of an edit: the ids of a rule, a line each, the bytes of a secret or those of a template,
/// or none.
#[derive(Clone, Copy)]
pub(crate) enum One {
    Rule(&'static str, Option<&'static str>),
    Secret(&'static str, Option<&'static str>),
    Template(&'static str, Option<&'static str>),
}

fn ids(alloc: Global, text: Option<&str>) -> Result<Option<Recipients>, Fail> {
    match text {
        Some(text) => Ok(Some(Recipients::read(alloc, text.as_bytes())?)),
        None => Ok(None),
    }
}

fn bytes(alloc: Global, text: Option<&str>) -> Result<Option<Vec<u8>>, Fail> {
    match text {
        Some(text) => Ok(Some(text.as_bytes().to_vec(alloc)?)),
        None => Ok(None),
    }
}

pub(crate) fn add_rule(
    alloc: Global,
    edit: &mut Edit,
    folder: &str,
    text: Option<&str>,
) -> Result<(), Fail> {
    let folder = Folder::read(alloc, folder)?;
    let ids = ids(alloc, text)?;
    Ok(edit.rules.push((folder, ids))?)
}

pub(crate) fn add_secret(
    alloc: Global,
    edit: &mut Edit,
    name: &str,
    text: Option<&str>,
) -> Result<(), Fail> {
    let name = Name::read(alloc, name)?;
    let bytes = bytes(alloc, text)?;
    Ok(edit.secrets.push((name, bytes))?)
}

pub(crate) fn add_template(
    alloc: Global,
    edit: &mut Edit,
    folder: &str,
    text: Option<&str>,
) -> Result<(), Fail> {
    let folder = Folder::read(alloc, folder)?;
    let bytes = bytes(alloc, text)?;
    Ok(edit.templates.push((folder, bytes))?)
}

fn add(alloc: Global, edit: &mut Edit, one: One) -> Result<(), Fail> {
    match one {
        One::Rule(folder, text) => add_rule(alloc, edit, folder, text),
        One::Secret(name, text) => add_secret(alloc, edit, name, text),
        One::Template(folder, text) => add_template(alloc, edit, folder, text),
    }
}

pub(crate) fn edit_of(alloc: Global, entries: &[One]) -> Result<Edit, Fail> {
    let mut edit = Edit::new(alloc);
    for one in entries {
        add(alloc, &mut edit, *one)?;
    }
    Ok(edit)
}

/// What `apply` answers, where the edit may be made.
pub(crate) fn applied(
    store: &mut Store<MemDisk>,
    edit: &Edit,
) -> Result<Result<(), ApplyFault>, Fail> {
    if store.is_stuck() || !edit.entries_differ() || !edit.entries_are_few() {
        return Err(Fail::from("no edit of this store"));
    }
    match store.limit_of(edit) {
        Ok(None) => Ok(store.apply(edit)),
        Ok(Some(_)) => Err(Fail::from("a limit is passed")),
        Err(_) => Err(Fail::from("no memory")),
    }
}

/// The bytes of the file, where these have it.
fn file_in<'a>(files: &'a [File], path: &str) -> Option<&'a [u8]> {
    for (text, bytes) in files {
        if *text == path {
            return Some(bytes);
        }
    }
    None
}

fn has(files: &[(FilePath, Vec<u8>)], path: &str) -> bool {
    files.iter().any(|file| file.0.text() == path)
}

/// Each file that is there and was not, or has other bytes than it had, with its bytes; and each one
/// that is gone, behind a minus.
fn push_changes(
    text: &mut String,
    before: &[File],
    after: &[(FilePath, Vec<u8>)],
) -> Result<(), Fail> {
    for (path, bytes) in after {
        if file_in(before, path.text()) != Some(bytes.as_slice()) {
            text.push_str(path.text())?;
            text.push('=')?;
            text.push_str(str::from_utf8(bytes).unwrap_or("?"))?;
            text.push(' ')?;
        }
    }
    for (path, _) in before {
        if !has(after, path) {
            text.push('-')?;
            text.push_str(path)?;
            text.push(' ')?;
        }
    }
    Ok(())
}

/// Each folder with a rule, and its ids.
fn push_rules(text: &mut String, store: &Store<MemDisk>) -> Result<(), Fail> {
    for folder in store.rules().folders() {
        text.push('/')?;
        text.push_str(folder.text())?;
        if let Some(set) = store.rules().at(folder) {
            for id in set.ids() {
                text.push(',')?;
                text.push_str(id.text())?;
            }
        }
        text.push(' ')?;
    }
    Ok(())
}

/// What a store has: its secrets, rules and templates, how many files lie in its mounts, and what is
/// strange and shadowed.
pub(crate) fn push_had(
    rt: &HostRuntime,
    text: &mut String,
    store: &Store<MemDisk>,
) -> Result<(), Fail> {
    push_names(text, store.names())?;
    text.push_str("| ")?;
    push_rules(text, store)?;
    text.push_str("| ")?;
    push_folders(text, store.templates())?;
    text.push_str("| ")?;
    push_number(rt, text, store.files_in(0))?;
    push_number(rt, text, store.files_in(1))?;
    text.push_str("| ")?;
    push_paths(text, store.strange())?;
    text.push_str("| ")?;
    push_paths(text, store.shadowed())
}

pub(crate) const TREE: &[File] = &[
    ("root/.gopass-mounts", b"\troot\tplain\nwork\tw\tplain\n"),
    ("root/.gpg-id", b"alice\n"),
    ("root/.git/HEAD", b"h"),
    ("root/.pass-template", b"t"),
    ("root/a.gpg", b"1"),
    ("root/a/b.gpg", b"2"),
    ("root/odd", b"o"),
    ("root/work/x.gpg", b"s"),
    ("w/.gpg-id", b"bob\n"),
    ("w/x.gpg", b"3"),
];

pub(crate) const HAD: &str =
    "a a/b work/x | /,alice /work,bob | / | 6 2 | root/odd | root/work/x.gpg ";

/// Entries, which files they change, and what the store has then.
type Row = (&'static [One], &'static str, &'static str);

const OF_RULES: &[Row] = &[
    (&[], "", HAD),
    (
        &[One::Rule("a", Some("carol\nbob\n"))],
        "root/a/.gpg-id=bob\ncarol\n ",
        "a a/b work/x | /,alice /a,bob,carol /work,bob | / | 7 2 | root/odd | root/work/x.gpg ",
    ),
    (
        &[One::Rule("/", Some("dora\nalice\ndora\n"))],
        "root/.gpg-id=alice\ndora\n ",
        "a a/b work/x | /,alice,dora /work,bob | / | 6 2 | root/odd | root/work/x.gpg ",
    ),
    (
        &[One::Rule("work", None)],
        "-w/.gpg-id ",
        "a a/b work/x | /,alice | / | 6 1 | root/odd | root/work/x.gpg ",
    ),
    (&[One::Rule("a", None)], "", HAD),
    (
        &[One::Rule("work/x/y", Some("eve\n"))],
        "w/x/y/.gpg-id=eve\n ",
        "a a/b work/x | /,alice /work,bob /work/x/y,eve | / | 6 3 | root/odd | root/work/x.gpg ",
    ),
];

const OF_SECRETS: &[Row] = &[
    (&[One::Secret("a", Some("new"))], "root/a.gpg=new ", HAD),
    (
        &[One::Secret("a", None)],
        "-root/a.gpg ",
        "a/b work/x | /,alice /work,bob | / | 5 2 | root/odd | root/work/x.gpg ",
    ),
    (&[One::Secret("z", None)], "", HAD),
    (
        &[One::Secret("work/y", Some(""))],
        "w/y.gpg= ",
        "a a/b work/x work/y | /,alice /work,bob | / | 6 3 | root/odd | root/work/x.gpg ",
    ),
    (&[One::Secret("work/x", Some("n"))], "w/x.gpg=n ", HAD),
    (
        &[One::Secret("work/x", None)],
        "-w/x.gpg ",
        "a a/b | /,alice /work,bob | / | 6 1 | root/odd | root/work/x.gpg ",
    ),
];

const OF_TEMPLATES: &[Row] = &[
    (
        &[One::Template("/", Some("n"))],
        "root/.pass-template=n ",
        HAD,
    ),
    (
        &[One::Template("/", None)],
        "-root/.pass-template ",
        "a a/b work/x | /,alice /work,bob | | 5 2 | root/odd | root/work/x.gpg ",
    ),
    (
        &[One::Template("work/a", Some("n"))],
        "w/a/.pass-template=n ",
        "a a/b work/x | /,alice /work,bob | / /work/a | 6 3 | root/odd | root/work/x.gpg ",
    ),
    (&[One::Template("a", None)], "", HAD),
];

pub(crate) const SEVERAL: &[One] = &[
    One::Template("work", Some("t")),
    One::Secret("work/x", None),
    One::Rule("a", Some("eve\n")),
    One::Secret("b", Some("4")),
    One::Template("/", None),
    One::Rule("/", None),
    One::Secret("a/b", Some("5")),
    One::Rule("work", Some("bob\nalice\n")),
    One::Secret("a", None),
];

pub(crate) const SEVERAL_CHANGE: &str =
    "root/a/.gpg-id=eve\n root/a/b.gpg=5 root/b.gpg=4 w/.gpg-id=alice\nbob\n w/.pass-template=t -root/.gpg-id -root/.pass-template -root/a.gpg -w/x.gpg ";

pub(crate) const SEVERAL_HAVE: &str =
    "a/b b | /a,eve /work,alice,bob | /work | 5 2 | root/odd | root/work/x.gpg ";

/// What a store has that is opened on the disk.
fn push_opened(rt: &HostRuntime, text: &mut String, disk: MemDisk) -> Result<(), Fail> {
    let store = store(rt, disk)?;
    push_had(rt, text, &store)
}

/// The files that the disk has otherwise than the tree, and, behind a tab, what a store has that is
/// opened on it.
pub(crate) fn push_disk(rt: &HostRuntime, text: &mut String, disk: MemDisk) -> Result<(), Fail> {
    push_changes(text, TREE, disk.files())?;
    text.push('\t')?;
    push_opened(rt, text, disk)
}

fn push_kept(rt: &HostRuntime, text: &mut String, store: &Store<MemDisk>) -> Result<(), Fail> {
    let commits = format!(in rt.alloc(); "{}\t", store.commits())?;
    text.push_str(&commits)?;
    push_had(rt, text, store)?;
    Ok(text.push('\t')?)
}

/// What a store leaves, with tabs between: how many changes it committed, what it has, the files that its
/// disk has otherwise than the tree, and what a store has that is opened on it.
fn push_left(rt: &HostRuntime, text: &mut String, store: Store<MemDisk>) -> Result<(), Fail> {
    push_kept(rt, text, &store)?;
    push_disk(rt, text, store.into_vault().into_disk())
}

/// Whether a store left this: so many commits, these files, and what it has is what one finds that is
/// opened.
fn is_left(text: &str, commits: &str, files: &str, has: &str) -> bool {
    let mut parts = text.split('\t');
    parts.next() == Some(commits)
        && parts.next() == Some(has)
        && parts.next() == Some(files)
        && parts.next() == Some(has)
        && parts.next().is_none()
}

/// Makes the edit.
fn make(rt: &HostRuntime, store: &mut Store<MemDisk>, entries: &[One]) -> Result<(), Fail> {
    let edit = edit_of(rt.alloc(), entries)?;
    Ok(applied(store, &edit)??)
}

/// Makes each entry in an edit of its own.
fn make_singly(rt: &HostRuntime, store: &mut Store<MemDisk>, entries: &[One]) -> Result<(), Fail> {
    for one in entries {
        make(rt, store, &[*one])?;
    }
    Ok(())
}

/// What a store leaves that has made the edit.
fn made(rt: &HostRuntime, text: &mut String, entries: &[One]) -> Result<(), Fail> {
    let mut store = store(rt, disk(rt, TREE)?)?;
    make(rt, &mut store, entries)?;
    push_left(rt, text, store)
}

/// What a store leaves that has made each entry in an edit of its own.
fn made_singly(rt: &HostRuntime, text: &mut String, entries: &[One]) -> Result<(), Fail> {
    let mut store = store(rt, disk(rt, TREE)?)?;
    make_singly(rt, &mut store, entries)?;
    push_left(rt, text, store)
}

/// Whether an edit of these entries leaves these files, and what a store has then.
fn leaves(rt: &HostRuntime, row: &Row) -> Result<bool, Fail> {
    let (entries, files, has) = *row;
    let mut text = String::new(rt.alloc());
    made(rt, &mut text, entries)?;
    Ok(is_left(&text, "1", files, has))
}

/// Whether each row does; the first that does not is told by its number.
fn rows_hold(rt: &HostRuntime, rows: &[Row]) -> Result<(), Fail> {
    for (number, row) in rows.iter().enumerate() {
        if !leaves(rt, row)? {
            return Err(Fail::new(format_args!("row {number}: {}", row.1)));
        }
    }
    Ok(())
}

#[test]
fn rules_are_set_and_removed(rt: HostRuntime) -> Result<(), Fail> {
    rows_hold(&rt, OF_RULES)
}

#[test]
fn secrets_are_written_and_removed(rt: HostRuntime) -> Result<(), Fail> {
    rows_hold(&rt, OF_SECRETS)
}

#[test]
fn templates_are_set_and_removed(rt: HostRuntime) -> Result<(), Fail> {
    rows_hold(&rt, OF_TEMPLATES)
}

#[test]
fn entries_of_all_kinds_are_made_in_one_commit(rt: HostRuntime) -> Result<(), Fail> {
    rows_hold(&rt, &[(SEVERAL, SEVERAL_CHANGE, SEVERAL_HAVE)])
}

#[test]
fn edits_of_one_entry_each_come_to_the_same(rt: HostRuntime) -> Result<(), Fail> {
    let mut text = String::new(rt.alloc());
    made_singly(&rt, &mut text, SEVERAL)?;
    assert!(rt; is_left(&text, "9", SEVERAL_CHANGE, SEVERAL_HAVE));
    Ok(())
}
