//! What lies below the mounts of a store, found plainly and slowly: each file is looked at below each
//! mount, by nothing but its text. The opening of a store is compared with it.

use crate::Found;
use crate::tests::{File, disk, folders, found_on, names, paths};
use mount_table::{Folder, Name};
use std::test::*;

/// An alias and its directory.
type Mount<'a> = (&'a str, &'a str);

/// The lists of what was found, each in order and each item once.
#[derive(Drop)]
struct Plain {
    names: Vec<String>,
    rules: Vec<String>,
    templates: Vec<String>,
    strange: Vec<String>,
    shadowed: Vec<String>,
}

/// What stands behind the directory and a slash.
fn behind<'a>(dir: &str, path: &'a str) -> Option<&'a str> {
    match path.strip_prefix(dir) {
        Some(rest) => rest.strip_prefix('/'),
        None => None,
    }
}

/// Two texts with a slash between them, or the one that is not empty.
fn joined(rt: &HostRuntime, front: &str, back: &str) -> Result<String, Fail> {
    let mut text = String::from_str(rt.alloc(), front)?;
    if !front.is_empty() && !back.is_empty() {
        text.push('/')?;
    }
    text.push_str(back)?;
    Ok(text)
}

/// The longest alias that is the text or stands in front of it and a slash; with `below`, not the
/// text itself.
fn owner<'a>(mounts: &[Mount<'a>], text: &str, below: bool) -> &'a str {
    let mut best = "";
    for (alias, _) in mounts {
        let reaches = behind(alias, text).is_some() || (!below && *alias == text);
        if reaches && alias.len() > best.len() {
            best = alias;
        }
    }
    best
}

/// The folder whose file of this name the rest is.
fn folder_of(
    rt: &HostRuntime,
    alias: &str,
    rest: &str,
    file: &str,
) -> Result<Option<String>, Fail> {
    let front = match rest.strip_suffix(file) {
        Some(front) => front,
        None => return Ok(None),
    };
    let below = match front.strip_suffix('/') {
        Some(below) => below,
        None if front.is_empty() => "",
        None => return Ok(None),
    };
    let folder = joined(rt, alias, below)?;
    if Folder::of_text(rt.alloc(), &folder).is_err() || (below.is_empty() && !front.is_empty()) {
        return Ok(None);
    }
    Ok(Some(folder))
}

/// The name of the secret whose file the rest is.
fn secret_of(rt: &HostRuntime, alias: &str, rest: &str) -> Result<Option<String>, Fail> {
    match rest.strip_suffix(".gpg") {
        Some(stem) => {
            let name = joined(rt, alias, stem)?;
            if stem.is_empty() || Name::read(rt.alloc(), &name).is_err() {
                return Ok(None);
            }
            Ok(Some(name))
        }
        None => Ok(None),
    }
}

/// Puts a copy of the text into the list.
fn add(rt: &HostRuntime, list: &mut Vec<String>, text: &str) -> Result<(), Fail> {
    Ok(list.push(String::from_str(rt.alloc(), text)?)?)
}

/// Adds what the file is below this mount.
fn look(
    rt: &HostRuntime,
    plain: &mut Plain,
    mounts: &[Mount],
    alias: &str,
    path: &str,
    rest: &str,
) -> Result<(), Fail> {
    if rest.split('/').any(|part| part == ".git") {
        return Ok(());
    }
    if let Some(folder) = folder_of(rt, alias, rest, ".gpg-id")? {
        if owner(mounts, &folder, false) != alias {
            return add(rt, &mut plain.shadowed, path);
        }
        return add(rt, &mut plain.rules, &folder);
    }
    if let Some(folder) = folder_of(rt, alias, rest, ".pass-template")? {
        if owner(mounts, &folder, false) != alias {
            return add(rt, &mut plain.shadowed, path);
        }
        return add(rt, &mut plain.templates, &folder);
    }
    if rest.split('/').any(|part| part.starts_with('.')) {
        return Ok(());
    }
    match secret_of(rt, alias, rest)? {
        Some(name) if owner(mounts, &name, true) == alias => add(rt, &mut plain.names, &name),
        Some(_) => add(rt, &mut plain.shadowed, path),
        None => add(rt, &mut plain.strange, path),
    }
}

/// The items in order, each once and with a space behind it.
fn in_order(rt: &HostRuntime, list: &mut Vec<String>, front: &str) -> Result<String, Fail> {
    list.sort_unstable();
    list.dedup();
    let mut text = String::new(rt.alloc());
    for item in list.iter() {
        text.push_str(front)?;
        text.push_str(item)?;
        text.push(' ')?;
    }
    Ok(text)
}

/// What lies below the mounts.
fn found_plainly(rt: &HostRuntime, mounts: &[Mount], files: &[File]) -> Result<Plain, Fail> {
    let mut plain = Plain {
        names: Vec::new(rt.alloc()),
        rules: Vec::new(rt.alloc()),
        templates: Vec::new(rt.alloc()),
        strange: Vec::new(rt.alloc()),
        shadowed: Vec::new(rt.alloc()),
    };
    for (alias, dir) in mounts {
        for (path, _) in files {
            if *path == "root/.gopass-mounts" {
                continue;
            }
            if let Some(rest) = behind(dir, path) {
                look(rt, &mut plain, mounts, alias, path, rest)?;
            }
        }
    }
    Ok(plain)
}

fn add_line(text: &mut String, line: String) -> Result<(), Fail> {
    text.push_str(&line)?;
    Ok(text.push('\n')?)
}

fn add_plain(rt: &HostRuntime, text: &mut String, plain: &mut Plain) -> Result<(), Fail> {
    add_line(text, in_order(rt, &mut plain.names, "")?)?;
    add_line(text, in_order(rt, &mut plain.rules, "/")?)?;
    add_line(text, in_order(rt, &mut plain.templates, "/")?)?;
    add_line(text, in_order(rt, &mut plain.strange, "")?)?;
    add_line(text, in_order(rt, &mut plain.shadowed, "")?)
}

fn add_found(rt: &HostRuntime, text: &mut String, found: &Found) -> Result<(), Fail> {
    add_line(text, names(rt, &found.seen.names)?)?;
    add_line(text, folders(rt, found.rules.folders())?)?;
    add_line(text, folders(rt, &found.seen.templates)?)?;
    add_line(text, paths(rt, &found.seen.strange)?)?;
    add_line(text, paths(rt, &found.seen.shadowed)?)
}

fn plain_text(rt: &HostRuntime, plain: &mut Plain) -> Result<String, Fail> {
    let mut text = String::new(rt.alloc());
    add_plain(rt, &mut text, plain)?;
    Ok(text)
}

fn found_text(rt: &HostRuntime, found: &Found) -> Result<String, Fail> {
    let mut text = String::new(rt.alloc());
    add_found(rt, &mut text, found)?;
    Ok(text)
}

fn plainly(rt: &HostRuntime, mounts: &[Mount], files: &[File]) -> Result<String, Fail> {
    plain_text(rt, &mut found_plainly(rt, mounts, files)?)
}

fn by_opening(rt: &HostRuntime, files: &[File]) -> Result<String, Fail> {
    found_text(rt, &found_on(rt, disk(rt, files)?)?)
}

/// What an opening finds, a list on each line, and the same of what was found plainly.
fn both(rt: &HostRuntime, mounts: &[Mount], files: &[File]) -> Result<(String, String), Fail> {
    let wanted = plainly(rt, mounts, files)?;
    Ok((by_opening(rt, files)?, wanted))
}

const ROOT: &[Mount] = &[("", "root")];

const THREE: &[Mount] = &[("", "root"), ("work", "w"), ("work/db", "d")];

const TABLE: File = (
    "root/.gopass-mounts",
    b"\troot\tplain\nwork\tw\tplain\nwork/db\td\tplain\n",
);

#[test]
fn secrets_and_folders_of_one_name_are_found_as_defined(rt: HostRuntime) -> Result<(), Fail> {
    let (ours, wanted) = both(
        &rt,
        ROOT,
        &[
            ("root/a.gpg", b""),
            ("root/a/b.gpg", b""),
            ("root/a/b/c.gpg", b""),
            ("root/a", b""),
            ("root/a.b/c.gpg", b""),
            ("root/.gpg-id", b"alice\n"),
            ("root/a/.gpg-id", b"bob\n"),
            ("root/a.gpg/.gpg-id", b"not read"),
            ("root/.pass-template", b""),
            ("root/a/.pass-template", b""),
            ("root/a.gpg/.pass-template", b""),
        ],
    )?;
    assert_eq!(rt; ours.as_str(), wanted.as_str());
    Ok(())
}

#[test]
fn files_whose_names_do_not_read_are_found_as_defined(rt: HostRuntime) -> Result<(), Fail> {
    let (ours, wanted) = both(
        &rt,
        ROOT,
        &[
            ("root/.gpg", b""),
            ("root/x.gpg/y.gpg", b""),
            ("root/x.gpg.gpg", b""),
            ("root/a/.b.gpg", b""),
            ("root/.a/b.gpg", b""),
            ("root/.git/a.gpg", b""),
            ("root/a/.git/a.gpg", b""),
            ("root/a/x.gpg-id", b""),
            ("root/a/.gpg-idx", b""),
            ("root/.pass-template.gpg", b""),
            ("root/README", b""),
            ("other/a.gpg", b""),
            ("rootx/a.gpg", b""),
        ],
    )?;
    assert_eq!(rt; ours.as_str(), wanted.as_str());
    Ok(())
}

#[test]
fn trees_with_mounts_in_mounts_are_found_as_defined(rt: HostRuntime) -> Result<(), Fail> {
    let (ours, wanted) = both(
        &rt,
        THREE,
        &[
            TABLE,
            ("root/work.gpg", b""),
            ("root/work/x.gpg", b""),
            ("root/work/.pass-template", b""),
            ("root/workx/y.gpg", b""),
            ("w/x.gpg", b""),
            ("w/db.gpg", b""),
            ("w/db/x.gpg", b""),
            ("w/db/.gpg-id", b""),
            ("w/.gpg-id", b"alice\n"),
            ("w/dbx/.gpg-id", b"alice\n"),
            ("d/.gpg-id", b"alice\n"),
            ("w/.pass-template", b""),
            ("w/notes", b""),
            ("d/x.gpg", b""),
            ("d/y/z.gpg", b""),
            ("d/.pass-template", b""),
            ("d/y/.hidden", b""),
            ("e/x.gpg", b""),
        ],
    )?;
    assert_eq!(rt; ours.as_str(), wanted.as_str());
    Ok(())
}
