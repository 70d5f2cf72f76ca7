use super::*;
use std::alloc::{AllocError, Global};
use std::process::Abort;
use std::test::*;

/// Parts of these lengths, with `/` between them.
fn text_of(alloc: Global, lengths: &[usize]) -> Result<String, AllocError> {
    let mut text = String::new(alloc);
    for (i, length) in lengths.iter().enumerate() {
        if i > 0 {
            text.push('/')?;
        }
        for _ in 0..*length {
            text.push('a')?;
        }
    }
    Ok(text)
}

fn name_fault(at: usize, kind: NameKind) -> Option<NameFault> {
    Some(NameFault::Bad(BadName { at, kind }))
}

/// Why the text is no name.
fn name_fault_of(alloc: Global, text: &str) -> Option<NameFault> {
    Name::read(alloc, text).err()
}

fn name_fault_by_lengths(alloc: Global, lengths: &[usize]) -> Result<Option<NameFault>, Fail> {
    let text = text_of(alloc, lengths)?;
    Ok(name_fault_of(alloc, &text))
}

#[test]
fn names_read_or_fail_at_their_first_fault(rt: HostRuntime) -> Result<(), Fail> {
    for (text, fault) in [
        ("a/b", None),
        ("y/x.gpg", None),
        ("", name_fault(0, NameKind::Empty)),
        ("web/", name_fault(4, NameKind::Empty)),
        ("a//b", name_fault(2, NameKind::Empty)),
        ("a/.b", name_fault(2, NameKind::Dots)),
        ("a/b\tc/.d", name_fault(2, NameKind::Control)),
        ("a\x7f", name_fault(0, NameKind::Control)),
        ("x.gpg/y", name_fault(0, NameKind::FolderGpg)),
    ] {
        assert_eq!(rt; name_fault_of(rt.alloc(), text), fault, "at {text}");
    }
    for (lengths, fault) in [
        ([1; 16].as_slice(), None),
        ([1; 17].as_slice(), name_fault(32, NameKind::ManyParts)),
        (&[1, 100], None),
        (&[1, 101], name_fault(2, NameKind::LongPart)),
        (&[100, 100, 100, 97], None),
        (&[100, 100, 100, 98], name_fault(400, NameKind::LongName)),
    ] {
        assert_eq!(rt; name_fault_by_lengths(rt.alloc(), lengths)?, fault);
    }
    Ok(())
}

/// Whether the first name holds the second.
fn name_holds(alloc: Global, outer: &str, inner: &str) -> Result<bool, Fail> {
    let outer = Name::read(alloc, outer)?;
    Ok(outer.holds(&Name::read(alloc, inner)?))
}

#[test]
fn a_name_holds_the_names_below_it(rt: HostRuntime) -> Result<(), Fail> {
    assert!(rt; name_holds(rt.alloc(), "a", "a/b")?);
    assert!(rt; !name_holds(rt.alloc(), "a", "a")?);
    assert!(rt; !name_holds(rt.alloc(), "a", "ab/c")?);
    Ok(())
}

/// Whether the name has this file below `root`.
fn has_file(alloc: Global, name: &str, file: &str) -> Result<bool, Fail> {
    let root = DirPath::read(alloc, "root")?;
    let name = Name::read(alloc, name)?;
    Ok(name.file_in(alloc, &root)?.text() == file)
}

#[test]
fn a_directory_names_its_files(rt: HostRuntime) -> Result<(), Fail> {
    assert!(rt; has_file(rt.alloc(), "web/site", "root/web/site.gpg")?);
    assert!(rt; has_file(rt.alloc(), "y/x.gpg", "root/y/x.gpg.gpg")?);
    Ok(())
}

/// Why the text names no folder.
fn folder_fault_of(alloc: Global, text: &str) -> Option<NameFault> {
    Folder::read(alloc, text).err()
}

fn folder_fault_by_lengths(alloc: Global, lengths: &[usize]) -> Result<Option<NameFault>, Fail> {
    let text = text_of(alloc, lengths)?;
    Ok(folder_fault_of(alloc, &text))
}

/// Whether the text names the folder with the other text.
fn names_folder(alloc: Global, text: &str, folder: &str) -> Result<bool, Fail> {
    Ok(Folder::read(alloc, text)?.text() == folder)
}

/// Whether the folder holds the name.
fn folder_holds(alloc: Global, folder: &str, name: &str) -> Result<bool, Fail> {
    let folder = Folder::read(alloc, folder)?;
    Ok(folder.holds(&Name::read(alloc, name)?))
}

fn folders_fail_at_their_first_fault(rt: &impl Abort, alloc: Global) {
    for (text, fault) in [
        ("/", None),
        ("a", None),
        ("a/b/", None),
        ("", name_fault(0, NameKind::Empty)),
        ("//", name_fault(0, NameKind::Empty)),
        ("a//", name_fault(2, NameKind::Empty)),
        ("a/.b/", name_fault(2, NameKind::Dots)),
        ("a/x.gpg", name_fault(2, NameKind::FolderGpg)),
        ("x.gpg/y", name_fault(0, NameKind::FolderGpg)),
    ] {
        assert_eq!(rt; folder_fault_of(alloc, text), fault, "at {text}");
    }
}

#[test]
fn folders_read_with_a_slash_or_without(rt: HostRuntime) -> Result<(), Fail> {
    let alloc = rt.alloc();
    folders_fail_at_their_first_fault(&rt, alloc);
    for (lengths, fault) in [
        ([100, 100, 100, 97].as_slice(), None),
        (&[100, 100, 100, 98], name_fault(400, NameKind::LongName)),
        ([1; 16].as_slice(), None),
        ([1; 17].as_slice(), name_fault(32, NameKind::ManyParts)),
        (&[101], name_fault(0, NameKind::LongPart)),
    ] {
        assert_eq!(rt; folder_fault_by_lengths(alloc, lengths)?, fault);
    }
    for (text, folder) in [("/", ""), ("a/b", "a/b"), ("a/b/", "a/b")] {
        assert!(rt; names_folder(alloc, text, folder)?, "at {text}");
    }
    for (folder, name, holds) in [
        ("/", "a", true),
        ("a/b", "a/b/c", true),
        ("a/b", "a/b", false),
        ("a/b", "a/bc/d", false),
        ("a/b", "a", false),
    ] {
        assert_eq!(rt; folder_holds(alloc, folder, name)?, holds);
    }
    Ok(())
}

/// The mount of the root alone.
fn root_mount(alloc: Global) -> Result<Mounts, Fail> {
    let root = DirPath::read(alloc, "root")?;
    Ok(Mounts::only(alloc, &root)?)
}

/// Adds the mount, and tells why it is refused where it is.
fn add(
    alloc: Global,
    mounts: &mut Mounts,
    alias: &str,
    dir: &str,
) -> Result<Option<AddFault>, Fail> {
    let alias = Folder::read(alloc, alias)?;
    let dir = DirPath::read(alloc, dir)?;
    Ok(mounts.add(&alias, &dir).err())
}

fn added(alloc: Global, mounts: &mut Mounts, alias: &str, dir: &str) -> Result<(), Fail> {
    match add(alloc, mounts, alias, dir)? {
        Some(fault) => Err(Fail::from(fault)),
        None => Ok(()),
    }
}

/// The mounts `work` at `w` and `work/db` at `d`, beside the root's.
fn work_mounts(alloc: Global) -> Result<Mounts, Fail> {
    let mut mounts = root_mount(alloc)?;
    added(alloc, &mut mounts, "work/db", "d")?;
    added(alloc, &mut mounts, "work", "w")?;
    Ok(mounts)
}

/// Whether the secret lies at this place, in this file.
fn lies_at(
    alloc: Global,
    mounts: &Mounts,
    name: &str,
    place: Place,
    file: &str,
) -> Result<bool, Fail> {
    let name = Name::read(alloc, name)?;
    Ok(mounts.file_of(&name)?.text() == file && mounts.resolve(&name) == place)
}

fn row_of(alloc: Global, mounts: &Mounts, folder: &str) -> Result<usize, Fail> {
    let folder = Folder::read(alloc, folder)?;
    Ok(mounts.resolve_folder(&folder))
}

fn names_are_resolved(rt: &impl Abort, alloc: Global, mounts: &Mounts) -> Result<(), Fail> {
    for (name, row, from, file) in [
        ("work/db/x", 2, 8, "d/x.gpg"),
        ("work/dbx/x", 1, 5, "w/dbx/x.gpg"),
        ("work/db", 1, 5, "w/db.gpg"),
        ("work", 0, 0, "root/work.gpg"),
    ] {
        assert!(rt;
            lies_at(alloc, mounts, name, Place { row, from }, file)?,
            "at {name}"
        );
    }
    for (folder, row) in [("work/db", 2), ("work/dbx", 1), ("work", 1), ("/", 0)] {
        assert_eq!(rt; row_of(alloc, mounts, folder)?, row, "at {folder}");
    }
    Ok(())
}

#[test]
fn the_mount_of_a_name_has_the_longest_alias(rt: HostRuntime) -> Result<(), Fail> {
    let mounts = work_mounts(rt.alloc())?;
    names_are_resolved(&rt, rt.alloc(), &mounts)
}

/// Whether no mount of this alias is removed.
fn is_absent(alloc: Global, mounts: &mut Mounts, alias: &str) -> Result<bool, Fail> {
    let alias = Folder::read(alloc, alias)?;
    Ok(mounts.remove(&alias).is_err())
}

/// Whether the mount of the alias that is removed had this directory.
fn is_removed(alloc: Global, mounts: &mut Mounts, alias: &str, dir: &str) -> Result<bool, Fail> {
    let alias = Folder::read(alloc, alias)?;
    Ok(mounts.remove(&alias)?.dir.text() == dir)
}

/// Whether the mounts are written so.
fn is_written(mounts: &Mounts, text: &[u8]) -> Result<bool, Fail> {
    Ok(mounts.write()?.as_slice() == text)
}

fn refuse(rt: &impl Abort, alloc: Global, mounts: &mut Mounts) -> Result<(), Fail> {
    for (alias, dir, fault) in [
        ("x", "w/y", AddFault::DirNests(1)),
        ("x", "root", AddFault::DirNests(0)),
        ("work", "z", AddFault::AliasUsed),
        ("/", "w", AddFault::AliasUsed),
    ] {
        assert_eq!(rt; add(alloc, mounts, alias, dir)?, Some(fault), "{alias}");
    }
    for absent in ["/", "x"] {
        assert!(rt; is_absent(alloc, mounts, absent)?, "{absent}");
    }
    Ok(())
}

fn go(rt: &impl Abort, alloc: Global, mounts: &mut Mounts) -> Result<(), Fail> {
    assert!(rt; mounts.rows().len() > 2);
    mounts.set_git(2);
    assert!(rt; is_removed(alloc, mounts, "work", "w")?);
    assert!(rt; is_written(mounts, b"\troot\tplain\nwork/db\td\tgit\n")?);
    Ok(())
}

#[test]
fn mounts_come_and_go(rt: HostRuntime) -> Result<(), Fail> {
    let mut mounts = work_mounts(rt.alloc())?;
    refuse(&rt, rt.alloc(), &mut mounts)?;
    go(&rt, rt.alloc(), &mut mounts)
}

/// Adds a mount whose alias and directory have this length.
fn add_long(alloc: Global, mounts: &mut Mounts, length: usize) -> Result<Option<AddFault>, Fail> {
    let text = text_of(alloc, &[length])?;
    add(alloc, mounts, &text, &text)
}

fn takes_64(rt: &impl Abort, alloc: Global, mounts: &mut Mounts) -> Result<(), Fail> {
    for length in 1..65 {
        let fault = if length == 64 {
            Some(AddFault::Full)
        } else {
            None
        };
        assert_eq!(rt; add_long(alloc, mounts, length)?, fault, "{length}");
    }
    assert_eq!(rt; mounts.rows().len(), 64);
    Ok(())
}

#[test]
fn at_most_64_mounts(rt: HostRuntime) -> Result<(), Fail> {
    let mut mounts = root_mount(rt.alloc())?;
    takes_64(&rt, rt.alloc(), &mut mounts)
}

const TABLE: &[u8] = b"\troot\tplain\nwork\tw\tplain\nwork/db\td\tplain\n";

fn mounts_fault(alloc: Global, bytes: &[u8]) -> Result<Option<MountsFault>, Fail> {
    let root = DirPath::read(alloc, "root")?;
    Ok(Mounts::read(alloc, bytes, &root).err())
}

/// Whether a copy of the mounts is written so.
fn copy_is_written(mounts: &Mounts, text: &[u8]) -> Result<bool, Fail> {
    is_written(&mounts.copy()?, text)
}

#[test]
fn mounts_are_written_as_they_are_read(rt: HostRuntime) -> Result<(), Fail> {
    let is_table = copy_is_written(&work_mounts(rt.alloc())?, TABLE)?;
    assert!(rt; is_table);
    for (bytes, line) in [
        (TABLE, None),
        (b"\troot\tplain\nwork\tw\tplain\nwork/db\td\tplain", Some(3)),
        (b"", Some(1)),
        (b"\tother\tplain\n", Some(1)),
        (b"a\troot\tplain\n", Some(1)),
        (b"\troot\tplain\n\n", Some(2)),
        (b"\troot\tplain\nb\tx\tgit\na\ty\tgit\n", Some(3)),
        (b"\troot\tplain\na\tx\tgit\na\ty\tgit\n", Some(3)),
        (b"\troot\tplain\na\tx\tgit\nb\tx/y\tgit\n", Some(3)),
        (b"\troot\tplain\na/\tx\tgit\n", Some(2)),
        (b"\troot\tplain\na\tx\tGit\n", Some(2)),
        (b"\troot\tplain\n\xff\tx\tgit\n", Some(2)),
    ] {
        let fault = line.map(|line| MountsFault::BadLine(line));
        assert_eq!(rt; mounts_fault(rt.alloc(), bytes)?, fault);
    }
    Ok(())
}

fn is_send<T: Send>() {}

/// That a store's values may go to another thread is told by the types.
#[test]
fn values_are_send(_: HostRuntime) -> Result<(), Fail> {
    is_send::<Mounts>();
    is_send::<Row>();
    is_send::<Name>();
    is_send::<Folder>();
    is_send::<DirPath>();
    is_send::<FilePath>();
    Ok(())
}
