use super::*;
use crate::folder_file::folder_file;
use disk_model::MemDisk;
use mount_table::{DirPath, FilePath, Folder, Mounts, Name};
use pending_journal::{Vault, VaultOpened};
use std::test::*;

fn path(rt: &HostRuntime, text: &str) -> Result<FilePath, Fail> {
    Ok(FilePath::read(rt.alloc(), text)?)
}

pub(crate) type File<'a> = (&'a str, &'a [u8]);

pub(crate) fn disk(rt: &HostRuntime, files: &[File]) -> Result<MemDisk, Fail> {
    let mut list = Vec::new(rt.alloc());
    for (text, bytes) in files {
        list.push((path(rt, text)?, bytes.to_vec(rt.alloc())?))?;
    }
    Ok(MemDisk::new(rt.alloc(), list)?)
}

/// What is found in the store below `root`.
fn find_on(rt: &HostRuntime, disk: MemDisk) -> Result<Result<Found, StoreFault>, Fail> {
    let root = DirPath::read(rt.alloc(), "root")?;
    match Vault::open(rt.alloc(), disk, &root) {
        VaultOpened::Ready(vault) => {
            let mut vault = vault;
            Ok(find(rt.alloc(), &mut vault))
        }
        VaultOpened::Refused(fault, _) => Err(Fail::from(fault)),
    }
}

pub(crate) fn found_on(rt: &HostRuntime, disk: MemDisk) -> Result<Found, Fail> {
    match find_on(rt, disk)? {
        Ok(found) => Ok(found),
        Err(fault) => Err(Fail::from(fault)),
    }
}

fn debug_text(rt: &HostRuntime, fault: &StoreFault) -> Result<String, Fail> {
    Ok(format!(in rt.alloc(); "{fault:?}")?)
}

/// The fault of an opening, as `Debug` writes it, or `none`.
fn fault(rt: &HostRuntime, disk: MemDisk) -> Result<String, Fail> {
    match find_on(rt, disk)? {
        Ok(_) => Ok(String::from_str(rt.alloc(), "none")?),
        Err(fault) => debug_text(rt, &fault),
    }
}

pub(crate) fn names(rt: &HostRuntime, names: &[Name]) -> Result<String, Fail> {
    let mut text = String::new(rt.alloc());
    for name in names {
        text.push_str(name.text())?;
        text.push(' ')?;
    }
    Ok(text)
}

pub(crate) fn folders(rt: &HostRuntime, folders: &[Folder]) -> Result<String, Fail> {
    let mut text = String::new(rt.alloc());
    for folder in folders {
        text.push('/')?;
        text.push_str(folder.text())?;
        text.push(' ')?;
    }
    Ok(text)
}

pub(crate) fn paths(rt: &HostRuntime, paths: &[FilePath]) -> Result<String, Fail> {
    let mut text = String::new(rt.alloc());
    for path in paths {
        text.push_str(path.text())?;
        text.push(' ')?;
    }
    Ok(text)
}

/// A folder, and the paths of its rule and its template.
type FolderFiles = (&'static str, &'static str, &'static str);

const FOLDER_FILES: &[FolderFiles] = &[
    ("/", "root/.gpg-id", "root/.pass-template"),
    ("a/b", "root/a/b/.gpg-id", "root/a/b/.pass-template"),
    ("work", "w/.gpg-id", "w/.pass-template"),
    ("work/x", "w/x/.gpg-id", "w/x/.pass-template"),
    ("workx", "root/workx/.gpg-id", "root/workx/.pass-template"),
];

/// The root's mount, and `work` at `w`.
fn work_mounts(rt: &HostRuntime) -> Result<Mounts, Fail> {
    let root = DirPath::read(rt.alloc(), "root")?;
    Ok(Mounts::read(rt.alloc(), b"\troot\tplain\nwork\tw\tplain\n", &root)?)
}

fn has_rule(rt: &HostRuntime, mounts: &Mounts, folder: &Folder, path: &str) -> Result<bool, Fail> {
    Ok(folder_file(rt.alloc(), mounts, folder, ".gpg-id")?.text() == path)
}

fn has_template(
    rt: &HostRuntime,
    mounts: &Mounts,
    folder: &Folder,
    path: &str,
) -> Result<bool, Fail> {
    Ok(folder_file(rt.alloc(), mounts, folder, ".pass-template")?.text() == path)
}

/// Whether the folder's rule and its template have these paths.
fn has_files(rt: &HostRuntime, mounts: &Mounts, files: FolderFiles) -> Result<bool, Fail> {
    let (text, rule, template) = files;
    let folder = Folder::read(rt.alloc(), text)?;
    Ok(has_rule(rt, mounts, &folder, rule)? && has_template(rt, mounts, &folder, template)?)
}

#[test]
fn folders_have_their_rules_and_templates(rt: HostRuntime) -> Result<(), Fail> {
    let mounts = work_mounts(&rt)?;
    for files in FOLDER_FILES {
        assert!(rt; has_files(&rt, &mounts, *files)?, "{}", files.0);
    }
    Ok(())
}

const BAD: File = ("root/.gopass-mounts", b"\troot\tplain\nwork\tw\tplane\n");

const EMPTY: File = ("root/.gopass-mounts", b"");

const PENDING: File = ("root/.gopass-pending", b"pending 1 1\n");

const SECRET: File = ("root/a.gpg", b"");

/// Files of a disk, and what its opening tells.
const TOLD: &[(&[File], &str)] = &[
    (&[SECRET], "none"),
    (
        &[BAD],
        "BadFile(FilePath { text: Utf8 { text: \"root/.gopass-mounts\" } }, 2)",
    ),
    (
        &[EMPTY],
        "BadFile(FilePath { text: Utf8 { text: \"root/.gopass-mounts\" } }, 1)",
    ),
    (
        &[PENDING],
        "BadFile(FilePath { text: Utf8 { text: \"root/.gopass-pending\" } }, 1)",
    ),
    (
        &[BAD, PENDING],
        "BadFile(FilePath { text: Utf8 { text: \"root/.gopass-mounts\" } }, 2)",
    ),
];

/// Whether the opening of a disk with these files tells this.
fn tells(rt: &HostRuntime, files: &[File], told: &str) -> Result<bool, Fail> {
    Ok(fault(rt, disk(rt, files)?)?.as_str() == told)
}

/// Whether the opening tells that a table of mounts has too many bytes.
fn tells_long(rt: &HostRuntime) -> Result<bool, Fail> {
    let long = "\n".repeat(rt.alloc(), 131_073)?;
    tells(
        rt,
        &[("root/.gopass-mounts", long.as_bytes())],
        "BadFile(FilePath { text: Utf8 { text: \"root/.gopass-mounts\" } }, 0)",
    )
}

#[test]
fn files_that_refuse_the_opening(rt: HostRuntime) -> Result<(), Fail> {
    for (files, told) in TOLD {
        assert!(rt; tells(&rt, files, told)?, "{told}");
    }
    assert!(rt; tells_long(&rt)?);
    Ok(())
}

fn numbered(rt: &HostRuntime, number: usize, ending: &str) -> Result<FilePath, Fail> {
    path(rt, &format!(in rt.alloc(); "root/{number}{ending}")?)
}

/// A disk with so many files of this ending in the root directory.
fn many(rt: &HostRuntime, count: usize, ending: &str) -> Result<MemDisk, Fail> {
    let mut list = Vec::new(rt.alloc());
    for number in 100_000..count.saturating_add(100_000) {
        list.push((numbered(rt, number, ending)?, Vec::new(rt.alloc())))?;
    }
    Ok(MemDisk::new(rt.alloc(), list)?)
}

#[test]
fn secrets_over_the_limit_refuse_the_opening(rt: HostRuntime) -> Result<(), Fail> {
    assert_eq!(rt; fault(&rt, many(&rt, 8192, ".gpg")?)?.as_str(), "none");
    assert_eq!(rt;
        fault(&rt, many(&rt, 8193, ".gpg")?)?.as_str(),
        "Full(Secrets)"
    );
    Ok(())
}

#[test]
fn files_over_the_limit_refuse_the_opening(rt: HostRuntime) -> Result<(), Fail> {
    assert_eq!(rt; fault(&rt, many(&rt, 40_001, "")?)?.as_str(), "Full(Files)");
    Ok(())
}
