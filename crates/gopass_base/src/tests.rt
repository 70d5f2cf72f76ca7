use super::*;
use std::alloc::{AllocError, Global};
use std::test::*;

/// Parts of these lengths, with `/` between them.
fn text_of(alloc: Global, lengths: &[usize]) -> Result<String, AllocError> {
    let mut text = String::new(alloc);
    for (i, length) in lengths.iter().enumerate() {
        if i > 0 {
            text.push('/')?;
        }
        for _ in 0..*length {
            text.push('a')?;
        }
    }
    Ok(text)
}

const BAD: Option<PathFault> = Some(PathFault::Bad);

/// How the text is refused as the path of a file, as a directory, and behind `base/work/`.
fn faults(alloc: Global, text: &str) -> Result<[Option<PathFault>; 3], PathFault> {
    let dir = DirPath::read(alloc, "base/work")?;
    Ok([
        FilePath::read(alloc, text).err(),
        DirPath::read(alloc, text).err(),
        dir.join(alloc, text).err(),
    ])
}

#[test]
fn paths_read_or_are_refused(rt: HostRuntime) -> Result<(), Fail> {
    for (text, wanted) in [
        ("base", [None, None, None]),
        ("a/...", [None, BAD, None]),
        ("a/.git/b", [None, BAD, None]),
        ("a/x.gpg", [None, BAD, None]),
        ("", [BAD, BAD, BAD]),
        (".", [BAD, BAD, BAD]),
        ("a/..", [BAD, BAD, BAD]),
        ("a/../b", [BAD, BAD, BAD]),
        ("a/", [BAD, BAD, BAD]),
        ("/a", [BAD, BAD, BAD]),
        ("a\nb", [BAD, BAD, BAD]),
    ] {
        assert_eq!(rt; faults(rt.alloc(), text)?, wanted, "at {text}");
    }
    Ok(())
}

#[test]
fn paths_have_their_limits(rt: HostRuntime) -> Result<(), Fail> {
    for (lengths, wanted) in [
        ([1; 12].as_slice(), [None, None, None]),
        ([1; 13].as_slice(), [None, BAD, None]),
        ([1; 30].as_slice(), [None, BAD, None]),
        ([1; 32].as_slice(), [None, BAD, BAD]),
        ([1; 33].as_slice(), [BAD, BAD, BAD]),
        (&[255], [None, None, None]),
        (&[256], [BAD, BAD, BAD]),
        (&[249, 250], [None, None, None]),
        (&[250, 250], [None, BAD, None]),
        (&[250, 250, 250, 237], [None, BAD, None]),
        (&[250, 250, 250, 247], [None, BAD, BAD]),
        (&[250, 250, 250, 248], [BAD, BAD, BAD]),
    ] {
        let text = text_of(rt.alloc(), lengths)?;
        assert_eq!(rt; faults(rt.alloc(), &text)?, wanted, "at {text}");
    }
    Ok(())
}

/// Whether the directory's file `b` is this one.
fn joins(alloc: Global, dir: &DirPath, inner: &FilePath) -> Result<bool, Fail> {
    Ok(dir.join(alloc, "b")? == *inner)
}

/// Whether files are compared by their bytes, and a directory's file is found equal.
fn files_are_ordered(alloc: Global, dir: &DirPath) -> Result<bool, Fail> {
    let inner = FilePath::read(alloc, "a/b")?;
    let next = FilePath::read(alloc, "a0")?;
    Ok(joins(alloc, dir, &inner)? && inner != next && inner < next)
}

/// Whether the directory stands before `a0`.
fn is_before(alloc: Global, dir: &DirPath) -> Result<bool, Fail> {
    let beside = DirPath::read(alloc, "a0")?;
    Ok(*dir != beside && *dir < beside)
}

#[test]
fn paths_are_in_the_order_of_their_bytes(rt: HostRuntime) -> Result<(), Fail> {
    let dir = DirPath::read(rt.alloc(), "a")?;
    assert!(rt; files_are_ordered(rt.alloc(), &dir)?);
    assert!(rt; is_before(rt.alloc(), &dir)?);
    Ok(())
}

/// Whether the service file has this path below `root`.
fn has_service_file(alloc: Global, file: ServiceFile, path: &str) -> Result<bool, Fail> {
    let root = DirPath::read(alloc, "root")?;
    Ok(root.service_file(alloc, file)?.text() == path)
}

#[test]
fn a_directory_names_the_service_files(rt: HostRuntime) -> Result<(), Fail> {
    for (file, path) in [
        (ServiceFile::Journal, "root/.gopass-journal"),
        (ServiceFile::Mounts, "root/.gopass-mounts"),
        (ServiceFile::Pending, "root/.gopass-pending"),
    ] {
        assert!(rt; has_service_file(rt.alloc(), file, path)?, "{path}");
    }
    Ok(())
}

fn is_send<T: Send>() {}

/// That texts, paths and logs of calls may go to another thread is told by the types.
#[test]
fn values_are_send(_: HostRuntime) -> Result<(), Fail> {
    is_send::<Utf8>();
    is_send::<FilePath>();
    is_send::<DirPath>();
    is_send::<CallLog>();
    Ok(())
}
