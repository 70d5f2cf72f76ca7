//! The files of a list that lie in a directory.

ghost use Rattle.std.specs.Prelude.{◌≡◌, IfOk, MatchOption};
ghost use Rattle.disk_model.specs.Entries.{entries_of};
ghost use Rattle.disk_model.specs.Listing.{IsAtMost, IsShort, has_git, lies_in, paths_in, rest_in};

use crate::disk::Listed;
use gopass_base::{FilePath, NoMemory};
use std::alloc::Global;

/// What stands in the path behind the directory and a slash, where it lies below the directory.
pub fn rest_in<'a>(dir: &str, path: &'a str) -> Option<&'a str>
    ensures { MatchOption result (rest_in dir.now path.now ≡ None) (λ rest. rest_in dir.now path.now ≡ Some rest.now) }
{
    match path.strip_prefix(dir) {
        Some(behind) => behind.strip_prefix("/"),
        None => None,
    }
}

/// Whether a part of what stands behind a directory is `.git`.
fn has_git(rest: &str) -> bool
    ensures { result ≡ has_git rest.now }
{
    rest.split('/').any(|part| part == ".git")
}

/// Whether the path lies below the directory, with no part `.git` behind the directory's.
pub fn lies_in(dir: &str, path: &str) -> bool
    ensures { result ≡ lies_in dir.now path.now }
{
    match rest_in(dir, path) {
        Some(rest) => !has_git(rest),
        None => false,
    }
}

/// The paths that lie in the directory, in the order of the files, or that there are more than `max`.
pub(crate) fn list(
    alloc: Global,
    files: &[(FilePath, Vec<u8>)],
    dir: &FilePath,
    max: usize,
) -> Result<Listed, NoMemory>
    ensures content { IfOk result (IsAtMost (paths_in dir.now (entries_of files.now)) max) }
    ensures short { IfOk result (IsShort max) }
{
    let mut paths = Vec::new(alloc);
    for (path, _) in files {
        if lies_in(dir.text(), path.text()) {
            if paths.len() >= max {
                return Ok(Listed::Many);
            }
            paths.push(path.copy(alloc)?)?;
        }
    }
    Ok(Listed::All(paths))
}
