//! Files in rising order of their paths.

ghost use Rattle.std.specs.Prelude.{◌≡◌, ◌≢◌, ◌≤◌, ◌<◌, ℕ, length, slice_index_or, vec_len, vec_capacity, IfOk, IsOk, IsSome, OnOk, OnErr, None, Some, MatchOption, IsTrue, ◌↔◌};
ghost use Rattle.std.specs.Ordering.{nat_cmp};
ghost use Rattle.std.specs.Cmp.Lexicographic.{slice_cmp};
ghost use Rattle.std.specs.declared.cmp.Ordering.TheVariants.{Greater};
ghost use Rattle.disk_model.specs.Entries.{entry_of, entries_of, files_of, is_rising, with_entry, without_entry, moved_entry};

use gopass_base::{FilePath, NoMemory};
use std::alloc::Global;

/// How many of the first files lie before the path.
fn place_of(files: &[(FilePath, Vec<u8>)], path: &FilePath) -> usize
    ensures within { result ≤ length files.now }
    ensures before { (k : ℕ) (d : _) → k < result → slice_cmp nat_cmp path.now (slice_index_or files.now k d).0 ≡ Greater }
    ensures here { (d : _) → result < length files.now → slice_cmp nat_cmp path.now (slice_index_or files.now result d).0 ≢ Greater }
{
    for i in 0..files.len() {
        if *path <= files[i].0 {
            return i;
        }
    }
    files.len()
}

/// Whether the file at the place has this path.
fn is_at(files: &[(FilePath, Vec<u8>)], at: usize, path: &FilePath) -> bool
    ensures { (d : _) → IsTrue result ↔ ((at < length files.now) × ((slice_index_or files.now at d).0 ≡ path.now)) }
{
    match files.get(at) {
        Some(file) => file.0 == *path,
        None => false,
    }
}

/// Puts the file in its place, over one with the same path. Nothing changes where there is no memory.
pub(crate) fn put_file(
    files: &mut Vec<(FilePath, Vec<u8>)>,
    path: FilePath,
    bytes: Vec<u8>,
) -> Result<(), NoMemory>
    ensures put { OnOk result (entries_of files.new.items ≡ with_entry path bytes.items (entries_of files.old.items)) }
    ensures same { OnErr result (files.new.items ≡ files.old.items) }
    ensures succeeds { vec_len files.old < vec_capacity files.old → IsOk result }
{
    let at = place_of(files, &path);
    if is_at(files, at, &path) {
        files[at] = (path, bytes);
        return Ok(());
    }
    files.insert(at, (path, bytes))?;
    Ok(())
}

/// The place of the file with this path, where there is one.
pub(crate) fn find(files: &[(FilePath, Vec<u8>)], path: &FilePath) -> Option<usize>
    ensures { MatchOption result (files_of (entries_of files.now) path.now ≡ None)
        (λ i. (i < length files.now) × ((d : _) → files_of (entries_of files.now) path.now ≡ Some (slice_index_or files.now i d).1.items) × ((d : _) → (slice_index_or files.now i d).0 ≡ path.now)) }
{
    for i in 0..files.len() {
        if files[i].0 == *path {
            return Some(i);
        }
    }
    None
}

/// Takes out the file with this path, where there is one, and gives its bytes. Then there is room
/// for another.
pub(crate) fn take_file(files: &mut Vec<(FilePath, Vec<u8>)>, path: &FilePath) -> Option<Vec<u8>>
    requires { IsTrue (is_rising (entries_of files.old.items)) }
    ensures bytes { MatchOption result (files_of (entries_of files.old.items) path.now ≡ None) (λ bytes. files_of (entries_of files.old.items) path.now ≡ Some bytes.items) }
    ensures taken { entries_of files.new.items ≡ without_entry path.now (entries_of files.old.items) }
    ensures room { IsSome result → vec_len files.new < vec_capacity files.new }
{
    match find(files, path) {
        None => None,
        Some(at) => {
            let (_, bytes) = files.remove(at);
            Some(bytes)
        }
    }
}

/// Moves the file under `from` to `to`, whatever stood there. Where there is none nothing moves.
pub(crate) fn move_file(files: &mut Vec<(FilePath, Vec<u8>)>, from: &FilePath, to: FilePath)
    requires { IsTrue (is_rising (entries_of files.old.items)) }
    ensures { entries_of files.new.items ≡ moved_entry from.now to (entries_of files.old.items) }
{
    match take_file(files, from) {
        None => {}
        Some(bytes) => put_file(files, to, bytes).unwrap(),
    }
}

/// The same file once more.
fn copy_file(alloc: Global, file: &(FilePath, Vec<u8>)) -> Result<(FilePath, Vec<u8>), NoMemory>
    ensures { IfOk result (λ copy. entry_of copy ≡ entry_of file.now) }
{
    let (path, bytes) = file;
    Ok((path.copy(alloc)?, bytes.clone()?))
}

/// The same files once more.
pub(crate) fn copy_files(
    alloc: Global,
    files: &[(FilePath, Vec<u8>)],
) -> Result<Vec<(FilePath, Vec<u8>)>, NoMemory>
    ensures { IfOk result (λ copies. entries_of copies.items ≡ entries_of files.now) }
{
    let mut copies = Vec::new(alloc);
    for file in files {
        copies.push(copy_file(alloc, file)?)?;
    }
    Ok(copies)
}
