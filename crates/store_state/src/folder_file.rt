//! The files that a folder of the store has of its own: its rule and its template.

ghost use Rattle.std.specs.Prelude.{◌≡◌, ℕ, IfOk, string_bytes};
ghost use Rattle.mount_table.specs.Mounts.{IsMountOfFolder, IsTable, root_of};
ghost use Rattle.gopass_base.specs.Paths.{path_in};
ghost use Rattle.mount_table.specs.Prefixes.{IsPrefix, folder_parts};
ghost use Rattle.mount_table.specs.Folders.{IsFolder};
ghost use Rattle.store_state.specs.Places.{IsFolderFile, folder_mount, folder_path, folder_rest, in_folder, rule_path, template_path};

use disk_model::rest_in;
use gopass_base::NoMemory;
use mount_table::{FilePath, Folder, Mounts, Row};
use std::alloc::{AllocError, Global};

/// What stands in the folder behind the alias of its mount and a slash. The folder of the alias
/// itself has no such rest.
fn rest_below<'a>(alias: &str, folder: &'a str) -> &'a str
    requires { IsPrefix (folder_parts alias.now) (folder_parts folder.now) }
    ensures { result.now ≡ folder_rest alias.now folder.now }
{
    if alias.is_empty() {
        return folder;
    }
    match rest_in(alias, folder) {
        Some(rest) => rest,
        None => "",
    }
}

/// What has this rest in a folder, of which the root folder adds nothing.
pub(crate) fn in_folder(alloc: Global, folder: &str, rest: &str) -> Result<String, AllocError>
    ensures { IfOk result (λ text. string_bytes text ≡ in_folder folder.now rest.now) }
{
    if folder.is_empty() {
        return String::from_str(alloc, rest);
    }
    let mut text = String::from_str(alloc, folder)?;
    text.push('/')?;
    text.push_str(rest)?;
    Ok(text)
}

/// The path of the folder's file of this name below the mount of this row.
fn file_below(alloc: Global, row: &Row, folder: &Folder, file: &str) -> Result<FilePath, NoMemory>
    requires reaches { IsPrefix (folder_parts row.now.alias) (folder_parts folder.now) }
    requires file { IsFolderFile file.now }
    ensures path { IfOk result (λ path. path ≡ path_in row.now.dir (in_folder (folder_rest row.now.alias folder.now) file.now)) }
    ensures good { IsFolder folder.now }
{
    let rest = rest_below(row.alias.text(), folder.text());
    row.dir.file_at(alloc, &in_folder(alloc, rest, file)?)
}

/// The file of the folder's rule: `.gpg-id` in the folder, in the directory of its mount.
pub fn rule_file_of(alloc: Global, mounts: &Mounts, folder: &Folder) -> Result<FilePath, NoMemory>
    ensures path { IfOk result (λ path. path ≡ rule_path mounts.now (folder_mount mounts.now folder.now) folder.now) }
    ensures good { IsFolder folder.now }
{
    folder_file(alloc, mounts, folder, ".gpg-id")
}

/// The file of the folder's template: `.pass-template` in the folder.
pub fn template_file_of(
    alloc: Global,
    mounts: &Mounts,
    folder: &Folder,
) -> Result<FilePath, NoMemory>
    ensures path { IfOk result (λ path. path ≡ template_path mounts.now (folder_mount mounts.now folder.now) folder.now) }
    ensures good { IsFolder folder.now }
{
    folder_file(alloc, mounts, folder, ".pass-template")
}

/// The path of the folder's file of this name, that of its rule or its template: the directory of
/// the folder's mount, `/`, the folder's rest behind the alias of the mount with a `/` behind it,
/// where it has one, and the name. Only memory can be wanting.
pub(crate) fn folder_file(
    alloc: Global,
    mounts: &Mounts,
    folder: &Folder,
    file: &str,
) -> Result<FilePath, NoMemory>
    requires { IsFolderFile file.now }
    ensures path { IfOk result (λ path. (k : ℕ) × IsMountOfFolder mounts.now folder.now k × (path ≡ folder_path mounts.now k folder.now file.now)) }
    ensures good { IsFolder folder.now }
    ensures table { IsTable (root_of mounts.now) mounts.now }
{
    let rows = mounts.rows();
    file_below(alloc, &rows[mounts.resolve_folder(folder)], folder, file)
}
