//! The change of the files that an edit asks for.

ghost use Rattle.std.specs.Prelude.{◌≡◌, ◌++◌, ◌∷◌, ◌<◌, ◌≤◌, [], length, option_map, IfOk, IfErr, OnOk, Ok, Some};
ghost use Rattle.mount_table.specs.Mounts.{IsTable, root_of};
ghost use Rattle.recipient_files.specs.RuleText.{rule_text};
ghost use Rattle.pending_journal.specs.Change.{MayAdd, plan_in, puts_in};
ghost use Rattle.pending_journal.specs.Journal.{most_steps};
ghost use Rattle.store_core.specs.Edit.{Differ, OfSecret, OfRule, OfTemplate};
ghost use Rattle.store_core.specs.Entries.{entries_in, text_in};
ghost use Rattle.mount_table.specs.MountsText.{table_text};
ghost use Rattle.store_state.specs.State.{mounts_path};
ghost use Rattle.store_core.specs.WithTable.{HasRoom, IsChangeWithTable};
ghost use Rattle.store_core.specs.Applying.{AreIds, IsChangeOf, IsFileOf, IsGood, drop_by, put_by};

use crate::edit::Edit;
use gopass_base::{FilePath, NoMemory, ServiceFile};
use mount_table::{DirPath, Folder, Mounts, Name};
use pending_journal::{Change, ChangeAddFault};
use recipient_files::Recipients;
use std::alloc::Global;
use store_state::{rule_file_of, template_file_of};

/// A file that an edit writes, or takes away.
struct File {
    path: FilePath,
    bytes: Option<Vec<u8>>,
}

/// The bytes once more.
fn copy_bytes(alloc: Global, bytes: &Option<Vec<u8>>) -> Result<Option<Vec<u8>>, NoMemory>
    ensures { IfOk result (λ copy. text_in copy ≡ text_in bytes.now) }
{
    match bytes {
        Some(bytes) => Ok(Some(bytes.to_vec(alloc)?)),
        None => Ok(None),
    }
}

/// The text of the rule file for these ids.
fn bytes_of_rule(ids: &Option<Recipients>) -> Result<Option<Vec<u8>>, NoMemory>
    ensures text { IfOk result (λ bytes. text_in bytes ≡ option_map rule_text ids.now) }
    ensures good { OnOk result (AreIds ids.now) }
{
    match ids {
        Some(ids) => {
            // The ids are a set.
            let _ = ids.ids();
            Ok(Some(ids.write()?))
        }
        None => Ok(None),
    }
}

fn secret_file(
    alloc: Global,
    mounts: &Mounts,
    name: &Name,
    bytes: &Option<Vec<u8>>,
) -> Result<File, NoMemory>
    ensures file { IfOk result (IsFileOf mounts.now (OfSecret name.now (text_in bytes.now))) }
    ensures good { OnOk result (IsGood (OfSecret name.now (text_in bytes.now))) }
{
    // A name is one, which a file of a secret needs.
    let _ = name.text();
    let path = mounts.file_of(name)?;
    let bytes = copy_bytes(alloc, bytes)?;
    Ok(File { path, bytes })
}

fn rule_file(
    alloc: Global,
    mounts: &Mounts,
    folder: &Folder,
    ids: &Option<Recipients>,
) -> Result<File, NoMemory>
    ensures file { IfOk result (IsFileOf mounts.now (OfRule folder.now ids.now)) }
    ensures good { OnOk result (IsGood (OfRule folder.now ids.now)) }
{
    let path = rule_file_of(alloc, mounts, folder)?;
    let bytes = bytes_of_rule(ids)?;
    Ok(File { path, bytes })
}

fn template_file(
    alloc: Global,
    mounts: &Mounts,
    folder: &Folder,
    bytes: &Option<Vec<u8>>,
) -> Result<File, NoMemory>
    ensures file { IfOk result (IsFileOf mounts.now (OfTemplate folder.now (text_in bytes.now))) }
    ensures good { OnOk result (IsGood (OfTemplate folder.now (text_in bytes.now))) }
{
    let path = template_file_of(alloc, mounts, folder)?;
    let bytes = copy_bytes(alloc, bytes)?;
    Ok(File { path, bytes })
}

/// What the adding of a file answers, which is not refused: only memory can be wanting.
fn only_memory(added: Result<(), ChangeAddFault>) -> Result<(), NoMemory>
    requires { IfErr added (λ fault. fault ≡ ChangeAddFault.NoMemory) }
    ensures { OnOk result (added ≡ Ok tt) }
{
    match added {
        Ok(()) => Ok(()),
        Err(ChangeAddFault::NoMemory) => Err(NoMemory),
        Err(ChangeAddFault::TwoForOne) => unreachable!(),
        Err(ChangeAddFault::Service) => unreachable!(),
        Err(ChangeAddFault::Long) => unreachable!(),
    }
}

/// The file has these bytes afterwards.
fn put_file(change: &mut Change, path: FilePath, bytes: Vec<u8>) -> Result<(), NoMemory>
    requires { MayAdd change.old.root (plan_in change.old) path {T = Unit {0}} (Ok tt) }
    ensures puts { OnOk result (puts_in change.new ≡ puts_in change.old ++ (path, bytes.items) ∷ []) }
    ensures drops { change.new.drops.items ≡ change.old.drops.items }
    ensures root { change.new.root ≡ change.old.root }
{
    only_memory(change.put(path, bytes))
}

/// The file is not there afterwards.
fn erase_file(change: &mut Change, path: FilePath) -> Result<(), NoMemory>
    requires { MayAdd change.old.root (plan_in change.old) path {T = Unit {0}} (Ok tt) }
    ensures puts { puts_in change.new ≡ puts_in change.old }
    ensures drops { OnOk result (change.new.drops.items ≡ change.old.drops.items ++ path ∷ []) }
    ensures root { change.new.root ≡ change.old.root }
{
    only_memory(change.erase(path))
}

/// The file is as it is to be.
fn add_file(change: &mut Change, file: File) -> Result<(), NoMemory>
    requires { MayAdd change.old.root (plan_in change.old) file.path {T = Unit {0}} (Ok tt) }
    ensures puts { OnOk result (puts_in change.new ≡ puts_in change.old ++ put_by file.path (text_in file.bytes)) }
    ensures drops { OnOk result (change.new.drops.items ≡ change.old.drops.items ++ drop_by file.path (text_in file.bytes)) }
    ensures root { change.new.root ≡ change.old.root }
{
    let File { path, bytes } = file;
    match bytes {
        Some(bytes) => put_file(change, path, bytes),
        None => erase_file(change, path),
    }
}

/// The change that puts and drops the files of the edit, below the mounts of this root directory.
fn change_of(
    alloc: Global,
    root: &DirPath,
    mounts: &Mounts,
    edit: &Edit,
) -> Result<Change, NoMemory>
    requires root { root_of mounts.now ≡ root.now }
    requires differ { Differ (entries_in edit.now) }
    requires few { length (entries_in edit.now) ≤ most_steps }
    ensures change { IfOk result (IsChangeOf root.now mounts.now (entries_in edit.now)) }
    ensures table { IsTable root.now mounts.now }
{
    // The mounts are a table, in which no two names have one file.
    let _ = mounts.rows();
    let mut change = Change::new(alloc, root)?;
    for (folder, ids) in &edit.rules {
        add_file(&mut change, rule_file(alloc, mounts, folder, ids)?)?;
    }
    for (name, bytes) in &edit.secrets {
        add_file(&mut change, secret_file(alloc, mounts, name, bytes)?)?;
    }
    for (owner, bytes) in &edit.templates {
        add_file(&mut change, template_file(alloc, mounts, owner, bytes)?)?;
    }
    Ok(change)
}

/// The mounts file has the text of this table afterwards.
fn put_table(
    alloc: Global,
    change: &mut Change,
    root: &DirPath,
    table: &Mounts,
) -> Result<(), NoMemory>
    requires { MayAdd change.old.root (plan_in change.old) (mounts_path root.now) {T = Unit {0}} (Ok tt) }
    ensures puts { OnOk result (puts_in change.new ≡ puts_in change.old ++ (mounts_path root.now, table_text table.now) ∷ []) }
    ensures drops { change.new.drops.items ≡ change.old.drops.items }
    ensures root { change.new.root ≡ change.old.root }
{
    let path = root.service_file(alloc, ServiceFile::Mounts)?;
    let text = table.write()?;
    put_file(change, path, text)
}

/// The change of an edit, and of the mounts file for this table.
fn change_and_table(
    alloc: Global,
    root: &DirPath,
    mounts: &Mounts,
    edit: &Edit,
    table: &Mounts,
) -> Result<Change, NoMemory>
    requires root { root_of mounts.now ≡ root.now }
    requires differ { Differ (entries_in edit.now) }
    requires room { length (entries_in edit.now) < most_steps }
    ensures change { IfOk result (IsChangeWithTable root.now mounts.now (entries_in edit.now) (Some table.now)) }
    ensures table { IsTable root.now mounts.now }
{
    let mut change = change_of(alloc, root, mounts, edit)?;
    put_table(alloc, &mut change, root, table)?;
    Ok(change)
}

/// The change of an edit, and of the mounts file where there is another table.
pub(crate) fn change_with_table(
    alloc: Global,
    root: &DirPath,
    mounts: &Mounts,
    edit: &Edit,
    table: &Option<Mounts>,
) -> Result<Change, NoMemory>
    requires root { root_of mounts.now ≡ root.now }
    requires differ { Differ (entries_in edit.now) }
    requires room { HasRoom (length (entries_in edit.now)) table.now }
    ensures change { IfOk result (IsChangeWithTable root.now mounts.now (entries_in edit.now) table.now) }
    ensures table { IsTable root.now mounts.now }
{
    match table {
        Some(table) => change_and_table(alloc, root, mounts, edit, table),
        None => change_of(alloc, root, mounts, edit),
    }
}
