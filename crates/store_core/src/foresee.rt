//! What will be found of a store once an edit is made.

ghost use Rattle.std.specs.Prelude.{◌≡◌, ◌<◌, ◌-◌, ◌∷◌, [], set, slice_index_or, Some, IfOk, OnOk};
ghost use Rattle.std.specs.FinMap as map;
ghost use Rattle.mount_table.specs.Mounts.{IsMountOf, IsMountOfFolder};
ghost use Rattle.path_rules.specs.RuleMap.{rule_at};
ghost use Rattle.store_core.specs.Edit.{OfSecret, OfRule, OfTemplate, one_more, resized, with_row};
ghost use Rattle.store_core.specs.Entries.{entries_in, text_in};
ghost use Rattle.store_core.specs.WithTable.{IsMadeWithTable};
ghost use Rattle.store_core.specs.Applying.{IsMadeBy, IsSetAmong, IsSetCounted};

use crate::edit::Edit;
use gopass_base::NoMemory;
use mount_table::{Folder, Mounts, Name};
use path_rules::Rules;
use recipient_files::Recipients;
use std::alloc::Global;
use store_state::Found;

/// Puts the item among these, which rise, or takes it away. Answers whether it was there.
fn set_among<T: Ord + Drop>(items: &mut Vec<T>, item: T, is: bool) -> Result<bool, NoMemory>
    ensures { IfOk result (IsSetAmong T.cmp items.old.items items.new.items item is) }
{
    match items.binary_search(&item) {
        Ok(at) => {
            if !is {
                let _ = items.remove(at);
            }
            Ok(true)
        }
        Err(at) => {
            if is {
                items.insert(at, item)?;
            }
            Ok(false)
        }
    }
}

/// One more in this row.
fn count_more(counts: &mut Vec<usize>, row: usize)
    ensures { slice_index_or counts.old.items row 0 < 18446744073709551615 → counts.new.items ≡ one_more row counts.old.items }
{
    if let Some(count) = counts.get_mut(row) {
        *count = count.saturating_add(1);
    }
}

/// One less in this row.
fn count_less(counts: &mut Vec<usize>, row: usize)
    ensures { counts.new.items ≡ set counts.old.items row (slice_index_or counts.old.items row 0 - 1) }
{
    if let Some(count) = counts.get_mut(row) {
        *count = count.saturating_sub(1);
    }
}

/// The numbers of files, where one in this row was there or not, and is or is not.
fn recount(counts: &mut Vec<usize>, row: usize, was: bool, is: bool)
    ensures { slice_index_or counts.old.items row 0 < 18446744073709551615 → counts.new.items ≡ resized was is row counts.old.items }
{
    match (was, is) {
        (true, false) => count_less(counts, row),
        (false, true) => count_more(counts, row),
        _ => {}
    }
}

/// The item is among these or not, and its file is counted in this row or not.
fn set_counted<T: Ord + Drop>(
    items: &mut Vec<T>,
    counts: &mut Vec<usize>,
    row: usize,
    item: T,
    is: bool,
) -> Result<(), NoMemory>
    ensures { OnOk result (IsSetCounted T.cmp items.old.items items.new.items counts.old.items counts.new.items row item is) }
{
    let was = set_among(items, item, is)?;
    recount(counts, row, was, is);
    Ok(())
}

/// The folder has this rule, or none.
fn set_rule(rules: &mut Rules, folder: &Folder, ids: &Option<Recipients>) -> Result<(), NoMemory>
    ensures { OnOk result (rules.new ≡ with_row rules.old folder.now ids.now) }
{
    match ids {
        Some(ids) => rules.put(folder, ids.copy()?),
        None => {
            let _ = rules.unset(folder);
            Ok(())
        }
    }
}

/// A secret comes, goes or is written over.
fn foresee_secret(
    alloc: Global,
    found: &mut Found,
    name: &Name,
    bytes: &Option<Vec<u8>>,
) -> Result<(), NoMemory>
    ensures { OnOk result (IsMadeBy (OfSecret name.now (text_in bytes.now) ∷ []) found.old found.new) }
{
    let row = found.mounts.resolve(name).row;
    let name = name.copy(alloc)?;
    set_counted(
        &mut found.seen.names,
        &mut found.counts,
        row,
        name,
        bytes.is_some(),
    )
}

/// A rule comes, goes or is another.
fn foresee_rule(
    alloc: Global,
    found: &mut Found,
    folder: &Folder,
    ids: &Option<Recipients>,
) -> Result<(), NoMemory>
    ensures { OnOk result (IsMadeBy (OfRule folder.now ids.now ∷ []) found.old found.new) }
{
    let row = found.mounts.resolve_folder(folder);
    set_rule(&mut found.rules, folder, ids)?;
    let folder = folder.copy(alloc)?;
    set_counted(
        &mut found.seen.rules,
        &mut found.counts,
        row,
        folder,
        ids.is_some(),
    )
}

/// A template comes, goes or is written over.
fn foresee_template(
    alloc: Global,
    found: &mut Found,
    folder: &Folder,
    bytes: &Option<Vec<u8>>,
) -> Result<(), NoMemory>
    ensures { OnOk result (IsMadeBy (OfTemplate folder.now (text_in bytes.now) ∷ []) found.old found.new) }
{
    let row = found.mounts.resolve_folder(folder);
    let folder = folder.copy(alloc)?;
    set_counted(
        &mut found.seen.templates,
        &mut found.counts,
        row,
        folder,
        bytes.is_some(),
    )
}

/// What is found once the edit is made.
pub(crate) fn foresee(alloc: Global, found: &Found, edit: &Edit) -> Result<Found, NoMemory>
    ensures { IfOk result (IsMadeBy (entries_in edit.now) found.now) }
{
    let mut next = found.copy()?;
    for (folder, ids) in &edit.rules {
        foresee_rule(alloc, &mut next, folder, ids)?;
    }
    for (name, bytes) in &edit.secrets {
        foresee_secret(alloc, &mut next, name, bytes)?;
    }
    for (owner, bytes) in &edit.templates {
        foresee_template(alloc, &mut next, owner, bytes)?;
    }
    Ok(next)
}

/// What is found once the edit is made, with this table.
fn foresee_and_table(
    alloc: Global,
    found: &Found,
    edit: &Edit,
    table: &Mounts,
) -> Result<Found, NoMemory>
    ensures { IfOk result (IsMadeWithTable (entries_in edit.now) (Some table.now) found.now) }
{
    let mut next = foresee(alloc, found, edit)?;
    next.mounts = table.copy()?;
    Ok(next)
}

/// What is found once the edit is made, and with another table where there is one.
pub(crate) fn foresee_with_table(
    alloc: Global,
    found: &Found,
    edit: &Edit,
    table: &Option<Mounts>,
) -> Result<Found, NoMemory>
    ensures { IfOk result (IsMadeWithTable (entries_in edit.now) table.now found.now) }
{
    match table {
        Some(table) => foresee_and_table(alloc, found, edit, table),
        None => foresee(alloc, found, edit),
    }
}
