//! Two lists that stand for a map: folders that rise, and the set of each.

ghost use Rattle.std.specs.Prelude.{◌≡◌, ◌<◌, ◌≤◌, ◌+◌, vec_len, vec_capacity, IfOk, OnOk};
ghost use Rattle.std.specs.List.{insert};
ghost use Rattle.gopass_base.specs.Order.{IsRising};
ghost use Rattle.path_rules.specs.RuleMap.{IsSpot};

use gopass_base::NoMemory;
use mount_table::Folder;
use recipient_files::Recipients;
use std::alloc::Global;

/// Where a folder stands in a list of folders.
#[derive(Clone, Copy, Debug, PartialEq, Eq)]
pub(crate) enum Spot {
    /// It is the one with this index.
    At(usize),
    /// It is not there: those before this index are below it, and those from it on above it.
    Before(usize),
}

/// Where the folder with this text stands.
pub(crate) fn spot_of(folders: &[Folder], text: &[u8]) -> Spot
    requires { IsRising folders.now }
    ensures { IsSpot folders.now text.now result }
{
    match folders.binary_search_by(|folder| folder.text().as_bytes().cmp(text)) {
        Ok(index) => Spot::At(index),
        Err(index) => Spot::Before(index),
    }
}

/// Makes room for one entry more in both lists, and a copy of its folder.
pub(crate) fn make_room(
    folders: &mut Vec<Folder>,
    sets: &mut Vec<Recipients>,
    folder: &Folder,
) -> Result<Folder, NoMemory>
    ensures copy { IfOk result (λ copy. copy ≡ folder.now) }
    ensures folders { folders.new.items ≡ folders.old.items }
    ensures sets { sets.new.items ≡ sets.old.items }
    ensures room { OnOk result ((vec_len folders.new + 1 ≤ vec_capacity folders.new) × (vec_len sets.new + 1 ≤ vec_capacity sets.new)) }
{
    folders.reserve(1)?;
    sets.reserve(1)?;
    folder.copy(*folders.allocator())
}

/// Puts a folder and its set in at an index. Both lists have room, so nothing is allocated.
pub(crate) fn put_in(
    folders: &mut Vec<Folder>,
    sets: &mut Vec<Recipients>,
    index: usize,
    folder: Folder,
    ids: Recipients,
)
    requires inside { (index ≤ vec_len folders.old) × (index ≤ vec_len sets.old) }
    requires room { (vec_len folders.old + 1 ≤ vec_capacity folders.old) × (vec_len sets.old + 1 ≤ vec_capacity sets.old) }
    ensures folders { folders.new.items ≡ insert folders.old.items index folder }
    ensures sets { sets.new.items ≡ insert sets.old.items index ids }
{
    let Ok(()) = folders.insert(index, folder) else {
        unreachable!()
    };
    let Ok(()) = sets.insert(index, ids) else {
        unreachable!()
    };
}
