//! Which secrets a change of rules is about.

ghost use Rattle.std.specs.Prelude.{◌≡◌, IfOk};
ghost use Rattle.path_rules.specs.Affected.{affected_names, is_affected};

use crate::rules::Rules;
use gopass_base::NoMemory;
use mount_table::{Mounts, Name};
use std::alloc::Global;

/// The names whose governing sets differ between two sets of rules, in their order.
pub fn affected(
    alloc: Global,
    before: &Rules,
    after: &Rules,
    mounts: &Mounts,
    names: &[Name],
) -> Result<Vec<Name>, NoMemory>
    ensures { IfOk result (λ affected. affected.items ≡ affected_names before.now after.now mounts.now names.now) }
{
    let mut affected = Vec::new(alloc);
    for name in names {
        if is_affected(before, after, mounts, name) {
            affected.push(name.copy(alloc)?)?;
        }
    }
    Ok(affected)
}

/// Whether another set governs the name.
fn is_affected(before: &Rules, after: &Rules, mounts: &Mounts, name: &Name) -> bool
    ensures { result ≡ is_affected before.now after.now mounts.now name.now }
{
    match (
        before.governing_in(mounts, name),
        after.governing_in(mounts, name),
    ) {
        (None, None) => false,
        (Some(old), Some(new)) => !old.same(new),
        _ => true,
    }
}
