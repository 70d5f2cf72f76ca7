//! Which rule governs a secret.

ghost use Rattle.std.specs.Prelude.{◌≡◌, ◌<◌, ℕ, length, Option};
ghost use Rattle.gopass_base.specs.Text.{Text};
ghost use Rattle.gopass_base.specs.Parts.{parts};
ghost use Rattle.mount_table.specs.Names.{IsName};
ghost use Rattle.mount_table.specs.NameFaults.{start_of};
ghost use Rattle.recipient_files.specs.Ids.{Ids};
ghost use Rattle.path_rules.specs.RuleMap.{RuleMap, AreEntries, map_of};
ghost use Rattle.path_rules.specs.Governing.{Governs, IsPartStart, IsSetAt, governing_below};

use crate::entries::{Spot, spot_of};
use mount_table::{Folder, Name};
use recipient_files::Recipients;

/// The index of the rule that governs the name among those of folders that end at `from` or behind.
/// One folder is looked up at each part of the name from there on, and none at those before.
pub(crate) fn nearest(
    folders: &[Folder],
    sets: &[Recipients],
    name: &Name,
    from: usize,
) -> Option<usize>
    requires entries { AreEntries folders.now sets.now }
    requires start { IsPartStart name.now from }
    ensures name { IsName name.now }
    ensures rule { (least : ℕ) → least < length (parts name.now) → from ≡ start_of (parts name.now) least
        → IsSetAt sets.now result (governing_below (map_of folders.now sets.now) least name.now) }
{
    let text = name.text();
    let mut nearest = None;
    let mut at = 0;
    for part in text.split('/') {
        if at >= from {
            let folder = &text.as_bytes()[..at.saturating_sub(1)];
            if let Spot::At(index) = spot_of(folders, folder) {
                nearest = Some(index);
            }
        }
        at += part.len() + 1;
    }
    nearest
}

/// One rule at most governs a secret, and it is the one that is computed.
pub fn one_rule_governs()
    ensures computed { (rules : RuleMap) (least : ℕ) (name : Text) → IsName name → Governs rules least name (governing_below rules least name) }
    ensures one { (rules : RuleMap) (least : ℕ) (name : Text) (a b : Option Ids) → IsName name → Governs rules least name a → Governs rules least name b → a ≡ b }
{}
