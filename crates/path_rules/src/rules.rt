//! The rules of a store: folders, and the recipients of what is below each.

ghost use Rattle.std.specs.Prelude.{◌≡◌, ◌<◌, ℕ, length, None, Some, option_map, IfOk, OnOk, OnErr};
ghost use Rattle.std.specs.FinMap as map;
ghost use Rattle.gopass_base.specs.Parts.{parts};
ghost use Rattle.mount_table.specs.NameFaults.{start_of};
ghost use Rattle.path_rules.specs.RuleMap.{RuleMap, rule_at};
ghost use Rattle.path_rules.specs.Changes.{SetsRule, UnsetsRule};
ghost use Rattle.path_rules.specs.Governing.{Governs, governing_below, governing_ids, IsPartStart};
ghost use Rattle.path_rules.specs.declared.rules.RulesFault.TheVariants.{NoMemory};

use crate::entries::{Spot, make_room, put_in, spot_of};
use crate::governing::nearest;
use gopass_base::{NoMemory as NoRoom, copies};
use mount_table::{Folder, Mounts, Name, Place};
use recipient_files::Recipients;
use std::alloc::Global;
use std::marker::Model;

/// The most folders that have a rule.
pub const MOST_RULES: usize = 512;

/// Why a rule is not set.
#[derive(Clone, Copy, Debug, PartialEq, Eq)]
pub enum RulesFault {
    /// 512 other folders have a rule.
    Full,
    NoMemory,
}

impl From<NoRoom> for RulesFault {
    ghost from_gives = { λ _ e. e ≡ NoMemory };

    fn from(_: NoRoom) -> Self {
        RulesFault::NoMemory
    }
}

/// The folder has no rule.
#[derive(Clone, Copy, Debug, PartialEq, Eq)]
pub struct Absent;

/// Rules, which contracts see as a finite map from folders to sets of ids. The k-th set is that of
/// the k-th folder.
#[derive(Debug, Drop)]
pub struct Rules {
    folders: Vec<Folder>,
    sets: Vec<Recipients>,
}

impl Model for Rules {
    ghost use Rattle.std.specs.Coded.{coded_ℕ, coded_list};
    ghost use Rattle.std.specs.FinMap as map;
    ghost use Rattle.path_rules.specs.RuleMap.{RuleMap, AreEntries, map_of};

    ghost Value = { RuleMap };

    ghost coded = { map.code (coded_list coded_ℕ) (coded_list (coded_list coded_ℕ)) };

    ghost view = { λ rules. map_of rules.folders.items rules.sets.items };

    ghost invariant = { λ rules. AreEntries rules.folders.items rules.sets.items };
}

impl Rules {
    /// No rules.
    pub fn new(alloc: Global) -> Rules
        ensures { result ≡ map.empty }
    {
        Rules {
            folders: Vec::new(alloc),
            sets: Vec::new(alloc),
        }
    }

    /// Gives the folder this rule, in place of the one that it has. The rules stay as they are where
    /// it has none and 512 others have one, and where there is no memory.
    pub fn set(&mut self, folder: &Folder, ids: Recipients) -> Result<(), RulesFault>
        ensures { SetsRule folder.now ids self.old self.new result }
    {
        match spot_of(&self.folders, folder.text().as_bytes()) {
            Spot::At(_) => Ok(self.put(folder, ids)?),
            Spot::Before(_) => {
                if self.folders.len() >= MOST_RULES {
                    return Err(RulesFault::Full);
                }
                Ok(self.put(folder, ids)?)
            }
        }
    }

    /// The same without a limit, for whoever sets several rules and keeps the limit over all of them.
    pub fn put(&mut self, folder: &Folder, ids: Recipients) -> Result<(), NoRoom>
        ensures put { OnOk result (self.new ≡ map.insert self.old folder.now ids) }
        ensures same { OnErr result (self.new ≡ self.old) }
    {
        match spot_of(&self.folders, folder.text().as_bytes()) {
            Spot::At(index) => {
                self.sets[index] = ids;
                Ok(())
            }
            Spot::Before(index) => {
                let folder = make_room(&mut self.folders, &mut self.sets, folder)?;
                put_in(&mut self.folders, &mut self.sets, index, folder, ids);
                Ok(())
            }
        }
    }

    /// Takes the folder's rule away, and gives it. Nothing is allocated.
    pub fn unset(&mut self, folder: &Folder) -> Result<Recipients, Absent>
        ensures { UnsetsRule folder.now self.old self.new result }
    {
        match spot_of(&self.folders, folder.text().as_bytes()) {
            Spot::At(index) => {
                let _ = self.folders.remove(index);
                Ok(self.sets.remove(index))
            }
            Spot::Before(_) => Err(Absent),
        }
    }

    /// The folder's rule, where it has one. Nothing is allocated.
    pub fn at(&self, folder: &Folder) -> Option<&Recipients>
        ensures { option_map (λ set. set.now) result ≡ rule_at self.now folder.now }
    {
        match spot_of(&self.folders, folder.text().as_bytes()) {
            Spot::At(index) => Some(&self.sets[index]),
            Spot::Before(_) => None,
        }
    }

    /// The folders that have a rule, by the bytes of their texts.
    pub fn folders(&self) -> &[Folder]
        ensures { result.now ≡ map.keys self.now }
    {
        &self.folders
    }

    /// Equal rules of their own.
    pub fn copy(&self) -> Result<Rules, NoRoom>
        ensures { IfOk result (λ rules. rules ≡ self.now) }
    {
        let alloc = *self.folders.allocator();
        Ok(Rules {
            folders: copies(alloc, &self.folders)?,
            sets: copies(alloc, &self.sets)?,
        })
    }

    /// The rule that governs the secret: that of the longest folder that holds the name and has at
    /// least the parts of the alias of its mount, which end where `place.from` is; a part of the name
    /// begins there. At each part of the name from `place.from` on one folder is looked up, and
    /// nothing is allocated.
    pub fn governing(&self, name: &Name, place: &Place) -> Option<&Recipients>
        requires { IsPartStart name.now place.now.from }
        ensures rule { (least : ℕ) → least < length (parts name.now) → place.now.from ≡ start_of (parts name.now) least
            → option_map (λ set. set.now) result ≡ governing_below self.now least name.now }
        ensures longest { (least : ℕ) → least < length (parts name.now) → place.now.from ≡ start_of (parts name.now) least
            → Governs self.now least name.now (option_map (λ set. set.now) result) }
    {
        let index = nearest(&self.folders, &self.sets, name, place.from)?;
        Some(&self.sets[index])
    }

    /// The rule that governs the secret in its mount. Nothing is allocated.
    pub fn governing_in(&self, mounts: &Mounts, name: &Name) -> Option<&Recipients>
        ensures { option_map (λ set. set.now) result ≡ governing_ids self.now mounts.now name.now }
    {
        // The rows rise by their aliases, so that one row alone is the mount of the name.
        let _ = mounts.rows();
        self.governing(name, &mounts.resolve(name))
    }
}
