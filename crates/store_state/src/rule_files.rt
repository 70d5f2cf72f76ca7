//! The rules of a store, which the files of its folders tell.

ghost use Rattle.std.specs.Prelude.{◌≡◌, ◌<◌, ◌≤◌, ◌+◌, length, false, ⊤, IfOk, IsOk, OnOk, Err};
ghost use Rattle.std.specs.FinMap as map;
ghost use Rattle.gopass_base.specs.Faults.{Costs, HasCause};
ghost use Rattle.mount_table.specs.Mounts.{root_of};
ghost use Rattle.disk_model.specs.Answers.{Reads, IsWithin};
ghost use Rattle.pending_journal.specs.Opened.{OnlyReads};
ghost use Rattle.pending_journal.specs.Service.{is_service, without_service};
ghost use Rattle.gopass_base.specs.Order.{IsRising};
ghost use Rattle.disk_model.specs.Disk.{AsksUpTo};
ghost use Rattle.path_rules.specs.Limits.{most_rules};
ghost use Rattle.store_state.specs.Limits.{most_rule_bytes};
ghost use Rattle.store_state.specs.RuleFiles.{AddsRule, ReadsRule, ReadsRules, TellsRule};

use crate::fault::StoreFault;
use crate::folder_file::folder_file;
use disk_model::{Disk, DiskFault, Got};
use mount_table::{FilePath, Folder, Mounts};
use path_rules::Rules;
use pending_journal::Vault;
use recipient_files::{Recipients, RuleFault};
use std::alloc::Global;

/// The most bytes of a rule file.
const MOST_RULE_BYTES: usize = 65_536;

/// The rule that the bytes of the rule file under the path tell.
fn rule_of(alloc: Global, path: &FilePath, bytes: &[u8]) -> Result<Recipients, StoreFault>
    ensures { TellsRule path.now bytes.now result }
{
    match Recipients::read(alloc, bytes) {
        Ok(ids) => Ok(ids),
        Err(RuleFault::Bad { line, .. }) => Err(StoreFault::BadFile(path.copy(alloc)?, line)),
        Err(RuleFault::NoMemory) => Err(StoreFault::NoMemory),
    }
}

/// The rule file under the path, where it has at most 65,536 bytes.
fn rule_file<D: Disk>(vault: &mut Vault<D>, path: &FilePath) -> Result<Got, DiskFault>
    requires { is_service vault.old.root path.now ≡ false }
    ensures only_reads { OnlyReads vault.old vault.new }
    ensures got { IfOk result (λ got. D.meaning.tells → Reads (without_service vault.old.root (D.meaning.view vault.old.disk).files path.now) most_rule_bytes got) }
    ensures bound { IfOk result (IsWithin most_rule_bytes) }
    ensures costs { Costs 1 (D.meaning.calls vault.old.disk) (D.meaning.calls vault.new.disk) ⊤ }
    ensures asks { AsksUpTo most_rule_bytes (D.meaning.asked vault.old.disk) (D.meaning.asked vault.new.disk) }
    ensures cause { HasCause (D.meaning.faults vault.old.disk) (D.meaning.faults vault.new.disk) (result ≡ Err DiskFault.Failed) }
{
    vault.read(path, MOST_RULE_BYTES)
}

/// Reads the rule of the folder, where its file is there.
fn read_rule<D: Disk>(
    alloc: Global,
    vault: &mut Vault<D>,
    mounts: &Mounts,
    folder: &Folder,
) -> Result<Option<Recipients>, StoreFault>
    requires { root_of mounts.now ≡ vault.old.root }
    ensures only_reads { OnlyReads vault.old vault.new }
    ensures reads { D.meaning.tells → ReadsRule vault.old.root (D.meaning.view vault.old.disk).files mounts.now folder.now result }
    ensures costs { Costs 1 (D.meaning.calls vault.old.disk) (D.meaning.calls vault.new.disk) (IsOk result) }
    ensures cause { HasCause (D.meaning.faults vault.old.disk) (D.meaning.faults vault.new.disk) (result ≡ Err StoreFault.Disk) }
{
    let path = folder_file(alloc, mounts, folder, ".gpg-id")?;
    match rule_file(vault, &path)? {
        Got::Absent => Ok(None),
        Got::Bytes(bytes) => Ok(Some(rule_of(alloc, &path, &bytes)?)),
        Got::Long => Err(StoreFault::BadFile(path, 0)),
    }
}

/// Reads the rule of the folder, and puts it to the rules where its file is there.
fn add_rule<D: Disk>(
    alloc: Global,
    vault: &mut Vault<D>,
    mounts: &Mounts,
    folder: &Folder,
    rules: &mut Rules,
) -> Result<(), StoreFault>
    requires room { map.len rules.old < most_rules }
    requires rooted { root_of mounts.now ≡ vault.old.root }
    ensures only_reads { OnlyReads vault.old vault.new }
    ensures adds { D.meaning.tells → AddsRule vault.old.root (D.meaning.view vault.old.disk).files mounts.now folder.now rules.old rules.new result }
    ensures few { OnOk result (map.len rules.new ≤ map.len rules.old + 1) }
    ensures costs { Costs 1 (D.meaning.calls vault.old.disk) (D.meaning.calls vault.new.disk) (IsOk result) }
    ensures cause { HasCause (D.meaning.faults vault.old.disk) (D.meaning.faults vault.new.disk) (result ≡ Err StoreFault.Disk) }
{
    match read_rule(alloc, vault, mounts, folder)? {
        Some(ids) => Ok(rules.set(folder, ids)?),
        None => Ok(()),
    }
}

/// Reads the rules of these folders.
pub(crate) fn read_rules<D: Disk>(
    alloc: Global,
    vault: &mut Vault<D>,
    mounts: &Mounts,
    folders: &[Folder],
) -> Result<Rules, StoreFault>
    requires few { length folders.now ≤ most_rules }
    requires rising { IsRising folders.now }
    requires rooted { root_of mounts.now ≡ vault.old.root }
    ensures only_reads { OnlyReads vault.old vault.new }
    ensures reads { D.meaning.tells → ReadsRules vault.old.root (D.meaning.view vault.old.disk).files mounts.now folders.now result }
    ensures costs { Costs (length folders.now) (D.meaning.calls vault.old.disk) (D.meaning.calls vault.new.disk) (IsOk result) }
    ensures cause { HasCause (D.meaning.faults vault.old.disk) (D.meaning.faults vault.new.disk) (result ≡ Err StoreFault.Disk) }
{
    let mut rules = Rules::new(alloc);
    for folder in folders {
        add_rule(alloc, vault, mounts, folder, &mut rules)?;
    }
    Ok(rules)
}
