//! What an opening finds.

ghost use Rattle.std.specs.Prelude.{◌≡◌, ◌≢◌, ◌≤◌, Some, Err, length, ⊤, IfOk, OnErr, IsFalse, MatchBool};
ghost use Rattle.gopass_base.specs.Faults.{Costs, HasCause};
ghost use Rattle.mount_table.specs.Mounts.{root_of};
ghost use Rattle.disk_model.specs.Answers.{Reads, IsWithin};
ghost use Rattle.disk_model.specs.Disk.{AsksUpTo};
ghost use Rattle.pending_journal.specs.Opened.{OnlyReads};
ghost use Rattle.pending_journal.specs.Service.{without_service};
ghost use Rattle.store_state.specs.Limits.{most_mounts_bytes};
ghost use Rattle.store_state.specs.Tree.{IsOwnOf};
ghost use Rattle.store_state.specs.State.{mounts_path, pending_path};
ghost use Rattle.store_state.specs.Order.{IsOrdered};
ghost use Rattle.store_state.specs.Found.{IsSameSeen};
ghost use Rattle.store_state.specs.Opening.{IsWithinLimits, OpensStore, TellsMounts, TellsPending, most_opening_calls, opening_calls};

use crate::fault::{Limit, StoreFault};
use crate::rule_files::read_rules;
use crate::seen::{Seen, survey};
use crate::tree::Own;
use disk_model::{Disk, DiskFault, Got};
use gopass_base::{NoMemory, copies, in_order};
use mount_table::{DirPath, FilePath, Mounts, MountsFault};
use path_rules::{MOST_RULES, Rules};
use pending_journal::Vault;
use std::alloc::Global;

/// The most bytes of a mounts file.
const MOST_MOUNTS_BYTES: usize = 131_072;

/// The most secrets of a store.
pub const MOST_SECRETS: usize = 8_192;

/// The mounts that the bytes of the mounts file tell.
fn mounts_of(
    alloc: Global,
    path: &FilePath,
    root: &DirPath,
    bytes: &[u8],
) -> Result<Mounts, StoreFault>
    requires { path.now ≡ mounts_path root.now }
    ensures mounts { length bytes.now ≤ most_mounts_bytes → TellsMounts root.now (Some bytes.now) result }
    ensures rooted { IfOk result (λ mounts. root_of mounts ≡ root.now) }
    ensures no_disk { result ≢ Err StoreFault.Disk }
{
    match Mounts::read(alloc, bytes, root) {
        Ok(mounts) => Ok(mounts),
        Err(MountsFault::BadLine(line)) => Err(StoreFault::BadFile(path.copy(alloc)?, line)),
        Err(MountsFault::NoMemory) => Err(StoreFault::NoMemory),
    }
}

/// The mounts file, where it has at most 131,072 bytes.
fn mounts_file<D: Disk>(vault: &mut Vault<D>, own: &Own) -> Result<Got, DiskFault>
    requires { IsOwnOf vault.old.root own.now }
    ensures only_reads { OnlyReads vault.old vault.new }
    ensures got { IfOk result (λ got. D.meaning.tells → Reads (without_service vault.old.root (D.meaning.view vault.old.disk).files own.now.mounts) most_mounts_bytes got) }
    ensures bound { IfOk result (IsWithin most_mounts_bytes) }
    ensures costs { Costs 1 (D.meaning.calls vault.old.disk) (D.meaning.calls vault.new.disk) ⊤ }
    ensures asks { AsksUpTo most_mounts_bytes (D.meaning.asked vault.old.disk) (D.meaning.asked vault.new.disk) }
    ensures cause { HasCause (D.meaning.faults vault.old.disk) (D.meaning.faults vault.new.disk) (result ≡ Err DiskFault.Failed) }
{
    vault.read(&own.mounts, MOST_MOUNTS_BYTES)
}

/// Reads the mounts file.
fn read_mounts<D: Disk>(
    alloc: Global,
    vault: &mut Vault<D>,
    root: &DirPath,
    own: &Own,
) -> Result<Mounts, StoreFault>
    requires root { root.now ≡ vault.old.root }
    requires own { IsOwnOf vault.old.root own.now }
    ensures only_reads { OnlyReads vault.old vault.new }
    ensures mounts { D.meaning.tells → TellsMounts root.now ((D.meaning.view vault.old.disk).files (mounts_path root.now)) result }
    ensures rooted { IfOk result (λ mounts. root_of mounts ≡ root.now) }
    ensures costs { Costs 1 (D.meaning.calls vault.old.disk) (D.meaning.calls vault.new.disk) ⊤ }
    ensures cause { HasCause (D.meaning.faults vault.old.disk) (D.meaning.faults vault.new.disk) (result ≡ Err StoreFault.Disk) }
{
    match mounts_file(vault, own)? {
        Got::Absent => Ok(Mounts::only(alloc, root)?),
        Got::Bytes(bytes) => mounts_of(alloc, &own.mounts, root, &bytes),
        Got::Long => Err(StoreFault::BadFile(own.mounts.copy(alloc)?, 0)),
    }
}

/// Whether a read found a file.
fn is_there(got: &Got) -> bool
    ensures { MatchBool result (got.now ≢ Got.Absent) (got.now ≡ Got.Absent) }
{
    !matches!(got, Got::Absent)
}

/// The pending file, of which no byte is read.
fn pending_file<D: Disk>(vault: &mut Vault<D>, own: &Own) -> Result<Got, DiskFault>
    requires { IsOwnOf vault.old.root own.now }
    ensures only_reads { OnlyReads vault.old vault.new }
    ensures got { IfOk result (λ got. D.meaning.tells → Reads (without_service vault.old.root (D.meaning.view vault.old.disk).files own.now.pending) 0 got) }
    ensures bound { IfOk result (IsWithin 0) }
    ensures costs { Costs 1 (D.meaning.calls vault.old.disk) (D.meaning.calls vault.new.disk) ⊤ }
    ensures asks { AsksUpTo 0 (D.meaning.asked vault.old.disk) (D.meaning.asked vault.new.disk) }
    ensures cause { HasCause (D.meaning.faults vault.old.disk) (D.meaning.faults vault.new.disk) (result ≡ Err DiskFault.Failed) }
{
    vault.read(&own.pending, 0)
}

/// Refuses where a pending file is there, since what it says is not read yet.
fn find_no_pending<D: Disk>(
    alloc: Global,
    vault: &mut Vault<D>,
    own: &Own,
) -> Result<(), StoreFault>
    requires { IsOwnOf vault.old.root own.now }
    ensures only_reads { OnlyReads vault.old vault.new }
    ensures pending { D.meaning.tells → TellsPending vault.old.root ((D.meaning.view vault.old.disk).files (pending_path vault.old.root)) result }
    ensures costs { Costs 1 (D.meaning.calls vault.old.disk) (D.meaning.calls vault.new.disk) ⊤ }
    ensures cause { HasCause (D.meaning.faults vault.old.disk) (D.meaning.faults vault.new.disk) (result ≡ Err StoreFault.Disk) }
{
    let got = pending_file(vault, own)?;
    if is_there(&got) {
        return Err(StoreFault::BadFile(own.pending.copy(alloc)?, 1));
    }
    Ok(())
}

/// What an opening finds: the mounts, the rules, what lies below the mounts, and how many files each
/// has.
#[derive(Debug, Drop)]
pub struct Found {
    pub mounts: Mounts,
    pub rules: Rules,
    pub seen: Seen,
    pub counts: Vec<usize>,
}

impl Found {
    /// The same once more.
    pub fn copy(&self) -> Result<Found, NoMemory>
        ensures mounts { IfOk result (λ copy. copy.mounts ≡ self.now.mounts) }
        ensures rules { IfOk result (λ copy. copy.rules ≡ self.now.rules) }
        ensures seen { IfOk result (λ copy. IsSameSeen self.now.seen copy.seen) }
        ensures counts { IfOk result (λ copy. copy.counts.items ≡ self.now.counts.items) }
    {
        let alloc = *self.counts.allocator();
        Ok(Found {
            mounts: self.mounts.copy()?,
            rules: self.rules.copy()?,
            seen: self.seen.copy(alloc)?,
            counts: copies(alloc, &self.counts)?,
        })
    }
}

/// The lists in rising order, each item once.
fn all_in_order(seen: Seen) -> Seen
    ensures { IsOrdered seen result }
{
    Seen {
        names: in_order(seen.names),
        rules: in_order(seen.rules),
        templates: in_order(seen.templates),
        strange: in_order(seen.strange),
        shadowed: in_order(seen.shadowed),
    }
}

/// Reads the mounts, looks for a pending file, lists all mounts, and reads the rules.
fn survey_all<D: Disk>(
    alloc: Global,
    vault: &mut Vault<D>,
    root: &DirPath,
    own: &Own,
) -> Result<Found, StoreFault>
    requires root { root.now ≡ vault.old.root }
    requires own { IsOwnOf vault.old.root own.now }
    ensures only_reads { OnlyReads vault.old vault.new }
    ensures opens { D.meaning.tells → OpensStore vault.old.root (D.meaning.view vault.old.disk).files result }
    ensures limits { IfOk result (IsWithinLimits vault.old.root) }
    ensures costs { IsFalse vault.old.stuck → IfOk result (λ found. Costs (opening_calls found) (D.meaning.calls vault.old.disk) (D.meaning.calls vault.new.disk) ⊤) }
    ensures few { IsFalse vault.old.stuck → OnErr result (Costs most_opening_calls (D.meaning.calls vault.old.disk) (D.meaning.calls vault.new.disk) ⊥) }
    ensures cause { HasCause (D.meaning.faults vault.old.disk) (D.meaning.faults vault.new.disk) (result ≡ Err StoreFault.Disk) }
{
    let mounts = read_mounts(alloc, vault, root, own)?;
    find_no_pending(alloc, vault, own)?;
    let (seen, counts) = survey(alloc, vault, own, &mounts)?;
    let seen = all_in_order(seen);
    if seen.rules.len() > MOST_RULES {
        return Err(StoreFault::Full(Limit::Rules));
    }
    if seen.names.len() > MOST_SECRETS {
        return Err(StoreFault::Full(Limit::Secrets));
    }
    let rules = read_rules(alloc, vault, &mounts, &seen.rules)?;
    Ok(Found {
        mounts,
        rules,
        seen,
        counts,
    })
}

/// What lies below the mounts of the vault: reads the mounts file, lists the directory of each mount
/// once, and reads the file of each rule once. No secret is read. The first of these refuses it: a
/// mounts file that does not read, a pending file, a mount with more than 40,000 files, more than 512
/// rules, more than 8,192 secrets, a rule file that does not read.
pub fn find<D: Disk>(alloc: Global, vault: &mut Vault<D>) -> Result<Found, StoreFault>
    ensures only_reads { OnlyReads vault.old vault.new }
    ensures opens { D.meaning.tells → OpensStore vault.old.root (D.meaning.view vault.old.disk).files result }
    ensures limits { IfOk result (IsWithinLimits vault.old.root) }
    ensures costs { IsFalse vault.old.stuck → IfOk result (λ found. Costs (opening_calls found) (D.meaning.calls vault.old.disk) (D.meaning.calls vault.new.disk) ⊤) }
    ensures few { IsFalse vault.old.stuck → OnErr result (Costs most_opening_calls (D.meaning.calls vault.old.disk) (D.meaning.calls vault.new.disk) ⊥) }
    ensures cause { HasCause (D.meaning.faults vault.old.disk) (D.meaning.faults vault.new.disk) (result ≡ Err StoreFault.Disk) }
{
    let root = vault.root().copy(alloc)?;
    let own = Own::of(alloc, &root)?;
    survey_all(alloc, vault, &root, &own)
}
