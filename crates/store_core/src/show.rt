//! The command `show`.

ghost use Rattle.std.specs.Prelude.{◌≡◌, ◌≢◌, ◌+◌, ◌≤◌, length, Contains, IsFalse, IsOk, IfOk, IfErr, Err};
ghost use Rattle.gopass_base.specs.Text.{Text};
ghost use Rattle.gopass_base.specs.Faults.{Costs, HasCause, counted};
ghost use Rattle.store_core.specs.Stores.{OnlyReadsStore};
ghost use Rattle.cipher_port.specs.Limits.{most_body};
ghost use Rattle.store_core.specs.Moment.{one_tool};
ghost use Rattle.store_core.specs.Does.{Does, Keeps};
ghost use Rattle.store_core.specs.Plans.{outcome_by};
ghost use Rattle.store_core.specs.Steps.{just};
ghost use Rattle.store_core.specs.Refusals.{IsAbout};
ghost use Rattle.store_core.specs.Show.{plan_show};
ghost use Rattle.store_core.specs.Unsealing.{IsNotSealed, Shows, refusal_by_tool, why_missing};

use crate::reads::{has_name, holds_one};
use crate::refusal::Refusal;
use crate::store::Store;
use cipher_port::{Cipher, UnsealFault};
use disk_model::Disk;
use mount_table::Name;
use std::alloc::Global;

/// Why there is no secret with this name.
fn why_missing(names: &[Name], name: &Name) -> Refusal
    ensures { result ≡ why_missing name.now names.now }
{
    if holds_one(name, names) {
        Refusal::IsFolder
    } else {
        Refusal::NotFound
    }
}

/// What a fault of the tool says of the secret.
fn refusal_by_tool(name: Name, fault: UnsealFault) -> Refusal
    ensures { result ≡ refusal_by_tool name fault }
{
    match fault {
        UnsealFault::NoKey => Refusal::NoKey(name),
        UnsealFault::NotSealed => Refusal::NotSealed(name),
        UnsealFault::Failed => Refusal::Tool(name),
        UnsealFault::NoMemory => Refusal::NoMemory,
    }
}

/// What is said of a secret whose file is not sealed.
fn not_sealed(alloc: Global, name: &Name) -> Refusal
    ensures { IsNotSealed name.now result }
{
    match name.copy(alloc) {
        Ok(name) => Refusal::NotSealed(name),
        Err(_) => Refusal::NoMemory,
    }
}

/// The body of the sealed bytes in the file of the secret. The name for a refusal is there before the
/// tool is called, so that no fault of it is told as want of memory.
fn unseal<C: Cipher>(
    alloc: Global,
    name: &Name,
    sealed: &[u8],
    tool: &mut C,
) -> Result<Vec<u8>, Refusal>
    ensures shows { C.meaning.tells → Shows name.now (C.meaning.opens sealed.now) (C.meaning.ring tool.old) result }
    ensures ring { C.meaning.ring tool.new ≡ C.meaning.ring tool.old }
    ensures once { C.meaning.calls tool.new ≤ C.meaning.calls tool.old + 1 }
    ensures calls { result ≢ Err Refusal.NoMemory → C.meaning.calls tool.new ≡ counted (C.meaning.calls tool.old) }
    ensures no_disk { result ≢ Err Refusal.Disk }
    ensures about { IfErr result (IsAbout name.now) }
    ensures bound { IfOk result (λ body. length body.items ≤ most_body) }
    ensures cause { HasCause (C.meaning.faults tool.old) (C.meaning.faults tool.new) ((name : Text) × (result ≡ Err (Refusal.Tool name))) }
{
    let own = name.copy(alloc)?;
    match tool.open(alloc, sealed) {
        Ok(body) => Ok(body),
        Err(fault) => Err(refusal_by_tool(own, fault)),
    }
}

impl<D: Disk> Store<D> {
    /// The body of the secret. Its file is read with one call of the disk and opened with one of the
    /// tool, and nothing is changed. Where there is no such secret the disk is not asked.
    pub fn show<C: Cipher>(&mut self, name: &Name, tool: &mut C) -> Result<Vec<u8>, Refusal>
        requires free { IsFalse self.old.vault.stuck }
        ensures planned { Does (λ ring. plan_show ring name.now) self.old self.new (one_tool C.meaning tool.old) (one_tool C.meaning tool.new)
            (just (outcome_by (λ body. body.items) result)) }
        ensures keeps { Keeps 1 self.old self.new (one_tool C.meaning tool.old) (one_tool C.meaning tool.new)
            (outcome_by (λ body. body.items) result) }
        ensures about { IfErr result (IsAbout name.now) }
        ensures bound { IfOk result (λ body. length body.items ≤ most_body) }
        ensures only_reads { OnlyReadsStore self.old self.new }
        ensures costs { Costs 1 (D.meaning.calls self.old.vault.disk) (D.meaning.calls self.new.vault.disk) (IsOk result) }
        ensures unasked { D.meaning.tells → ¬ Contains self.old.found.seen.names.items name.now → D.meaning.calls self.new.vault.disk ≡ D.meaning.calls self.old.vault.disk }
    {
        if !has_name(self.names(), name) {
            return Err(why_missing(self.names(), name));
        }
        // A name is one, so its file is none of the vault's own.
        let _ = name.text();
        let path = self.mounts().file_of(name)?;
        match self.read_at(&path)? {
            Some(sealed) => unseal(self.alloc(), name, &sealed, tool),
            None => Err(not_sealed(self.alloc(), name)),
        }
    }
}
