//! The command `insert`.

ghost use Rattle.std.specs.Prelude.{◌≡◌, ◌∷◌, ◌≢◌, ◌+◌, ◌≤◌, [], length, not, ◌&&◌, IsFalse, IsTrue, IfOk, IfErr, OnOk, OnErr, Some, Err};
ghost use Rattle.gopass_base.specs.Text.{Text};
ghost use Rattle.gopass_base.specs.Faults.{HasCause, counted};
ghost use Rattle.path_rules.specs.Governing.{governing_ids};
ghost use Rattle.cipher_port.specs.Limits.{most_body};
ghost use Rattle.store_state.specs.Places.{secret_path};
ghost use Rattle.store_core.specs.Moment.{moment_of, no_tools, one_tool};
ghost use Rattle.store_core.specs.Performs.{KeepsElsewhere};
ghost use Rattle.store_core.specs.Does.{Does, Keeps};
ghost use Rattle.store_core.specs.Plans.{outcome_by};
ghost use Rattle.store_core.specs.Steps.{just};
ghost use Rattle.store_core.specs.Refusals.{IsAbout};
ghost use Rattle.store_core.specs.Insert.{plan_insert};
ghost use Rattle.store_core.specs.Edit.{OfSecret};
ghost use Rattle.store_core.specs.Entries.{entries_in};
ghost use Rattle.store_core.specs.Applying.{IsMadeBy};
ghost use Rattle.store_core.specs.Inserting.{IsTested, IsUnruled, SealsBody};

use crate::edit::Edit;
use crate::reads::has_name;
use crate::refusal::{Refusal, refused_by};
use crate::store::Store;
use cipher_port::{Cipher, SealFault};
use disk_model::Disk;
use gopass_base::NoMemory;
use mount_table::Name;
use recipient_files::Recipients;
use std::alloc::Global;
use store_state::{Limit, MOST_FILES, MOST_SECRETS};

/// The most bytes of a body.
const MOST_BODY: usize = 32_768;

/// The body sealed for these recipients. The name for a refusal is there before the tool is called, so
/// that no fault of it is told as want of memory.
fn seal_body<C: Cipher>(
    alloc: Global,
    name: &Name,
    ids: &Recipients,
    body: &[u8],
    tool: &mut C,
) -> Result<Vec<u8>, Refusal>
    requires { length body.now ≤ most_body }
    ensures seals { C.meaning.tells → SealsBody C.meaning.opens (C.meaning.ring tool.old) ids.now name.now body.now result }
    ensures ring { C.meaning.ring tool.new ≡ C.meaning.ring tool.old }
    ensures once { C.meaning.calls tool.new ≤ C.meaning.calls tool.old + 1 }
    ensures calls { result ≢ Err Refusal.NoMemory → C.meaning.calls tool.new ≡ counted (C.meaning.calls tool.old) }
    ensures no_disk { result ≢ Err Refusal.Disk }
    ensures about { IfErr result (IsAbout name.now) }
    ensures cause { HasCause (C.meaning.faults tool.old) (C.meaning.faults tool.new) ((name : Text) × (result ≡ Err (Refusal.Tool name))) }
{
    let own = name.copy(alloc)?;
    match tool.seal(alloc, ids, body) {
        Ok(sealed) => Ok(sealed),
        Err(SealFault::UnknownId(place)) => match ids.ids()[place].copy(alloc) {
            Ok(id) => Err(Refusal::UnknownId(id)),
            Err(_) => Err(Refusal::NoMemory),
        },
        Err(SealFault::Failed) => Err(Refusal::Tool(own)),
        Err(SealFault::NoMemory) => Err(Refusal::NoMemory),
    }
}

/// Whether a secret is not to be put, because it is there.
fn is_in_the_way(there: bool, force: bool) -> bool
    ensures { result ≡ (not force && there) }
{
    !force && there
}

/// The edit that gives the file of the secret these bytes.
fn edit_of(alloc: Global, name: &Name, sealed: Vec<u8>) -> Result<Edit, NoMemory>
    ensures { IfOk result (λ edit. entries_in edit ≡ OfSecret name.now (Some sealed.items) ∷ []) }
{
    let mut edit = Edit::new(alloc);
    edit.secrets.push((name.copy(alloc)?, Some(sealed)))?;
    Ok(edit)
}

impl<D: Disk> Store<D> {
    /// The recipients of the secret, once more.
    fn rule_for(&self, name: &Name) -> Result<Recipients, Refusal>
        ensures rule { IfOk result (λ ids. governing_ids self.now.found.rules self.now.found.mounts name.now ≡ Some ids) }
        ensures none { IfErr result (IsUnruled name.now (governing_ids self.now.found.rules self.now.found.mounts name.now)) }
    {
        match self.governing(name) {
            Some(ids) => Ok(ids.copy()?),
            None => Err(Refusal::NoRule(name.copy(self.alloc())?)),
        }
    }

    /// Whether the secret may be put: it is not there or is to be written over, and no limit is passed.
    fn test(&self, name: &Name, body: &[u8], force: bool) -> Result<(), Refusal>
        ensures tested { IsTested self.now.found name.now body.now force result }
        ensures short { OnOk result (length body.now ≤ most_body) }
        ensures no_disk { result ≢ Err Refusal.Disk }
    {
        let there = has_name(self.names(), name);
        let row = self.mounts().resolve(name).row;
        if is_in_the_way(there, force) {
            Err(Refusal::Exists(name.copy(self.alloc())?))
        } else if body.len() > MOST_BODY {
            Err(Refusal::Full(Limit::Body))
        } else if there {
            Ok(())
        } else if self.names().len() >= MOST_SECRETS {
            Err(Refusal::Full(Limit::Secrets))
        } else if self.files_in(row) >= MOST_FILES {
            Err(Refusal::Full(Limit::Files))
        } else {
            Ok(())
        }
    }

    /// Seals the body for the recipients of the name and puts it into the file of the secret, in one
    /// commit. A secret that is there is written over with `force` alone. The tool is called
    /// once at most, and no other file than that of the secret is changed.
    pub fn insert<C: Cipher>(
        &mut self,
        name: &Name,
        body: &[u8],
        force: bool,
        tool: &mut C,
    ) -> Result<(), Refusal>
        requires free { IsFalse self.old.vault.stuck }
        ensures planned { Does (λ ring. plan_insert ring name.now body.now force) self.old self.new (one_tool C.meaning tool.old) (one_tool C.meaning tool.new)
            (just (outcome_by (λ done. []) result)) }
        ensures keeps { Keeps 1 self.old self.new (one_tool C.meaning tool.old) (one_tool C.meaning tool.new)
            (outcome_by (λ done. []) result) }
        ensures about { IfErr result (IsAbout name.now) }
        ensures kept { OnOk result ((bytes : Text) × IsMadeBy (OfSecret name.now (Some bytes) ∷ []) self.old.found self.new.found) }
        ensures same { OnErr result (self.new.found ≡ self.old.found) }
        ensures stuck { result ≡ Err Refusal.Disk → IsTrue self.new.vault.stuck }
        ensures counted { OnOk result (self.new.vault.commits ≡ counted self.old.vault.commits) }
        ensures uncounted { OnErr result (self.new.vault.commits ≡ self.old.vault.commits) }
        ensures elsewhere { D.meaning.tells → KeepsElsewhere self.old.vault.root (secret_path self.old.found.mounts name.now ∷ []) (moment_of self.old no_tools) (moment_of self.new no_tools) }
    {
        let alloc = self.alloc();
        let ids = self.rule_for(name)?;
        self.test(name, body, force)?;
        let sealed = seal_body(alloc, name, &ids, body, tool)?;
        let edit = edit_of(alloc, name, sealed)?;
        refused_by(self.apply(&edit))
    }
}
