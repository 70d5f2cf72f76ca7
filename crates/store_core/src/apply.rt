//! The one function that commits.

ghost use Rattle.std.specs.Prelude.{◌≡◌, ◌≢◌, ◌≤◌, length, [], ◌∷◌, IsFalse, IsTrue, OnOk, OnErr, Err};
ghost use Rattle.gopass_base.specs.Faults.{HasCause, counted};
ghost use Rattle.pending_journal.specs.Journal.{most_steps};
ghost use Rattle.cipher_port.specs.Tool.{Opens};
ghost use Rattle.store_state.specs.State.{State, StandsFor};
ghost use Rattle.store_core.specs.Moment.{moment_of, no_tools};
ghost use Rattle.store_core.specs.Performs.{Goes, KeepsElsewhere};
ghost use Rattle.store_core.specs.Edit.{AreWritten, Differ, IsWithin, edited, paths_in};
ghost use Rattle.store_core.specs.Entries.{entries_in};
ghost use Rattle.store_core.specs.WithTable.{AreWrittenWithTable, FitsMounts, HasRoom, IsMadeWithTable, paths_with_table, with_table};
ghost use Rattle.store_core.specs.Applying.{IsFaultOf, IsMadeBy, made_by};

use crate::change_of::change_with_table;
use crate::edit::{ApplyFault, Edit};
use crate::foresee::foresee_with_table;
use crate::store::Store;
use disk_model::Disk;
use mount_table::Mounts;
use pending_journal::CommitFault;

/// What a fault of a commit makes of an edit, on a store that was not stuck.
fn fault_of(fault: CommitFault) -> ApplyFault
    requires { fault ≢ CommitFault.Stuck }
    ensures { IsFaultOf fault result }
{
    match fault {
        CommitFault::Disk => ApplyFault::Disk,
        CommitFault::NoMemory => ApplyFault::NoMemory,
        CommitFault::Stuck => unreachable!(),
    }
}

impl<D: Disk> Store<D> {
    /// Makes the edit in one commit. After a fault of the disk it is made whole or not at all, and the
    /// store is stuck. No other file is changed, and what the store keeps changes where the answer is
    /// `Ok` alone.
    ///
    /// The caller has shown that no two entries of the edit are of one secret, rule or template, that
    /// there are at most 16,400, and that no limit of a store is passed afterwards.
    pub fn apply(&mut self, edit: &Edit) -> Result<(), ApplyFault>
        requires free { IsFalse self.old.vault.stuck }
        requires differ { Differ (entries_in edit.now) }
        requires few { length (entries_in edit.now) ≤ most_steps }
        requires fits { D.meaning.tells → (opens : Opens) (start : State) → StandsFor opens self.old.vault.root (D.meaning.view self.old.vault.disk).files start
            → IsWithin (edited opens (entries_in edit.now) start) }
        ensures goes { D.meaning.tells → (opens : Opens) (start : State) → StandsFor opens self.old.vault.root (D.meaning.view self.old.vault.disk).files start
            → Goes (StandsFor opens self.old.vault.root) self.old.vault.root start (edited opens (entries_in edit.now) start ∷ []) (made_by result) (moment_of self.old no_tools) (moment_of self.new no_tools) }
        ensures elsewhere { D.meaning.tells → KeepsElsewhere self.old.vault.root (paths_in self.old.found.mounts (entries_in edit.now)) (moment_of self.old no_tools) (moment_of self.new no_tools) }
        ensures files { OnOk result (D.meaning.tells → AreWritten self.old.found.mounts (entries_in edit.now) (D.meaning.view self.new.vault.disk).files) }
        ensures kept { OnOk result (IsMadeBy (entries_in edit.now) self.old.found self.new.found) }
        ensures same { OnErr result (self.new.found ≡ self.old.found) }
        ensures cause { HasCause (D.meaning.faults self.old.vault.disk) (D.meaning.faults self.new.vault.disk) (result ≡ Err ApplyFault.Disk) }
        ensures free { OnOk result (IsFalse self.new.vault.stuck) }
        ensures stuck { result ≡ Err ApplyFault.Disk → IsTrue self.new.vault.stuck }
        ensures counted { OnOk result (self.new.vault.commits ≡ counted self.old.vault.commits) }
        ensures uncounted { OnErr result (self.new.vault.commits ≡ self.old.vault.commits) }
        ensures root { self.new.vault.root ≡ self.old.vault.root }
    {
        let no_table: Option<Mounts> = None;
        self.apply_with_table(edit, &no_table)
    }

    /// Makes the edit as `apply` does, and writes another table of mounts in the same commit where
    /// there is one.
    ///
    /// That table differs in marks alone: the caller has shown besides that each of its rows has the
    /// alias and the directory of that of the store, and that there is room for its file.
    pub(crate) fn apply_with_table(
        &mut self,
        edit: &Edit,
        table: &Option<Mounts>,
    ) -> Result<(), ApplyFault>
        requires free { IsFalse self.old.vault.stuck }
        requires differ { Differ (entries_in edit.now) }
        requires room { HasRoom (length (entries_in edit.now)) table.now }
        requires table { FitsMounts self.old.found.mounts table.now }
        requires fits { D.meaning.tells → (opens : Opens) (start : State) → StandsFor opens self.old.vault.root (D.meaning.view self.old.vault.disk).files start
            → IsWithin (edited opens (entries_in edit.now) start) }
        ensures goes { D.meaning.tells → (opens : Opens) (start : State) → StandsFor opens self.old.vault.root (D.meaning.view self.old.vault.disk).files start
            → Goes (StandsFor opens self.old.vault.root) self.old.vault.root start (with_table table.now (edited opens (entries_in edit.now) start) ∷ []) (made_by result) (moment_of self.old no_tools) (moment_of self.new no_tools) }
        ensures elsewhere { D.meaning.tells → KeepsElsewhere self.old.vault.root (paths_with_table self.old.vault.root self.old.found.mounts (entries_in edit.now) table.now) (moment_of self.old no_tools) (moment_of self.new no_tools) }
        ensures files { OnOk result (D.meaning.tells → AreWrittenWithTable self.old.vault.root self.old.found.mounts (entries_in edit.now) table.now (D.meaning.view self.new.vault.disk).files) }
        ensures kept { OnOk result (IsMadeWithTable (entries_in edit.now) table.now self.old.found self.new.found) }
        ensures same { OnErr result (self.new.found ≡ self.old.found) }
        ensures cause { HasCause (D.meaning.faults self.old.vault.disk) (D.meaning.faults self.new.vault.disk) (result ≡ Err ApplyFault.Disk) }
        ensures free { OnOk result (IsFalse self.new.vault.stuck) }
        ensures stuck { result ≡ Err ApplyFault.Disk → IsTrue self.new.vault.stuck }
        ensures counted { OnOk result (self.new.vault.commits ≡ counted self.old.vault.commits) }
        ensures uncounted { OnErr result (self.new.vault.commits ≡ self.old.vault.commits) }
        ensures root { self.new.vault.root ≡ self.old.vault.root }
    {
        let next = foresee_with_table(self.alloc(), &self.found, edit, table)?;
        let change = change_with_table(
            self.alloc(),
            self.vault.root(),
            &self.found.mounts,
            edit,
            table,
        )?;
        match self.vault.commit(&change) {
            Ok(()) => self.found = next,
            Err(fault) => return Err(fault_of(fault)),
        }
        Ok(())
    }
}
