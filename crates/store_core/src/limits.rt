//! The limits of a store.

ghost use Rattle.std.specs.Prelude.{◌≡◌, ◌≤◌, length, nat_lt, IsFalse, IfOk, Ok, None};
ghost use Rattle.std.specs.List.{list_any};
ghost use Rattle.mount_table.specs.Mounts.{IsTable, root_of};
ghost use Rattle.pending_journal.specs.Journal.{most_steps};
ghost use Rattle.cipher_port.specs.Tool.{Opens};
ghost use Rattle.store_state.specs.State.{State, StandsFor};
ghost use Rattle.store_state.specs.Limits.{most_files};
ghost use Rattle.store_core.specs.Edit.{IsWithin, edited, limit_among, limit_in};
ghost use Rattle.store_core.specs.Entries.{entries_in};

use crate::edit::Edit;
use crate::foresee::foresee;
use crate::store::Store;
use disk_model::Disk;
use gopass_base::NoMemory;
use mount_table::{Folder, Mounts, Name};
use path_rules::MOST_RULES;
use store_state::{Limit, MOST_FILES, MOST_SECRETS};

fn is_full(count: usize) -> bool
    ensures { result ≡ nat_lt most_files count }
{
    count > MOST_FILES
}

/// Whether one of these numbers of files is passed.
fn one_full(counts: &[usize]) -> bool
    ensures { result ≡ list_any (λ count. nat_lt most_files count) counts.now }
{
    counts.iter().any(|count| is_full(*count))
}

/// The first limit that these rules, secrets and numbers of files pass.
fn limit_among(rules: &[Folder], secrets: &[Name], counts: &[usize]) -> Option<Limit>
    ensures { result ≡ limit_among (length rules.now) (length secrets.now) counts.now }
{
    if one_full(counts) {
        Some(Limit::Files)
    } else if rules.len() > MOST_RULES {
        Some(Limit::Rules)
    } else if secrets.len() > MOST_SECRETS {
        Some(Limit::Secrets)
    } else {
        None
    }
}

/// The mounts are a table, in which no two names have one file.
fn are_table(mounts: &Mounts)
    ensures { IsTable (root_of mounts.now) mounts.now }
{
    let _ = mounts.rows();
}

impl<D: Disk> Store<D> {
    /// The first limit that the store passes once the edit is made: 40,000 files below the directory of
    /// a mount, 512 rules, 8,192 secrets; or none.
    pub fn limit_of(&self, edit: &Edit) -> Result<Option<Limit>, NoMemory>
        requires free { IsFalse self.now.vault.stuck }
        requires few { length (entries_in edit.now) ≤ most_steps }
        ensures limit { IfOk result (λ limit. D.meaning.tells → (opens : Opens) (start : State) → StandsFor opens self.now.vault.root (D.meaning.view self.now.vault.disk).files start
            → limit ≡ limit_in (edited opens (entries_in edit.now) start)) }
        ensures within { result ≡ Ok None → D.meaning.tells → (opens : Opens) (start : State) → StandsFor opens self.now.vault.root (D.meaning.view self.now.vault.disk).files start
            → IsWithin (edited opens (entries_in edit.now) start) }
    {
        are_table(&self.found.mounts);
        let next = foresee(self.alloc(), &self.found, edit)?;
        Ok(limit_among(&next.seen.rules, &next.seen.names, &next.counts))
    }
}
