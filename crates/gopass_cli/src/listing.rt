//! The commands that print what a store has: `ls`, `find`, `mounts` and `recipients`.

ghost use Rattle.std.specs.Prelude.{◌≡◌, ◌||◌, IsFalse, IfOk, All, List, bytes_eq};
ghost use Rattle.gopass_base.specs.Text.{Text};
ghost use Rattle.mount_table.specs.Prefixes.{Holds};
ghost use Rattle.store_core.specs.Plans.{Done};
ghost use Rattle.store_core.specs.Reads.{rows_under};
ghost use Rattle.store_core.specs.Show.{holds_one};
ghost use Rattle.gopass_cli.specs.Outcomes.{ComesTo, IsInner, Concerns, meant};
ghost use Rattle.gopass_cli.specs.Listings.{Lists};
ghost use Rattle.gopass_cli.specs.Ls.{is_alias, listed, plan_ls};
ghost use Rattle.gopass_cli.specs.Find.{hits, plan_find};
ghost use Rattle.gopass_cli.specs.Mounts.{plan_mounts};
ghost use Rattle.gopass_cli.specs.Recipients.{plan_recipients};

use crate::outcome::{Outcome, no_memory};
use disk_model::Disk;
use gopass_base::NoMemory;
use listing_texts::{mounts_text, on_lines, recipients_text, tree_of};
use mount_table::{Folder, Mounts, Name};
use std::alloc::Global;
use store_core::{Refusal, Store};
use text_search::names_with;

/// What the text comes to, where there is memory for it.
fn print_text(text: Result<Vec<u8>, NoMemory>) -> Outcome
    ensures says { (wanted : Text) → IfOk text (λ t. t.items ≡ wanted) → ComesTo (Done wanted) (meant result) }
    ensures own { IsInner (meant result) }
    ensures about { (subject : Text) → Concerns subject (meant result) }
{
    match text {
        Ok(text) => Outcome::Done(text),
        Err(_) => no_memory(),
    }
}

fn is_same(folder: &Folder, other: &Folder) -> bool
    ensures { result ≡ bytes_eq folder.now other.now }
{
    folder == other
}

/// Whether a mount has the folder as its alias.
fn is_alias(mounts: &Mounts, folder: &Folder) -> bool
    ensures { result ≡ is_alias mounts.now folder.now }
{
    mounts.rows().iter().any(|row| is_same(&row.alias, folder))
}

/// The secrets of the folder: their full names, or their tree.
fn listed(alloc: Global, flat: bool, folder: &Folder, names: &[Name]) -> Result<Vec<u8>, NoMemory>
    requires { All (Holds folder.now) names.now }
    ensures { IfOk result (λ text. text.items ≡ listed flat folder.now names.now) }
{
    if flat {
        on_lines(alloc, names)
    } else {
        tree_of(alloc, folder, names)
    }
}

/// Whether there is such a folder: it has these secrets, or a mount has it as its alias.
fn is_there(mounts: &Mounts, folder: &Folder, names: &[Name]) -> bool
    ensures { (all : List Text) → names.now ≡ rows_under folder.now all → result ≡ (holds_one folder.now all || is_alias mounts.now folder.now) }
{
    !names.is_empty() || is_alias(mounts, folder)
}

/// `ls FOLDER`: the secrets of the folder.
pub(crate) fn ls<D: Disk>(alloc: Global, store: &Store<D>, folder: &Folder, flat: bool) -> Outcome
    requires free { IsFalse store.now.vault.stuck }
    ensures { Lists store.now (plan_ls folder.now flat) (meant result) }
{
    match store.rows_under(folder) {
        Ok(names) => {
            if !is_there(store.mounts(), folder, &names) {
                return Outcome::Refused(Refusal::NotFound);
            }
            print_text(listed(alloc, flat, folder, &names))
        }
        Err(_) => no_memory(),
    }
}

/// What these lines come to; where there is none there is no hit.
fn hits(lines: Vec<u8>) -> Outcome
    ensures says { meant result ≡ hits lines.items }
    ensures own { IsInner (meant result) }
    ensures about { (subject : Text) → Concerns subject (meant result) }
{
    if lines.is_empty() {
        return Outcome::NoHit;
    }
    Outcome::Done(lines)
}

/// The same, where there is memory for the lines.
fn print_hits(lines: Result<Vec<u8>, NoMemory>) -> Outcome
    ensures says { (wanted : Text) → IfOk lines (λ l. l.items ≡ wanted) → ComesTo (hits wanted) (meant result) }
    ensures own { IsInner (meant result) }
    ensures about { (subject : Text) → Concerns subject (meant result) }
{
    match lines {
        Ok(lines) => hits(lines),
        Err(_) => no_memory(),
    }
}

/// `find TEXT`: the names of the secrets that have the text.
pub(crate) fn find<D: Disk>(alloc: Global, store: &Store<D>, text: &str) -> Outcome
    requires free { IsFalse store.now.vault.stuck }
    ensures { Lists store.now (plan_find text.now) (meant result) }
{
    match names_with(alloc, store.names(), text) {
        Ok(names) => print_hits(on_lines(alloc, &names)),
        Err(_) => no_memory(),
    }
}

/// `mounts`: the mounts, a line for each.
pub(crate) fn mounts<D: Disk>(alloc: Global, store: &Store<D>) -> Outcome
    requires free { IsFalse store.now.vault.stuck }
    ensures { Lists store.now plan_mounts (meant result) }
{
    print_text(mounts_text(alloc, store.mounts()))
}

/// `recipients`: the folders that have a rule, each with its ids.
pub(crate) fn recipients<D: Disk>(alloc: Global, store: &Store<D>) -> Outcome
    requires free { IsFalse store.now.vault.stuck }
    ensures { Lists store.now plan_recipients (meant result) }
{
    print_text(recipients_text(alloc, store.rules()))
}
