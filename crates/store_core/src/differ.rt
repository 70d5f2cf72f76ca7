//! What an edit has to be to be made.

ghost use Rattle.std.specs.Prelude.{◌≡◌, ◌↔◌, ◌≤◌, length, IsTrue};
ghost use Rattle.std.specs.List.{list_any};
ghost use Rattle.pending_journal.specs.Journal.{most_steps};
ghost use Rattle.store_core.specs.Edit.{Differ};
ghost use Rattle.store_core.specs.Entries.{entries_in};
ghost use Rattle.store_core.specs.Once.{each_once};

use crate::edit::Edit;

/// The most entries of an edit.
const MOST_ENTRIES: usize = 16_400;

/// Whether one of these pairs has the key.
fn has_key<K: PartialEq, V>(pairs: &[(K, V)], key: &K) -> bool
    ensures { result ≡ list_any (λ pair. K.eq pair.0 key.now) pairs.now }
{
    pairs.iter().any(|pair| pair.0 == *key)
}

/// Whether no two of these pairs have one key.
fn has_each_once<K: PartialEq, V>(pairs: &[(K, V)]) -> bool
    ensures { result ≡ each_once K.eq pairs.now }
{
    let mut left = pairs;
    while let Some((pair, rest)) = left.split_first() {
        if has_key(rest, &pair.0) {
            return false;
        }
        left = rest;
    }
    true
}

impl Edit {
    /// Whether no two entries are of one secret, of one rule or of one template. Each is compared with
    /// all others.
    pub fn entries_differ(&self) -> bool
        ensures { IsTrue result ↔ Differ (entries_in self.now) }
    {
        if !has_each_once(&self.rules) {
            return false;
        }
        if !has_each_once(&self.secrets) {
            return false;
        }
        has_each_once(&self.templates)
    }

    /// Whether there are at most 16,400 entries.
    pub fn entries_are_few(&self) -> bool
        ensures { IsTrue result ↔ length (entries_in self.now) ≤ most_steps }
    {
        let rules = self.rules.len();
        let secrets = self.secrets.len();
        let templates = self.templates.len();
        rules.saturating_add(secrets).saturating_add(templates) <= MOST_ENTRIES
    }
}
