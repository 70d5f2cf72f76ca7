//! A set of recipients.

ghost use Rattle.std.specs.Prelude.{◌≡◌, ◌≢◌, ◌↔◌, ◌<◌, ◌≤◌, [], ◌∷◌, ◌++◌, length, IsTrue, IsOk, IfOk, Err, All, Contains};
ghost use Rattle.gopass_base.specs.Text.{Text, is_among};
ghost use Rattle.gopass_base.specs.Order.{IsSetOf};
ghost use Rattle.recipient_files.specs.Ids.{Ids, IsId, IsRecipients, without, most_ids};
ghost use Rattle.recipient_files.specs.IdText.{is_id};
ghost use Rattle.recipient_files.specs.Changes.{AddsId, RemovesId};
ghost use Rattle.recipient_files.specs.RuleText.{IsRule, ids_of, first_bad_line, rule_text};
ghost use Rattle.recipient_files.specs.RuleReads.{ReadsRuleText};
ghost use Rattle.recipient_files.specs.declared.recipients.OfFault.TheVariants.{NoMemory};
ghost use Rattle.recipient_files.specs.declared.recipients.IdAddFault.TheVariants.{NoMemory as no_room};

use crate::rule::read_lines;
use crate::{Id, RuleFault, RuleKind};
use gopass_base::{NoMemory as NoRoom, in_order, push_line};
use std::alloc::{AllocError, Global};
use std::marker::Model;

pub(crate) const MOST_IDS: usize = 64;

/// Why ids make no set of recipients.
#[derive(Clone, Copy, Debug, PartialEq, Eq)]
pub enum OfFault {
    /// There is no id.
    Empty,
    /// There are more than 64 different ids.
    TooMany,
    NoMemory,
}

impl From<NoRoom> for OfFault {
    ghost from_gives = { λ _ e. e ≡ NoMemory };

    fn from(_: NoRoom) -> Self {
        OfFault::NoMemory
    }
}

/// Why an id is not added.
#[derive(Clone, Copy, Debug, PartialEq, Eq)]
pub enum IdAddFault {
    /// The set has the id.
    Already,
    /// The set has 64 other ids.
    Full,
    NoMemory,
}

impl From<NoRoom> for IdAddFault {
    ghost from_gives = { λ _ e. e ≡ no_room };

    fn from(_: NoRoom) -> Self {
        IdAddFault::NoMemory
    }
}

/// Why an id is not taken out.
#[derive(Clone, Copy, Debug, PartialEq, Eq)]
pub enum IdRemoveFault {
    /// The set has not the id.
    Absent,
    /// The set has no other id.
    Last,
}

/// 1 to 64 ids, which contracts see as their list in rising order of their bytes.
#[derive(Debug, Drop)]
pub struct Recipients {
    ids: Vec<Id>,
}

impl Model for Recipients {
    ghost use Rattle.recipient_files.specs.Ids.{Ids, IsRecipients};

    ghost Value = { Ids };

    ghost view = { λ set. set.ids.items };

    ghost invariant = { λ set. IsRecipients set.ids.items };
}

impl Recipients {
    /// The set of these ids. Ids that are there twice count once.
    pub fn of(alloc: Global, ids: &[Id]) -> Result<Recipients, OfFault>
        ensures set { IfOk result (λ set. IsSetOf set ids.now) }
        ensures some { IsOk result → ids.now ≢ [] }
        ensures empty { result ≡ Err OfFault.Empty → ids.now ≡ [] }
        ensures too_many { result ≡ Err OfFault.TooMany → (set : Ids) × IsSetOf set ids.now × (most_ids < length set) }
    {
        if ids.is_empty() {
            return Err(OfFault::Empty);
        }
        let set = set_of(copies_of(alloc, ids)?);
        if set.len() > MOST_IDS {
            return Err(OfFault::TooMany);
        }
        Ok(Recipients { ids: set })
    }

    /// The set of the ids that a rule file names, or its first bad line.
    ///
    /// A line names the id that is left of it without the text from `#` on and without the spaces
    /// at its ends. A line of which nothing is left names none, and an id that is named twice
    /// counts once. The last line need not end with an LF.
    pub fn read(alloc: Global, bytes: &[u8]) -> Result<Recipients, RuleFault>
        ensures { ReadsRuleText (λ set. IsSetOf set (ids_of bytes.now)) (first_bad_line bytes.now) result }
    {
        let ids = read_lines(alloc, bytes)?;
        if ids.is_empty() {
            return Err(RuleFault::Bad {
                line: 0,
                kind: RuleKind::None,
            });
        }
        Ok(Recipients { ids: set_of(ids) })
    }

    /// The text of a rule file that names the set: a line for each id, in rising order.
    pub fn write(&self) -> Result<Vec<u8>, NoRoom>
        ensures { IfOk result (λ bytes. bytes.items ≡ rule_text self.now) }
    {
        text_of(*self.ids.allocator(), &self.ids)
    }

    /// The set of ids that are in rising order of their bytes, each of them once: 1 to 64.
    pub fn from_rising(ids: Vec<Id>) -> Recipients
        requires { IsRecipients ids.items }
        ensures { result ≡ ids.items }
    {
        Recipients { ids }
    }

    /// The ids in rising order of their bytes.
    pub fn ids(&self) -> &[Id]
        ensures ids { result.now ≡ self.now }
        ensures good { IsRecipients self.now }
    {
        &self.ids
    }

    /// Whether both sets have the same ids.
    pub fn same(&self, other: &Recipients) -> bool
        ensures { IsTrue result ↔ (self.now ≡ other.now) }
    {
        are_same(&self.ids, &other.ids)
    }

    /// An equal set of its own.
    pub fn copy(&self) -> Result<Recipients, NoRoom>
        ensures { IfOk result (λ set. set ≡ self.now) }
    {
        Ok(self.clone()?)
    }

    /// Adds an id. The set stays as it is where it has the id, or else 64 others.
    pub fn add(&mut self, id: &Id) -> Result<(), IdAddFault>
        ensures { AddsId id.now self.old self.new result }
    {
        if has(&self.ids, id) {
            return Err(IdAddFault::Already);
        }
        if self.ids.len() == MOST_IDS {
            return Err(IdAddFault::Full);
        }
        let ids = with_one(*self.ids.allocator(), &self.ids, id)?;
        self.ids = set_of(ids);
        Ok(())
    }

    /// Takes an id out. The set stays as it is where it has not the id, or else no other one.
    pub fn remove(&mut self, id: &Id) -> Result<(), IdRemoveFault>
        ensures { RemovesId id.now self.old self.new result }
    {
        if !has(&self.ids, id) {
            return Err(IdRemoveFault::Absent);
        }
        if self.ids.len() == 1 {
            return Err(IdRemoveFault::Last);
        }
        take_out(&mut self.ids, id);
        Ok(())
    }
}

impl Clone for Recipients {
    ghost is_clone = { λ set clone. clone ≡ set };

    fn clone(&self) -> Result<Recipients, AllocError> {
        Ok(Recipients {
            ids: self.ids.clone()?,
        })
    }
}

/// What is written for a set is read as that set, and no text is read as two sets. An id is tested as
/// it is defined.
pub fn rule_texts()
    ensures written { (set : Ids) → IsRecipients set → IsRule set (rule_text set) }
    ensures one_set { (set other : Ids) (text : Text) → IsRule set text → IsRule other text → set ≡ other }
    ensures ids { (text : Text) → IsTrue (is_id text) ↔ IsId text }
{}

fn are_same(ids: &[Id], others: &[Id]) -> bool
    ensures { IsTrue result ↔ (ids.now ≡ others.now) }
{
    ids == others
}

/// Whether the id is one of these, as it is computed.
pub(crate) fn is_among(ids: &[Id], id: &Id) -> bool
    ensures { result ≡ is_among ids.now id.now }
{
    ids.iter().any(|one| one.text() == id.text())
}

fn has(ids: &[Id], id: &Id) -> bool
    ensures { IsTrue result ↔ Contains ids.now id.now }
{
    is_among(ids, id)
}

fn take_out(ids: &mut Vec<Id>, id: &Id)
    ensures { ids.new.items ≡ without ids.old.items id.now }
{
    ids.retain(|one| one.text() != id.text());
}

/// A line for each id.
fn text_of(alloc: Global, ids: &[Id]) -> Result<Vec<u8>, NoRoom>
    ensures { IfOk result (λ bytes. bytes.items ≡ rule_text ids.now) }
{
    let mut bytes = Vec::new(alloc);
    for id in ids {
        push_line(&mut bytes, id.text().as_bytes())?;
    }
    Ok(bytes)
}

/// The ids in rising order, each of them once.
fn set_of(ids: Vec<Id>) -> Vec<Id>
    ensures set { IsSetOf result.items ids.items }
    ensures each { All IsId ids.items → All IsId result.items }
    ensures few { length result.items ≤ length ids.items }
{
    in_order(ids)
}

/// Copies of the ids, and one of one more.
fn with_one(alloc: Global, ids: &[Id], id: &Id) -> Result<Vec<Id>, NoRoom>
    ensures ids { IfOk result (λ all. all.items ≡ ids.now ++ id.now ∷ []) }
    ensures each { IfOk result (λ all. All IsId all.items) }
{
    let mut all = copies_of(alloc, ids)?;
    all.push(id.copy(alloc)?)?;
    Ok(all)
}

fn copies_of(alloc: Global, ids: &[Id]) -> Result<Vec<Id>, NoRoom>
    ensures same { IfOk result (λ copies. copies.items ≡ ids.now) }
    ensures each { IfOk result (λ copies. All IsId copies.items) }
{
    let mut copies = Vec::new(alloc);
    for id in ids {
        copies.push(id.copy(alloc)?)?;
    }
    Ok(copies)
}

#[cfg(test)]
mod tests;
