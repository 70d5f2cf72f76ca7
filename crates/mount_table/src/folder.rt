//! A folder of secrets, as `mail/work`.

ghost use Rattle.std.specs.Prelude.{◌≡◌, ◌≤◌, ◌↔◌, [], length, IsTrue, IsOk, IfOk, OnOk, Err, MatchOption, false};
ghost use Rattle.std.specs.Str.{is_utf8};
ghost use Rattle.gopass_base.specs.Text.{Text};
ghost use Rattle.mount_table.specs.NameFaults.{IsFault};
ghost use Rattle.mount_table.specs.Prefixes.{Holds, IsPrefix, folder_parts, rest_start};
ghost use Rattle.mount_table.specs.Folders.{IsFolder, IsFolderText, IsFolderFault, without_slash};
ghost use Rattle.mount_table.specs.declared.name.BadName.{BadName};

use crate::name::{BadName, Name, NameFault, NameKind, fault_in};
use crate::part::is_prefix;
use gopass_base::{NoMemory, Utf8};
use std::alloc::Global;
use std::marker::Model;

/// A folder of secrets, which contracts see as the bytes of its text. The root folder's text is
/// empty.
#[derive(Debug, Clone, Drop, PartialEq, Eq, PartialOrd, Ord)]
pub struct Folder {
    text: Utf8,
}

impl Model for Folder {
    ghost use Rattle.gopass_base.specs.Text.{Text};
    ghost use Rattle.mount_table.specs.Folders.{IsFolder};

    ghost Value = { Text };

    ghost view = { λ folder. folder.text };

    ghost inverse = { λ text. record { text = text } };

    ghost invariant = { λ folder. IsFolder folder.text };
}

impl Folder {
    /// The folder that the text names. `/` is the root folder. Any other text may have one `/`
    /// behind it; what is left is a name in which the last part too may not end in `.gpg`, and is
    /// refused as a name is, where the first part that fails begins.
    pub fn read(alloc: Global, text: &str) -> Result<Folder, NameFault>
        ensures folder { IfOk result (λ folder. folder ≡ without_slash text.now) }
        ensures good { IsOk result → IsFolderText text.now }
        ensures bad { (bad : BadName) → result ≡ Err (NameFault.Bad bad) → ¬ IsFolderText text.now }
        ensures fault { (bad : BadName) → result ≡ Err (NameFault.Bad bad) → IsFolderFault text.now bad }
    {
        if text == "/" {
            return Ok(Folder::root(alloc));
        }
        let text = without_slash(text);
        if text.is_empty() {
            return Err(NameFault::Bad(BadName {
                at: 0,
                kind: NameKind::Empty,
            }));
        }
        Folder::of_text(alloc, text)
    }

    /// The root folder, which takes no memory.
    pub(crate) fn root(alloc: Global) -> Folder
        ensures { result ≡ [] }
    {
        Folder {
            text: Utf8::empty(alloc),
        }
    }

    /// The folder that has this text, where the empty text is the root folder. Any other text is
    /// refused where it is no name, or where its last part ends in `.gpg`, and so is one with a `/`
    /// at either end.
    pub fn of_text(alloc: Global, text: &str) -> Result<Folder, NameFault>
        ensures folder { IfOk result (λ folder. folder ≡ text.now) }
        ensures good { IsOk result → IsFolder text.now }
        ensures bad { (bad : BadName) → result ≡ Err (NameFault.Bad bad) → ¬ IsFolder text.now }
        ensures fault { (bad : BadName) → result ≡ Err (NameFault.Bad bad) → IsFault false text.now bad }
    {
        match folder_fault(text) {
            Some(bad) => Err(NameFault::Bad(bad)),
            None => Ok(Folder {
                text: Utf8::of(alloc, text)?,
            }),
        }
    }

    /// The bytes of the text.
    pub fn text(&self) -> &str
        ensures text { result.now ≡ self.now }
        ensures good { IsFolder self.now }
    {
        self.text.text()
    }

    /// The same folder once more.
    pub fn copy(&self, alloc: Global) -> Result<Folder, NoMemory>
        ensures copy { IfOk result (λ copy. copy ≡ self.now) }
        ensures good { OnOk result (IsTrue (is_utf8 self.now) × IsFolder self.now) }
    {
        Ok(Folder {
            text: Utf8::of(alloc, self.text())?,
        })
    }

    /// Whether the secret lies in the folder or in one below it: the folder's parts are how the
    /// name's parts begin, and the name has more of them.
    pub fn holds(&self, name: &Name) -> bool
        ensures { IsTrue result ↔ Holds self.now name.now }
    {
        is_above(self.text().as_bytes(), name.text().as_bytes())
    }

    /// The byte where the rest of each name begins that the folder holds.
    pub fn start_below(&self) -> usize
        ensures { (name : Text) → Holds self.now name → result ≡ rest_start self.now name }
    {
        let text = self.text();
        if text.is_empty() { 0 } else { text.len() + 1 }
    }

    /// Whether this is the other folder or lies above it.
    pub(crate) fn reaches(&self, other: &Folder) -> bool
        ensures { IsTrue result ↔ IsPrefix (folder_parts self.now) (folder_parts other.now) }
    {
        if self.text().is_empty() {
            return true;
        }
        is_prefix(self.text().as_bytes(), other.text().as_bytes())
    }
}

/// Why no folder has this text.
fn folder_fault(text: &str) -> Option<BadName>
    ensures { MatchOption result (IsFolder text.now) (λ bad. (1 ≤ length text.now) × IsFault false text.now bad) }
{
    if text.is_empty() {
        return None;
    }
    fault_in(text, false)
}

/// The text without one slash at its end.
fn without_slash(text: &str) -> &str
    ensures { result.now ≡ without_slash text.now }
{
    match text.strip_suffix('/') {
        Some(front) => front,
        None => text,
    }
}

/// Whether the secret with this name lies in the folder.
pub(crate) fn is_above(folder: &[u8], name: &[u8]) -> bool
    ensures { IsTrue result ↔ Holds folder.now name.now }
{
    if folder.is_empty() {
        return true;
    }
    match name.strip_prefix(folder) {
        Some(rest) => rest.starts_with(b"/"),
        None => false,
    }
}
