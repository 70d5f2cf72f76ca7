//! The full name of a secret, as `mail/work/me`.

ghost use Rattle.std.specs.Prelude.{◌≡◌, ◌↔◌, ◌≤◌, ◌&&◌, not, length, drop, IsTrue, IsOk, IfOk, Err, MatchOption};
ghost use Rattle.gopass_base.specs.Parts.{parts};
ghost use Rattle.mount_table.specs.Names.{IsName};
ghost use Rattle.gopass_base.specs.Paths.{file_of};
ghost use Rattle.mount_table.specs.Prefixes.{Holds, rest_start};
ghost use Rattle.mount_table.specs.NameFaults.{Fails, IsGood, AreGood, IsFirstFault, IsFault, IsNameFault};
ghost use Rattle.mount_table.specs.declared.name.BadName.{BadName};
ghost use Rattle.mount_table.specs.declared.name.NameFault.TheVariants.{NoMemory as no_memory};

use crate::folder::{Folder, is_above};
use gopass_base::{DirPath, FilePath, NoMemory, Utf8, is_hidden, is_printable, is_sealed_name};
use std::alloc::Global;
use std::marker::Model;

/// What is wrong with a name.
#[derive(Clone, Copy, Debug, PartialEq, Eq)]
pub enum NameKind {
    /// A part has no byte.
    Empty,
    /// A part begins with a dot.
    Dots,
    /// A part has a byte below 32, or 127.
    Control,
    /// A part has more than 100 bytes.
    LongPart,
    /// The text has more than 400 bytes.
    LongName,
    /// There are more than 16 parts.
    ManyParts,
    /// A part that is not the last ends in `.gpg`. Of a folder the last part too may not.
    FolderGpg,
}

/// Where a text stops being a name, in bytes from its start, and why.
#[derive(Clone, Copy, Debug, PartialEq, Eq)]
pub struct BadName {
    pub at: usize,
    pub kind: NameKind,
}

/// Why a text is not taken as a name.
#[derive(Clone, Copy, Debug, PartialEq, Eq)]
pub enum NameFault {
    Bad(BadName),
    NoMemory,
}

impl From<NoMemory> for NameFault {
    ghost from_gives = { λ _ e. e ≡ no_memory };

    fn from(_: NoMemory) -> Self {
        NameFault::NoMemory
    }
}

/// The name of a secret, which contracts see as the bytes of its text.
#[derive(Debug, Clone, Drop, PartialEq, Eq, PartialOrd, Ord)]
pub struct Name {
    text: Utf8,
}

impl Model for Name {
    ghost use Rattle.gopass_base.specs.Text.{Text};
    ghost use Rattle.mount_table.specs.Names.{IsName};

    ghost Value = { Text };

    ghost view = { λ name. name.text };

    ghost inverse = { λ text. record { text = text } };

    ghost invariant = { λ name. IsName name.text };
}

impl Name {
    /// The name that the text is: at most 400 bytes in 1 to 16 parts with `/` between them. Each
    /// part has 1 to 100 bytes, none of them a control byte, and no dot in front; none but the last
    /// ends in `.gpg`. A longer text is refused at its byte 400, and any other where the first part
    /// that fails begins.
    pub fn read(alloc: Global, text: &str) -> Result<Name, NameFault>
        ensures name { IfOk result (λ name. name ≡ text.now) }
        ensures good { IsOk result → IsName text.now }
        ensures bad { (bad : BadName) → result ≡ Err (NameFault.Bad bad) → ¬ IsName text.now }
        ensures fault { (bad : BadName) → result ≡ Err (NameFault.Bad bad) → IsNameFault text.now bad }
    {
        match fault_in(text, true) {
            Some(bad) => Err(NameFault::Bad(bad)),
            None => Ok(Name {
                text: Utf8::of(alloc, text)?,
            }),
        }
    }

    /// The bytes of the text.
    pub fn text(&self) -> &str
        ensures text { result.now ≡ self.now }
        ensures good { IsName self.now }
    {
        self.text.text()
    }

    /// The name without the parts of a folder that holds it.
    pub(crate) fn below(&self, alloc: Global, folder: &Folder) -> Result<Name, NoMemory>
        requires { Holds folder.now self.now }
        ensures { IfOk result (λ rest. rest ≡ drop (rest_start folder.now self.now) self.now) }
    {
        Ok(Name {
            text: Utf8::of(alloc, &self.text()[folder.start_below()..])?,
        })
    }

    /// The file of the secret whose name below the mount of the directory this is: the directory's
    /// text, `/`, the name and `.gpg`. Each directory and name have one, so only memory can be wanting.
    pub fn file_in(&self, alloc: Global, dir: &DirPath) -> Result<FilePath, NoMemory>
        ensures { IfOk result (λ path. path ≡ file_of dir.now self.now) }
    {
        let mut rest = String::from_str(alloc, self.text())?;
        rest.push_str(".gpg")?;
        dir.file_at(alloc, &rest)
    }

    /// Whether the other name lies in the folder that has the text of this one.
    pub fn holds(&self, other: &Name) -> bool
        ensures { IsTrue result ↔ Holds self.now other.now }
    {
        is_above(self.text().as_bytes(), other.text().as_bytes())
    }

    /// The same name once more.
    pub fn copy(&self, alloc: Global) -> Result<Name, NoMemory>
        ensures { IfOk result (λ copy. copy ≡ self.now) }
    {
        Ok(Name {
            text: Utf8::of(alloc, self.text())?,
        })
    }
}

/// Why the text is no name: that of a secret, or else of a folder, whose last part too may not end
/// in `.gpg`.
pub(crate) fn fault_in(text: &str, is_secret: bool) -> Option<BadName>
    ensures { MatchOption result ((length text.now ≤ 400) × AreGood is_secret (parts text.now)) (IsFault is_secret text.now) }
{
    if text.len() > 400 {
        return Some(BadName {
            at: 400,
            kind: NameKind::LongName,
        });
    }
    first_bad_part(text, is_secret)
}

/// The first part that fails.
fn first_bad_part(text: &str, is_secret: bool) -> Option<BadName>
    requires { length text.now ≤ 400 }
    ensures { MatchOption result (AreGood is_secret (parts text.now)) (IsFirstFault is_secret (parts text.now)) }
{
    let mut number = 0;
    let mut at = 0;
    for part in text.split('/') {
        let is_last = at + part.len() == text.len();
        if let Some(kind) = fault_of_part(number, is_folder(is_secret, is_last), part) {
            return Some(BadName { at, kind });
        }
        number += 1;
        at += part.len() + 1;
    }
    None
}

fn is_folder(is_secret: bool, is_last: bool) -> bool
    ensures { result ≡ not (is_secret && is_last) }
{
    !(is_secret && is_last)
}

/// What is wrong with the part of this number, counted from 0.
fn fault_of_part(number: usize, is_folder: bool, part: &str) -> Option<NameKind>
    ensures { MatchOption result (IsGood number is_folder part.now) (Fails number is_folder part.now) }
{
    if number >= 16 {
        Some(NameKind::ManyParts)
    } else if part.is_empty() {
        Some(NameKind::Empty)
    } else if is_hidden(part) {
        Some(NameKind::Dots)
    } else if !is_printable(part) {
        Some(NameKind::Control)
    } else if part.len() > 100 {
        Some(NameKind::LongPart)
    } else if is_folder && is_sealed_name(part) {
        Some(NameKind::FolderGpg)
    } else {
        None
    }
}
