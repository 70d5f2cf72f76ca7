//! Paths of the disk.

ghost use Rattle.std.specs.Prelude.{◌≡◌, ◌↔◌, IsTrue, IsOk, IfOk, OnOk, All, Err, string_bytes};
ghost use Rattle.std.specs.Str.{is_utf8};
ghost use Rattle.gopass_base.specs.Parts.{parts, IsHidden, IsSealedName};
ghost use Rattle.gopass_base.specs.Paths.{IsPathPart, IsFilePath, IsDirPath, path_in, service_text};
ghost use Rattle.gopass_base.specs.declared.path.PathFault.TheVariants.{NoMemory as no_memory};

use crate::part::{is_hidden, is_sealed_name, part_count};
use crate::service::ServiceFile;
use crate::text::is_printable;
use crate::{NoMemory, Utf8};
use std::alloc::Global;
use std::marker::Model;

/// Why a text is not taken as a path.
#[derive(Clone, Copy, Debug, PartialEq, Eq)]
pub enum PathFault {
    Bad,
    NoMemory,
}

impl From<NoMemory> for PathFault {
    ghost from_gives = { λ _ e. e ≡ no_memory };

    fn from(_: NoMemory) -> Self {
        PathFault::NoMemory
    }
}

/// The path of a file, which contracts see as the bytes of its text.
#[derive(Debug, Clone, Drop, PartialEq, Eq, PartialOrd, Ord)]
pub struct FilePath {
    text: Utf8,
}

impl Model for FilePath {
    ghost use Rattle.gopass_base.specs.Text.{Text};
    ghost use Rattle.gopass_base.specs.Paths.{IsFilePath};

    ghost Value = { Text };

    ghost view = { λ path. path.text };

    ghost inverse = { λ text. record { text = text } };

    ghost invariant = { λ path. IsFilePath path.text };
}

impl FilePath {
    /// The path that the text is: 1 to 1,000 bytes in at most 32 parts with `/` between them. Each
    /// part has 1 to 255 bytes, none of them a control byte, and is neither `.` nor `..`.
    pub fn read(alloc: Global, text: &str) -> Result<FilePath, PathFault>
        ensures path { IfOk result (λ path. path ≡ text.now) }
        ensures good { IsOk result → IsFilePath text.now }
        ensures bad { result ≡ Err PathFault.Bad → ¬ IsFilePath text.now }
    {
        if !is_file_path(text) {
            return Err(PathFault::Bad);
        }
        Ok(FilePath {
            text: Utf8::of(alloc, text)?,
        })
    }

    /// The bytes of the text.
    pub fn text(&self) -> &str
        ensures text { result.now ≡ self.now }
        ensures good { IsFilePath self.now }
    {
        self.text.text()
    }

    /// The same path once more.
    pub fn copy(&self, alloc: Global) -> Result<FilePath, NoMemory>
        ensures { IfOk result (λ copy. copy ≡ self.now) }
    {
        Ok(FilePath {
            text: Utf8::of(alloc, self.text())?,
        })
    }
}

/// Both texts with a slash between them.
fn joined(alloc: Global, dir: &str, rest: &str) -> Result<String, NoMemory>
    ensures { IfOk result (λ text. string_bytes text ≡ path_in dir.now rest.now) }
{
    let mut text = String::from_str(alloc, dir)?;
    text.push('/')?;
    text.push_str(rest)?;
    Ok(text)
}

fn is_path_part(part: &str) -> bool
    ensures { IsTrue result ↔ IsPathPart part.now }
{
    !part.is_empty() && part.len() <= 255 && part != "." && part != ".." && is_printable(part)
}

fn has_path_parts(text: &str) -> bool
    ensures { IsTrue result ↔ All IsPathPart (parts text.now) }
{
    text.split('/').all(|part| is_path_part(part))
}

fn is_file_path(text: &str) -> bool
    ensures { IsTrue result ↔ IsFilePath text.now }
{
    text.len() <= 1000 && part_count(text) <= 32 && has_path_parts(text)
}

/// The path of a directory, which contracts see as the bytes of its text.
#[derive(Debug, Clone, Drop, PartialEq, Eq, PartialOrd, Ord)]
pub struct DirPath {
    text: Utf8,
}

impl Model for DirPath {
    ghost use Rattle.gopass_base.specs.Text.{Text};
    ghost use Rattle.gopass_base.specs.Paths.{IsDirPath};

    ghost Value = { Text };

    ghost view = { λ dir. dir.text };

    ghost inverse = { λ text. record { text = text } };

    ghost invariant = { λ dir. IsDirPath dir.text };
}

impl DirPath {
    /// The directory that the text is: the path of a file with at most 500 bytes and 12 parts, none
    /// of which begins with a dot or ends in `.gpg`.
    pub fn read(alloc: Global, text: &str) -> Result<DirPath, PathFault>
        ensures dir { IfOk result (λ dir. dir ≡ text.now) }
        ensures good { IsOk result → IsDirPath text.now }
        ensures bad { result ≡ Err PathFault.Bad → ¬ IsDirPath text.now }
    {
        if !is_dir_path(text) {
            return Err(PathFault::Bad);
        }
        Ok(DirPath {
            text: Utf8::of(alloc, text)?,
        })
    }

    /// The bytes of the text.
    pub fn text(&self) -> &str
        ensures text { result.now ≡ self.now }
        ensures good { IsDirPath self.now }
    {
        self.text.text()
    }

    /// The same directory once more.
    pub fn copy(&self, alloc: Global) -> Result<DirPath, NoMemory>
        ensures copy { IfOk result (λ copy. copy ≡ self.now) }
        ensures good { OnOk result (IsTrue (is_utf8 self.now) × IsDirPath self.now) }
    {
        Ok(DirPath {
            text: Utf8::of(alloc, self.text())?,
        })
    }

    /// The path of what lies in the directory: its text, `/` and the rest, read as a file's path.
    pub fn join(&self, alloc: Global, rest: &str) -> Result<FilePath, PathFault>
        ensures path { IfOk result (λ path. path ≡ path_in self.now rest.now) }
        ensures good { IsOk result → IsFilePath (path_in self.now rest.now) }
        ensures bad { result ≡ Err PathFault.Bad → ¬ IsFilePath (path_in self.now rest.now) }
        ensures dir { IsDirPath self.now }
    {
        let text = joined(alloc, self.text(), rest)?;
        FilePath::read(alloc, &text)
    }

    /// The path of a file that the store keeps for itself in the directory: the directory's text,
    /// `/` and the file's name. Only memory can be wanting.
    pub fn service_file(&self, alloc: Global, file: ServiceFile) -> Result<FilePath, NoMemory>
        ensures { IfOk result (λ path. path ≡ path_in self.now (service_text file)) }
    {
        self.file_at(alloc, file.text())
    }

    /// The path of what lies in the directory, where it is known to be the path of a file. So only
    /// memory can be wanting.
    pub fn file_at(&self, alloc: Global, rest: &str) -> Result<FilePath, NoMemory>
        requires { IsDirPath self.now → IsFilePath (path_in self.now rest.now) }
        ensures { IfOk result (λ path. path ≡ path_in self.now rest.now) }
    {
        match self.join(alloc, rest) {
            Ok(path) => Ok(path),
            Err(PathFault::NoMemory) => Err(NoMemory),
            Err(PathFault::Bad) => unreachable!(),
        }
    }
}

fn has_no_hidden_part(text: &str) -> bool
    ensures { IsTrue result ↔ All (λ part. ¬ IsHidden part) (parts text.now) }
{
    !text.split('/').any(|part| is_hidden(part))
}

fn has_no_sealed_part(text: &str) -> bool
    ensures { IsTrue result ↔ All (λ part. ¬ IsSealedName part) (parts text.now) }
{
    !text.split('/').any(|part| is_sealed_name(part))
}

fn is_dir_path(text: &str) -> bool
    ensures { IsTrue result ↔ IsDirPath text.now }
{
    is_file_path(text)
        && text.len() <= 500
        && part_count(text) <= 12
        && has_no_hidden_part(text)
        && has_no_sealed_part(text)
}
