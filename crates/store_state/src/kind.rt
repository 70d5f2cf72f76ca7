//! What lies at a path of a mounted tree.

ghost use Rattle.std.specs.Prelude.{◌≡◌, ◌≢◌, ◌++◌, ◌<◌, ◌↔◌, ◌∷◌, [], length, IfOk, IsTrue, MatchOption, string_bytes, All};
ghost use Rattle.gopass_base.specs.Text.{Text};
ghost use Rattle.gopass_base.specs.Parts.{parts, IsHidden};
ghost use Rattle.mount_table.specs.Names.{IsName};
ghost use Rattle.mount_table.specs.Folders.{IsFolder};
ghost use Rattle.mount_table.specs.Mounts.{row_at, root_of, IsTable, IsMountOf, IsMountOfFolder};
ghost use Rattle.store_state.specs.Places.{HasHidden, IsFolderFileAt, IsKind, IsRuleOrTemplate, folder_under, in_folder, rule_file, template_file};

use crate::folder_file::in_folder;
use gopass_base::NoMemory;
use mount_table::{Folder, Mounts, Name, NameFault};
use std::alloc::{AllocError, Global};

/// What lies at a path below a mount.
#[derive(Debug, Drop)]
pub enum Kind {
    /// The file of a secret.
    Secret(Name),
    /// The file of recipients of a folder.
    Rule(Folder),
    /// The template of a folder.
    Template(Folder),
    /// A secret, a rule or a template whose name belongs to another mount.
    Shadowed,
    /// A part begins with a dot.
    Hidden,
    /// Something else.
    Strange,
}

/// The full name of a folder, by the rest of it below a mount.
fn full(alloc: Global, alias: &str, rest: &str) -> Result<String, AllocError>
    ensures { IfOk result (λ text. string_bytes text ≡ folder_under alias.now rest.now) }
{
    if rest.is_empty() {
        return String::from_str(alloc, alias);
    }
    in_folder(alloc, alias, rest)
}

/// The name of the secret that would lie at the stem below the mount, where it is a name.
fn name_at(alloc: Global, alias: &str, stem: &str) -> Result<Option<Name>, NoMemory>
    ensures { IfOk result (λ found. MatchOption found (¬ IsName (in_folder alias.now stem.now)) (λ name. (name ≡ in_folder alias.now stem.now) × IsName name)) }
{
    let text = in_folder(alloc, alias, stem)?;
    match Name::read(alloc, &text) {
        Ok(name) => Ok(Some(name)),
        Err(NameFault::Bad(_)) => Ok(None),
        Err(NameFault::NoMemory) => Err(NoMemory),
    }
}

/// The folder that would lie at the rest below the mount, where it is a folder.
fn folder_at(alloc: Global, alias: &str, below: &str) -> Result<Option<Folder>, NoMemory>
    ensures { IfOk result (λ found. MatchOption found (¬ IsFolder (folder_under alias.now below.now)) (λ folder. (folder ≡ folder_under alias.now below.now) × IsFolder folder)) }
{
    let text = full(alloc, alias, below)?;
    match Folder::of_text(alloc, &text) {
        Ok(folder) => Ok(Some(folder)),
        Err(NameFault::Bad(_)) => Ok(None),
        Err(NameFault::NoMemory) => Err(NoMemory),
    }
}

/// What stands before a slash at the end of the text, where it has a byte.
fn before_slash(text: &str) -> Option<&str>
    ensures { MatchOption result ((front : Text) → 0 < length front → text.now ≢ front ++ 47 ∷ [])
        (λ front. (0 < length front.now) × (text.now ≡ front.now ++ 47 ∷ [])) }
{
    match text.strip_suffix('/') {
        Some(front) => {
            if front.is_empty() {
                return None;
            }
            Some(front)
        }
        None => None,
    }
}

/// The rest of the folder whose file of this name lies at the rest.
fn folder_rest<'a>(rest: &'a str, file: &str) -> Option<&'a str>
    ensures { MatchOption result ((below : Text) → rest.now ≢ in_folder below file.now) (λ below. rest.now ≡ in_folder below.now file.now) }
{
    if rest == file {
        return Some("");
    }
    match rest.strip_suffix(file) {
        Some(front) => before_slash(front),
        None => None,
    }
}

/// Whether a part begins with a dot.
fn has_hidden_part(rest: &str) -> bool
    ensures { IsTrue result ↔ ¬ All (λ part. ¬ IsHidden part) (parts rest.now) }
{
    rest.split('/').any(|part| part.starts_with('.'))
}

/// Whether the secret belongs to the mount of this row.
fn is_mount_of(mounts: &Mounts, row: usize, name: &Name) -> bool
    requires { IsTable (root_of mounts.now) mounts.now }
    ensures { IsTrue result ↔ IsMountOf mounts.now name.now row }
{
    mounts.resolve(name).row == row
}

/// Whether the folder belongs to the mount of this row.
fn is_mount_of_folder(mounts: &Mounts, row: usize, folder: &Folder) -> bool
    requires { IsTable (root_of mounts.now) mounts.now }
    ensures { IsTrue result ↔ IsMountOfFolder mounts.now folder.now row }
{
    mounts.resolve_folder(folder) == row
}

/// What lies at a rest that has no part with a dot in front.
fn secret_kind(alloc: Global, mounts: &Mounts, row: usize, rest: &str) -> Result<Kind, NoMemory>
    requires inside { row < length mounts.now }
    requires plain { ¬ HasHidden rest.now }
    ensures { IfOk result (IsKind mounts.now row rest.now) }
{
    let rows = mounts.rows();
    match rest.strip_suffix(".gpg") {
        Some(stem) => match name_at(alloc, rows[row].alias.text(), stem)? {
            Some(name) => {
                if is_mount_of(mounts, row, &name) {
                    return Ok(Kind::Secret(name));
                }
                Ok(Kind::Shadowed)
            }
            None => Ok(Kind::Strange),
        },
        None => Ok(Kind::Strange),
    }
}

/// The folder whose file of this name would lie at the rest below the mount.
fn folder_with(
    alloc: Global,
    alias: &Folder,
    rest: &str,
    file: &str,
) -> Result<Option<Folder>, NoMemory>
    ensures { IfOk result (λ found. MatchOption found ((folder : Text) → ¬ IsFolderFileAt file.now alias.now rest.now folder)
        (λ folder. IsFolderFileAt file.now alias.now rest.now folder)) }
{
    match folder_rest(rest, file) {
        Some(below) => folder_at(alloc, alias.text(), below),
        None => Ok(None),
    }
}

/// The rule or the template that lies at the rest, where one does.
fn folder_kind(
    alloc: Global,
    mounts: &Mounts,
    row: usize,
    rest: &str,
) -> Result<Option<Kind>, NoMemory>
    requires { row < length mounts.now }
    ensures { IfOk result (λ found. MatchOption found ((folder : Text) → ¬ IsRuleOrTemplate (row_at mounts.now row).alias rest.now folder)
        (IsKind mounts.now row rest.now)) }
{
    let rows = mounts.rows();
    if let Some(folder) = folder_with(alloc, &rows[row].alias, rest, ".gpg-id")? {
        return Ok(Some(rule_kind(mounts, row, folder)));
    }
    match folder_with(alloc, &rows[row].alias, rest, ".pass-template")? {
        Some(folder) => Ok(Some(template_kind(mounts, row, folder))),
        None => Ok(None),
    }
}

fn rule_kind(mounts: &Mounts, row: usize, folder: Folder) -> Kind
    requires { IsTable (root_of mounts.now) mounts.now }
    ensures { (rest : Text) → IsFolderFileAt rule_file (row_at mounts.now row).alias rest folder → IsKind mounts.now row rest result }
{
    if is_mount_of_folder(mounts, row, &folder) {
        return Kind::Rule(folder);
    }
    Kind::Shadowed
}

fn template_kind(mounts: &Mounts, row: usize, folder: Folder) -> Kind
    requires { IsTable (root_of mounts.now) mounts.now }
    ensures { (rest : Text) → IsFolderFileAt template_file (row_at mounts.now row).alias rest folder → IsKind mounts.now row rest result }
{
    if is_mount_of_folder(mounts, row, &folder) {
        return Kind::Template(folder);
    }
    Kind::Shadowed
}

/// What lies at a rest below the mount of this row.
pub(crate) fn kind_of(
    alloc: Global,
    mounts: &Mounts,
    row: usize,
    rest: &str,
) -> Result<Kind, NoMemory>
    requires { row < length mounts.now }
    ensures { IfOk result (IsKind mounts.now row rest.now) }
{
    if let Some(kind) = folder_kind(alloc, mounts, row, rest)? {
        return Ok(kind);
    }
    if has_hidden_part(rest) {
        return Ok(Kind::Hidden);
    }
    secret_kind(alloc, mounts, row, rest)
}
