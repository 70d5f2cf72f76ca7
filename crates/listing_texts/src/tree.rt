//! The tree of the secrets in a folder.

ghost use Rattle.std.specs.Prelude.{◌≡◌, ◌≢◌, ◌∷◌, ◌++◌, [], List, All, IfOk, OnOk, MatchOption, codes};
ghost use Rattle.std.specs.List.{repeat};
ghost use Rattle.gopass_base.specs.Text.{Text};
ghost use Rattle.gopass_base.specs.Parts.{parts};
ghost use Rattle.mount_table.specs.Names.{folders};
ghost use Rattle.mount_table.specs.Prefixes.{Holds};
ghost use Rattle.listing_texts.specs.Tree.{below, tree_line, folder_line, secret_lines, tree_of};

use gopass_base::{NoMemory, push_line};
use mount_table::{Folder, Name};
use std::alloc::Global;

/// The tree of these secrets of the folder. Each secret prints its last part on a line, and before
/// it a line for each of its folders below this one that the line before was not inside. A line
/// begins with two spaces for each folder above it, that of a folder ends in `/`, and each has a line
/// feed behind it.
pub fn tree_of(alloc: Global, folder: &Folder, names: &[Name]) -> Result<Vec<u8>, NoMemory>
    requires { All (Holds folder.now) names.now }
    ensures { IfOk result (λ text. text.items ≡ tree_of folder.now names.now) }
{
    let mut text = Vec::new(alloc);
    let mut before = "";
    for name in names {
        let rest = rest_below(folder, name);
        push_secret(&mut text, before, rest)?;
        before = rest;
    }
    Ok(text)
}

/// The name without the parts of a folder that holds it.
fn rest_below<'a>(folder: &Folder, name: &'a Name) -> &'a str
    requires { Holds folder.now name.now }
    ensures { parts result.now ≡ below folder.now name.now }
{
    &name.text()[folder.start_below()..]
}

/// Appends the lines of a secret, by the rest of its name, where `before` is that of the secret on the
/// line before.
fn push_secret(text: &mut Vec<u8>, before: &str, rest: &str) -> Result<(), NoMemory>
    ensures { OnOk result (text.new.items ≡ text.old.items ++ secret_lines (folders (parts before.now)) (parts rest.now)) }
{
    let mut inside = before;
    let mut left = rest;
    let mut depth = 0;
    while let Some((folder, below)) = first_folder(left) {
        match behind_folder(inside, folder) {
            Some(after) => inside = after,
            None => {
                push_folder(text, depth, folder)?;
                inside = "";
            }
        }
        depth += 1;
        left = below;
    }
    push_last(text, depth, left)
}

/// The first folder of a text of parts, and what stands behind it.
fn first_folder(text: &str) -> Option<(&str, &str)>
    ensures { MatchOption result (parts text.now ≡ text.now ∷ []) (λ x. parts text.now ≡ x.0.now ∷ parts x.1.now) }
{
    text.split_once('/')
}

/// What stands behind the folder in a text of parts whose first folder it is.
fn behind_folder<'a>(text: &'a str, folder: &str) -> Option<&'a str>
    ensures { MatchOption result ((more : List Text) → folders (parts text.now) ≢ folder.now ∷ more) (λ after. folders (parts text.now) ≡ folder.now ∷ folders (parts after.now)) }
{
    match first_folder(text) {
        Some((first, after)) if first == folder => Some(after),
        _ => None,
    }
}

fn push_folder(text: &mut Vec<u8>, depth: usize, folder: &str) -> Result<(), NoMemory>
    ensures { OnOk result (text.new.items ≡ text.old.items ++ folder_line depth folder.now) }
{
    indent(text, depth)?;
    text.extend_from_slice(folder.as_bytes())?;
    push_line(text, b"/")
}

fn push_last(text: &mut Vec<u8>, depth: usize, part: &str) -> Result<(), NoMemory>
    ensures { OnOk result (text.new.items ≡ text.old.items ++ tree_line depth part.now) }
{
    indent(text, depth)?;
    push_line(text, part.as_bytes())
}

/// Appends two spaces for each folder above.
fn indent(text: &mut Vec<u8>, depth: usize) -> Result<(), NoMemory>
    ensures { OnOk result (text.new.items ≡ text.old.items ++ repeat depth (codes "  ")) }
{
    for above in 0..depth {
        text.extend_from_slice(b"  ")?;
    }
    Ok(())
}
