//! The mounts, on lines.

ghost use Rattle.std.specs.Prelude.{◌≡◌, ◌∷◌, ◌++◌, [], IfOk, OnOk};
ghost use Rattle.listing_texts.specs.MountLines.{mount_line, mounts_listing};

use crate::lines::shown_folder;
use gopass_base::{NoMemory, push_line};
use mount_table::{Mounts, Row};
use std::alloc::Global;

/// A line for each mount, in their order: its alias, `/` for that of the root, a tab, its directory,
/// a tab, `git` or `plain`, and a line feed.
pub fn mounts_text(alloc: Global, mounts: &Mounts) -> Result<Vec<u8>, NoMemory>
    ensures { IfOk result (λ text. text.items ≡ mounts_listing mounts.now) }
{
    let mut text = Vec::new(alloc);
    for row in mounts.rows() {
        push_mount(&mut text, row)?;
    }
    Ok(text)
}

fn push_mount(text: &mut Vec<u8>, row: &Row) -> Result<(), NoMemory>
    ensures { OnOk result (text.new.items ≡ text.old.items ++ (mount_line row.now ++ 10 ∷ [])) }
{
    let flag = if row.git { "git" } else { "plain" };
    text.extend_from_slice(shown_folder(&row.alias).as_bytes())?;
    text.extend_from_slice(b"\t")?;
    text.extend_from_slice(row.dir.text().as_bytes())?;
    text.extend_from_slice(b"\t")?;
    push_line(text, flag.as_bytes())
}
