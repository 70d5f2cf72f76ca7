//! Names on lines of their own, and the text of a folder.

ghost use Rattle.std.specs.Prelude.{◌≡◌, [], IfOk};
ghost use Rattle.listing_texts.specs.Lines.{on_lines, shown_folder};

use gopass_base::{NoMemory, push_line};
use mount_table::{Folder, Name};
use std::alloc::Global;

/// The names in their order, each with a line feed behind it.
pub fn on_lines(alloc: Global, names: &[Name]) -> Result<Vec<u8>, NoMemory>
    ensures { IfOk result (λ text. text.items ≡ on_lines names.now) }
{
    let mut text = Vec::new(alloc);
    for name in names {
        push_line(&mut text, name.text().as_bytes())?;
    }
    Ok(text)
}

/// The folder's text, or `/` for the root folder.
pub(crate) fn shown_folder(folder: &Folder) -> &str
    ensures { result.now ≡ shown_folder folder.now }
{
    let text = folder.text();
    if text.is_empty() { "/" } else { text }
}
