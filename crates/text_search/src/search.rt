//! Searches for a text in bytes and in names.

ghost use Rattle.std.specs.Prelude.{◌≡◌, IfOk};
ghost use Rattle.text_search.specs.Search.{has_text, names_with};

use gopass_base::NoMemory;
use memchr::memmem;
use mount_table::Name;
use std::alloc::Global;

/// Whether the text stands somewhere in the bytes. The empty text stands in all.
pub fn has_text(bytes: &[u8], text: &[u8]) -> bool
    ensures { result ≡ has_text text.now bytes.now }
{
    memmem::find(bytes, text).is_some()
}

/// Those of the names in whose bytes the text stands, in their order.
pub fn names_with(alloc: Global, names: &[Name], text: &str) -> Result<Vec<Name>, NoMemory>
    ensures { IfOk result (λ found. found.items ≡ names_with text.now names.now) }
{
    let mut found = Vec::new(alloc);
    for name in names {
        if has_text(name.text().as_bytes(), text.as_bytes()) {
            found.push(name.copy(alloc)?)?;
        }
    }
    Ok(found)
}
