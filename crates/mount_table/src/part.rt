//! How the parts of a text begin.

ghost use Rattle.std.specs.Prelude.{◌↔◌, IsTrue};
ghost use Rattle.gopass_base.specs.Parts.{parts};
ghost use Rattle.mount_table.specs.Prefixes.{IsPrefix, Nest};

use gopass_base::DirPath;

/// Whether one text's parts are how the other's begin.
pub(crate) fn is_prefix(outer: &[u8], inner: &[u8]) -> bool
    ensures { IsTrue result ↔ IsPrefix (parts outer.now) (parts inner.now) }
{
    match inner.strip_prefix(outer) {
        Some(rest) => rest.is_empty() || rest.starts_with(b"/"),
        None => false,
    }
}

/// Whether one of the two directories is the other or lies in it.
pub(crate) fn nest(one: &DirPath, other: &DirPath) -> bool
    ensures { IsTrue result ↔ Nest one.now other.now }
{
    let one = one.text().as_bytes();
    let other = other.text().as_bytes();
    is_prefix(one, other) || is_prefix(other, one)
}
