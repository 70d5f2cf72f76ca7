//! A text that contracts see as its bytes.

ghost use Rattle.std.specs.Prelude.{◌==◌, ◌≡◌, [], IfOk};
ghost use Rattle.std.specs.Ordering.{nat_cmp, as_partial_cmp};
ghost use Rattle.std.specs.Cmp.{partial_order_from_own_ties};
ghost use Rattle.std.specs.Cmp.Lexicographic.{pointwise, slice_cmp};
ghost use Rattle.std.specs.Cmp.Rules.{comparing};
ghost use Rattle.std.proofs.Common.{rules};

use crate::NoMemory;
use std::alloc::{AllocError, Global};
use std::cmp::Ordering;
use std::marker::Model;

/// A text, which contracts see as its bytes. Texts are equal and ordered by these.
#[derive(Debug, Drop)]
pub struct Utf8 {
    text: String,
}

impl Model for Utf8 {
    ghost use Rattle.std.specs.Prelude.{string_bytes};
    ghost use Rattle.gopass_base.specs.Text.{Text};

    ghost Value = { Text };

    ghost view = { λ utf8. string_bytes utf8.text };
}

impl Utf8 {
    /// The text once more.
    pub fn of(alloc: Global, text: &str) -> Result<Utf8, NoMemory>
        ensures { IfOk result (λ utf8. utf8 ≡ text.now) }
    {
        Ok(Utf8 {
            text: String::from_str(alloc, text)?,
        })
    }

    /// The empty text, which takes no memory.
    pub fn empty(alloc: Global) -> Utf8
        ensures { result ≡ [] }
    {
        Utf8 {
            text: String::new(alloc),
        }
    }

    /// The bytes of the text.
    pub fn text(&self) -> &str
        ensures { result.now ≡ self.now }
    {
        &self.text
    }
}

impl Clone for Utf8 {
    ghost is_clone = { λ text clone. clone ≡ text };

    fn clone(&self) -> Result<Utf8, AllocError> {
        Ok(Utf8 {
            text: self.text.clone()?,
        })
    }
}

impl PartialEq for Utf8 {
    ghost eq = { pointwise ◌==◌ };

    ghost laws = { Prim.search (comparing, rules) };

    fn eq(&self, other: &Utf8) -> bool {
        self.text() == other.text()
    }
}

impl Eq for Utf8 {
    ghost laws = { Prim.search (comparing, rules) };
}

/// By the bytes.
impl Ord for Utf8 {
    ghost cmp = { slice_cmp nat_cmp };

    ghost total = { Prim.search (comparing, rules) };

    ghost matches_partial_cmp = { Prim.search (comparing, rules) };

    ghost matches_eq = { Prim.search (comparing, rules) };

    fn cmp(&self, other: &Utf8) -> Ordering {
        self.text().cmp(other.text())
    }
}

impl PartialOrd for Utf8 {
    ghost partial_cmp = { as_partial_cmp (slice_cmp nat_cmp) };

    ghost laws = { partial_order_from_own_ties (Prim.search (comparing, rules)) (Prim.search (comparing, rules)) };

    fn partial_cmp(&self, other: &Utf8) -> Option<Ordering> {
        Some(self.cmp(other))
    }
}
