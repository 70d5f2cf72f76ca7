//! The id of a recipient.

ghost use Rattle.std.specs.Prelude.{◌≡◌, ◌≢◌, ◌↔◌, ◌-◌, ◌≤◌, length, slice_index, IsTrue, IsOk, IfOk, Err, All};
ghost use Rattle.recipient_files.specs.Ids.{IsId, CanBegin};
ghost use Rattle.recipient_files.specs.declared.id.IdFault.TheVariants.{NoMemory};

use gopass_base::{NoMemory as NoRoom, Utf8, is_printable};
use std::alloc::Global;
use std::marker::Model;

/// Why a text is not taken as an id.
#[derive(Clone, Copy, Debug, PartialEq, Eq)]
pub enum IdFault {
    Bad,
    NoMemory,
}

impl From<NoRoom> for IdFault {
    ghost from_gives = { λ _ e. e ≡ NoMemory };

    fn from(_: NoRoom) -> Self {
        IdFault::NoMemory
    }
}

/// The id of a recipient, which contracts see as the bytes of its text.
#[derive(Debug, Clone, Drop, PartialEq, Eq, PartialOrd, Ord)]
pub struct Id {
    text: Utf8,
}

impl Model for Id {
    ghost use Rattle.gopass_base.specs.Text.{Text};
    ghost use Rattle.recipient_files.specs.Ids.{IsId};

    ghost Value = { Text };

    ghost view = { λ id. id.text };

    ghost inverse = { λ text. record { text = text } };

    ghost invariant = { λ id. IsId id.text };
}

impl Id {
    /// The id that the text is: 1 to 200 bytes, none of them a control byte, DEL or `#`, no space
    /// at either end, and no `-` or `@` in front.
    pub fn read(alloc: Global, text: &str) -> Result<Id, IdFault>
        ensures id { IfOk result (λ id. id ≡ text.now) }
        ensures good { IsOk result → IsId text.now }
        ensures bad { result ≡ Err IdFault.Bad → ¬ IsId text.now }
    {
        if !is_id(text) {
            return Err(IdFault::Bad);
        }
        Ok(Id {
            text: Utf8::of(alloc, text)?,
        })
    }

    /// The bytes of the text.
    pub fn text(&self) -> &str
        ensures text { result.now ≡ self.now }
        ensures good { IsId self.now }
    {
        self.text.text()
    }

    /// An equal id of its own.
    pub fn copy(&self, alloc: Global) -> Result<Id, NoRoom>
        ensures same { IfOk result (λ id. id ≡ self.now) }
        ensures good { IfOk result IsId }
    {
        Ok(Id {
            text: Utf8::of(alloc, self.text())?,
        })
    }
}

fn is_id(text: &str) -> bool
    ensures { IsTrue result ↔ IsId text.now }
{
    has_id_length(text)
        && is_printable(text)
        && has_no_hash(text)
        && can_begin(text)
        && can_end(text)
}

fn has_id_length(text: &str) -> bool
    ensures { IsTrue result ↔ (1 ≤ length text.now) × (length text.now ≤ 200) }
{
    !text.is_empty() && text.len() <= 200
}

fn has_no_hash(text: &str) -> bool
    ensures { IsTrue result ↔ All (λ b. b ≢ 35) text.now }
{
    text.as_bytes().iter().all(|b| *b != b'#')
}

fn can_begin(text: &str) -> bool
    ensures { IsTrue result ↔ CanBegin (slice_index text.now 0) }
{
    !text.starts_with(' ') && !text.starts_with('-') && !text.starts_with('@')
}

fn can_end(text: &str) -> bool
    ensures { IsTrue result ↔ slice_index text.now (length text.now - 1) ≢ 32 }
{
    !text.ends_with(' ')
}

#[cfg(test)]
mod tests {
    use super::*;
    use std::test::Fail;

    #[test]
    fn ids_are_read(rt: HostRuntime) -> Result<(), Fail> {
        let longest = "i".repeat(rt.alloc(), 200)?;
        for text in ["alice", "a b", "Zoë <zoe@example.org>", longest.as_str()] {
            let id = Id::read(rt.alloc(), text)?;
            assert_eq!(rt; id.text(), text);
        }
        Ok(())
    }

    #[test]
    fn texts_that_are_no_ids_are_refused(rt: HostRuntime) -> Result<(), Fail> {
        let too_long = "i".repeat(rt.alloc(), 201)?;
        for text in [
            "",
            "-a",
            "@a",
            " a",
            "a ",
            "a#b",
            "a\nb",
            "a\x7fb",
            too_long.as_str(),
        ] {
            let id = Id::read(rt.alloc(), text);
            assert_eq!(rt; id, Err(IdFault::Bad), "at {text:?}");
        }
        Ok(())
    }
}
