//! What a cipher tool does.

ghost use Rattle.std.specs.Prelude.{◌≡◌, ℕ, length, ◌<◌, ◌≤◌, IfOk, Err, vec_len};
ghost use Rattle.gopass_base.specs.Text.{Text};
ghost use Rattle.gopass_base.specs.Faults.{HasCause, counted};
ghost use Rattle.cipher_port.specs.Limits.{most_body, most_sealed};
ghost use Rattle.cipher_port.specs.Tool.{ToolMeaning, Seals, Unseals, TellsIds, IsSealing, made_of};

use crate::Recipients;
use gopass_base::{Failed, NoMemory};
use std::alloc::Global;

/// Why a tool does not seal a body.
#[derive(Clone, Copy, Debug, PartialEq, Eq)]
pub enum SealFault {
    /// The first id that the tool cannot seal for, by its place in the set, counted from 0.
    UnknownId(usize),
    /// The tool failed.
    Failed,
    NoMemory,
}

impl From<Failed> for SealFault {
    ghost use Rattle.std.specs.Prelude.{◌≡◌};
    ghost use Rattle.cipher_port.specs.declared.cipher.SealFault.TheVariants.{Failed as failed};

    ghost from_gives = { λ _ e. e ≡ failed };

    fn from(_: Failed) -> Self {
        SealFault::Failed
    }
}

impl From<NoMemory> for SealFault {
    ghost use Rattle.std.specs.Prelude.{◌≡◌};
    ghost use Rattle.cipher_port.specs.declared.cipher.SealFault.TheVariants.{NoMemory as no_room};

    ghost from_gives = { λ _ e. e ≡ no_room };

    fn from(_: NoMemory) -> Self {
        SealFault::NoMemory
    }
}

/// Why a tool does not tell for whom bytes are sealed.
#[derive(Clone, Copy, Debug, PartialEq, Eq)]
pub enum WhomFault {
    /// The bytes are not sealed.
    NotSealed,
    /// The tool failed.
    Failed,
    NoMemory,
}

impl From<Failed> for WhomFault {
    ghost use Rattle.std.specs.Prelude.{◌≡◌};
    ghost use Rattle.cipher_port.specs.declared.cipher.WhomFault.TheVariants.{Failed as failed};

    ghost from_gives = { λ _ e. e ≡ failed };

    fn from(_: Failed) -> Self {
        WhomFault::Failed
    }
}

/// Why a tool does not open bytes.
#[derive(Clone, Copy, Debug, PartialEq, Eq)]
pub enum UnsealFault {
    /// No key of a recipient is held.
    NoKey,
    /// The bytes are not sealed.
    NotSealed,
    /// The tool failed.
    Failed,
    NoMemory,
}

impl From<Failed> for UnsealFault {
    ghost use Rattle.std.specs.Prelude.{◌≡◌};
    ghost use Rattle.cipher_port.specs.declared.cipher.UnsealFault.TheVariants.{Failed as failed};

    ghost from_gives = { λ _ e. e ≡ failed };

    fn from(_: Failed) -> Self {
        UnsealFault::Failed
    }
}

/// A tool that seals bodies for the ids that it knows, and opens sealed bytes with the keys that it
/// holds. Its count of calls rises by one with each call, and stands at its last value.
pub trait Cipher {
    /// What the tool means. The clauses on content hold where it tells what it does.
    ghost meaning: { ToolMeaning Self };

    /// At most 131,072 bytes that open to just these ids and this body, which has at most 32,768
    /// bytes.
    fn seal(&mut self, alloc: Global, to: &Recipients, body: &[u8]) -> Result<Vec<u8>, SealFault>
        requires { length body.now ≤ most_body }
        ensures sealed { meaning.tells → Seals meaning.opens (meaning.ring self.old) (made_of to.now body.now) result }
        ensures bound { IfOk result (λ sealed. vec_len sealed ≤ most_sealed) }
        ensures place { (place : ℕ) → result ≡ Err (SealFault.UnknownId place) → place < length to.now }
        ensures ring { meaning.ring self.new ≡ meaning.ring self.old }
        ensures calls { meaning.calls self.new ≡ counted (meaning.calls self.old) }
        ensures cause { HasCause (meaning.faults self.old) (meaning.faults self.new) (result ≡ Err SealFault.Failed) };

    /// The body of the sealed bytes, at most 32,768 bytes.
    fn open(&mut self, alloc: Global, sealed: &[u8]) -> Result<Vec<u8>, UnsealFault>
        ensures opened { meaning.tells → Unseals (meaning.opens sealed.now) (meaning.ring self.old) result }
        ensures bound { IfOk result (λ body. vec_len body ≤ most_body) }
        ensures ring { meaning.ring self.new ≡ meaning.ring self.old }
        ensures calls { meaning.calls self.new ≡ counted (meaning.calls self.old) }
        ensures cause { HasCause (meaning.faults self.old) (meaning.faults self.new) (result ≡ Err UnsealFault.Failed) };

    /// For whom the bytes are sealed.
    fn whom(&mut self, alloc: Global, sealed: &[u8]) -> Result<Recipients, WhomFault>
        ensures names { meaning.tells → TellsIds (meaning.opens sealed.now) result }
        ensures ring { meaning.ring self.new ≡ meaning.ring self.old }
        ensures calls { meaning.calls self.new ≡ counted (meaning.calls self.old) }
        ensures cause { HasCause (meaning.faults self.old) (meaning.faults self.new) (result ≡ Err WhomFault.Failed) };

    /// What bytes open to keeps its limits.
    ghost limits: { (bytes : Text) → meaning.tells → IsSealing bytes (meaning.opens bytes) };
}
