//! What a command comes to.

ghost use Rattle.std.specs.Prelude.{◌≡◌, []};
ghost use Rattle.store_core.specs.Plans.{Refused, outcome_by};
ghost use Rattle.store_core.specs.declared.refusal.Refusal.TheVariants as refusal;
ghost use Rattle.gopass_cli.specs.Outcomes.{meant};

use gopass_base::Utf8;
use std::alloc::Global;
use store_core::Refusal;

/// What a command comes to.
#[derive(Debug, Drop)]
pub(crate) enum Outcome {
    /// It is done, and gives these bytes.
    Done(Vec<u8>),
    /// Nothing was found.
    NoHit,
    /// The word names nothing, from this byte on.
    Misnamed(Utf8, usize),
    Refused(Refusal),
}

/// What the call that gives bytes comes to.
pub(crate) fn of_bytes(answer: Result<Vec<u8>, Refusal>) -> Outcome
    ensures { meant result ≡ outcome_by (λ bytes. bytes.items) answer }
{
    match answer {
        Ok(bytes) => Outcome::Done(bytes),
        Err(refusal) => Outcome::Refused(refusal),
    }
}

/// What the call that gives nothing comes to.
pub(crate) fn of_nothing(alloc: Global, answer: Result<(), Refusal>) -> Outcome
    ensures { meant result ≡ outcome_by (λ done. []) answer }
{
    match answer {
        Ok(()) => Outcome::Done(Vec::new(alloc)),
        Err(refusal) => Outcome::Refused(refusal),
    }
}

/// There was no memory for it.
pub(crate) fn no_memory() -> Outcome
    ensures { meant result ≡ Refused refusal.NoMemory }
{
    Outcome::Refused(Refusal::NoMemory)
}
