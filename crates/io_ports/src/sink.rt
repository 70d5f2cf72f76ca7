//! Where bytes go.

ghost use Rattle.std.specs.Prelude.{◌≤◌, ◌<◌, ◌+◌, length, IsErr, IfOk, OnOk, OnErr};
ghost use Rattle.gopass_base.specs.Faults.{HasCause};
ghost use Rattle.io_ports.specs.Sink.{SinkMeaning, Took, TookPart, Puts};

use gopass_base::Failed;

/// Where bytes go.
pub trait Sink {
    /// What the sink took, and how often a call failed.
    ghost meaning: { SinkMeaning Self };

    /// Takes a prefix of the bytes, at least one of them, and answers its length. A call that fails
    /// takes nothing.
    fn put(&mut self, bytes: &[u8]) -> Result<usize, Failed>
        requires { 0 < length bytes.now }
        ensures some { IfOk result (λ n. 1 ≤ n) }
        ensures bound { IfOk result (λ n. n ≤ length bytes.now) }
        ensures taken { Puts (meaning.held self.old) (meaning.held self.new) result bytes.now }
        ensures cause { HasCause (meaning.faults self.old) (meaning.faults self.new) (IsErr result) };
}

/// Puts all the bytes, at each call all that are left. Where a call of the sink fails it stops, and
/// the sink has taken a prefix, and not all.
#[tactic(auto, using(crate::proofs::SinkLemmas::took_more))]
pub fn put_all<O: Sink>(sink: &mut O, bytes: &[u8]) -> Result<(), Failed>
    ensures all { OnOk result (Took (O.meaning.held sink.old) (O.meaning.held sink.new) bytes.now) }
    ensures part { OnErr result (TookPart (O.meaning.held sink.old) (O.meaning.held sink.new) bytes.now) }
    ensures cause { HasCause (O.meaning.faults sink.old) (O.meaning.faults sink.new) (IsErr result) }
{
    let mut done = 0;
    while done < bytes.len() {
        done += sink.put(&bytes[done..])?;
    }
    Ok(())
}
