//! Where bytes come from.

ghost use Rattle.std.specs.Prelude.{◌≡◌, ◌≤◌, ◌<◌, ◌+◌, length, Ok, IsErr, IfOk};
ghost use Rattle.gopass_base.specs.Faults.{HasCause};
ghost use Rattle.io_ports.specs.Source.{SourceMeaning, Takes, TakesCount, GrewOnce};

use gopass_base::Failed;

/// Where bytes come from.
pub trait Source {
    /// What the source has left, and its counts: of the bytes that were taken, of the calls that found
    /// its end, and of those that failed.
    ghost meaning: { SourceMeaning Self };

    /// Puts the next bytes at the start of the buffer, at least one where one is left, and answers
    /// their number, which is 0 at the end alone. A call that fails takes nothing.
    fn take(&mut self, into: &mut [u8]) -> Result<usize, Failed>
        requires { 0 < length into.old }
        ensures bound { IfOk result (λ n. n ≤ length into.old) }
        ensures taken { Takes (meaning.left self.old) (meaning.left self.new) result into.new }
        ensures counts { TakesCount (meaning.taken self.old) (meaning.taken self.new) result }
        ensures ends { GrewOnce (meaning.ends self.old) (meaning.ends self.new) (result ≡ Ok 0) }
        ensures cause { HasCause (meaning.faults self.old) (meaning.faults self.new) (IsErr result) };
}
