//! Standard input as a source, standard output and standard error as sinks.

ghost use Rattle.std.specs.Prelude.{◌≡◌, ◌≤◌, ◌+◌, length, Ok, IsErr, IfOk, None};
ghost use Rattle.std.specs.Io.KnownBytes.{ReadConsumes, WriteAppends};
ghost use Rattle.gopass_base.specs.Faults.{HasCause};
ghost use Rattle.io_ports.specs.Source.{GrewOnce, TakesCount};

use io_ports::{Failed, Sink, Source};
use std::io::{Read, Write};

/// A writer with a count of its faults. It tells nothing of what it took.
#[derive(Drop)]
pub(crate) struct StdSink<W> {
    inner: W,
    faults: u64,
}

impl<W: Write> StdSink<W> {
    pub(crate) fn new(inner: W) -> StdSink<W>
        ensures inner { result.inner ≡ inner }
        ensures faults { result.faults ≡ 0 }
    {
        StdSink { inner, faults: 0 }
    }
}

impl<W: Write> Sink for StdSink<W> {
    ghost meaning = { record { held = λ _. None; faults = λ sink. sink.faults } };

    // By what the writer holds, where that is known: it took the bytes that are told, and none at a fault.
    fn put(&mut self, bytes: &[u8]) -> Result<usize, Failed>
        ensures some { IfOk result (λ n. 1 ≤ n) }
        ensures bound { IfOk result (λ n. n ≤ length bytes.now) }
        ensures cause { HasCause self.old.faults self.new.faults (IsErr result) }
        ensures writes { WriteAppends (W.contents self.old.inner) (W.contents self.new.inner) result bytes.now }
    {
        match self.inner.write(bytes) {
            Ok(count) if count > 0 => Ok(count),
            _ => {
                self.faults = self.faults.saturating_add(1);
                Err(Failed)
            }
        }
    }
}

/// A reader with counts: of the bytes that were taken, of the calls that found its end, and of those
/// that failed. It tells nothing of what it has left.
#[derive(Drop)]
pub(crate) struct StdSource<R> {
    inner: R,
    taken: u64,
    ends: u64,
    failed: u64,
}

impl<R: Read> StdSource<R> {
    pub(crate) fn new(inner: R) -> StdSource<R>
        ensures inner { result.inner ≡ inner }
        ensures taken { result.taken ≡ 0 }
        ensures ends { result.ends ≡ 0 }
        ensures faults { result.failed ≡ 0 }
    {
        StdSource {
            inner,
            taken: 0,
            ends: 0,
            failed: 0,
        }
    }
}

impl<R: Read> Source for StdSource<R> {
    ghost meaning = { record { left = λ _. None; taken = λ source. source.taken; ends = λ source. source.ends; faults = λ source. source.failed } };

    // By what the reader has left, where that is known: the bytes that are told came, none of them at its
    // end alone, and none at a fault.
    fn take(&mut self, into: &mut [u8]) -> Result<usize, Failed>
        ensures bound { IfOk result (λ n. n ≤ length into.old) }
        ensures counts { TakesCount self.old.taken self.new.taken result }
        ensures ends { GrewOnce self.old.ends self.new.ends (result ≡ Ok 0) }
        ensures cause { HasCause self.old.failed self.new.failed (IsErr result) }
        ensures reads { ReadConsumes (R.remaining self.old.inner) (R.remaining self.new.inner) result into.new }
    {
        if let Ok(count) = self.inner.read(into) {
            self.taken = self.taken.saturating_add(count as u64);
            if count == 0 {
                self.ends = self.ends.saturating_add(1);
            }
            return Ok(count);
        }
        self.failed = self.failed.saturating_add(1);
        Err(Failed)
    }
}
