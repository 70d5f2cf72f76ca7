//! Bytes of which a first part was taken.

ghost use Rattle.std.specs.Prelude.{◌≡◌, ◌<◌, ◌++◌, length, take, drop, min};
ghost use Rattle.io_ports.specs.Source.{after_take, untaken};

use std::marker::Model;

/// What is left of some bytes, how many were taken, and how often their end came.
#[derive(Drop)]
pub(crate) struct Rest {
    bytes: Vec<u8>,
    at: usize,
    ends: u64,
}

impl Model for Rest {
    ghost use Rattle.std.specs.Prelude.{◌≤◌, drop, vec_len};
    ghost use Rattle.io_ports.specs.Source.{InMemory};

    ghost Value = { InMemory };

    ghost view = { λ r. record { left = drop r.at r.bytes.items; taken = r.at; ends = r.ends } };

    ghost invariant = { λ r. r.at ≤ vec_len r.bytes };
}

impl Rest {
    /// All of the bytes.
    pub(crate) fn new(bytes: Vec<u8>) -> Rest
        ensures { result ≡ untaken bytes.items }
    {
        Rest {
            bytes,
            at: 0,
            ends: 0,
        }
    }

    /// Puts the next bytes at the start of the buffer, as many as it has room for, and answers their
    /// number.
    pub(crate) fn take(&mut self, into: &mut [u8]) -> usize
        requires { 0 < length into.old }
        ensures count { result ≡ min (length self.old.left) (length into.old) }
        ensures next { self.new ≡ after_take (length into.old) self.old }
        ensures filled { into.new ≡ take result self.old.left ++ drop result into.old }
    {
        let count = into.len().min(self.bytes.len() - self.at);
        into[..count].copy_from_slice(&self.bytes[self.at..self.at + count]);
        self.at += count;
        if count == 0 {
            self.ends = self.ends.saturating_add(1);
        }
        count
    }

    pub(crate) fn left(&self) -> &[u8]
        ensures { result.now ≡ self.now.left }
    {
        &self.bytes[self.at..]
    }
}
