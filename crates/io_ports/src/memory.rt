//! Sinks in memory.

ghost use Rattle.std.specs.Prelude.{◌≡◌, ◌↔◌, ◌≤◌, ◌<◌, ◌+◌, length, is_ok, IsOk, IsErr, IfOk, Contains, if◌then◌else◌};
ghost use Rattle.gopass_base.specs.Faults.{HasCause};
ghost use Rattle.gopass_base.specs.Calls.{no_calls, next_calls};
ghost use Rattle.io_ports.specs.Sink.{Puts};
ghost use Rattle.io_ports.specs.Kept.{kept_with, empty_kept, held_of};

use crate::Sink;
use crate::room::Room;
use gopass_base::{CallLog, Failed, NoMemory};
use std::alloc::Global;
use std::marker::Model;

/// A sink in memory that never fails.
#[derive(Drop)]
pub struct SureSink {
    room: Room,
}

impl Model for SureSink {
    ghost use Rattle.io_ports.specs.Kept.{Kept};

    ghost Value = { Kept };

    ghost view = { λ sink. sink.room };
}

impl SureSink {
    /// A sink with the memory for this many bytes.
    pub fn new(alloc: Global, room: usize) -> Result<SureSink, NoMemory>
        ensures { IfOk result (λ sink. sink ≡ empty_kept room) }
    {
        Ok(SureSink {
            room: Room::new(alloc, room)?,
        })
    }

    /// The bytes that were kept.
    pub fn taken(&self) -> &[u8]
        ensures { result.now ≡ self.now.bytes }
    {
        self.room.bytes()
    }
}

impl Sink for SureSink {
    ghost meaning = { record { held = held_of; faults = λ _. 0 } };

    fn put(&mut self, bytes: &[u8]) -> Result<usize, Failed>
        requires { 0 < length bytes.now }
        ensures sure { IsOk result }
        ensures whole { IfOk result (λ n. n ≡ length bytes.now) }
        ensures kept { self.new ≡ kept_with self.old bytes.now }
        ensures some { IfOk result (λ n. 1 ≤ n) }
        ensures bound { IfOk result (λ n. n ≤ length bytes.now) }
        ensures taken { Puts (held_of self.old) (held_of self.new) result bytes.now }
        ensures cause { HasCause 0 0 (IsErr result) }
    {
        self.room.keep(bytes);
        Ok(bytes.len())
    }
}

/// A sink in memory whose calls with the given numbers, counted from 0, fail.
#[derive(Drop)]
pub struct MemSink {
    room: Room,
    calls: CallLog,
}

impl Model for MemSink {
    ghost use Rattle.io_ports.specs.Kept.{FailingSink};

    ghost Value = { FailingSink };

    ghost view = { λ sink. record { kept = sink.room; calls = sink.calls } };
}

impl MemSink {
    /// A sink with the memory for this many bytes.
    pub fn new(alloc: Global, room: usize, failing: Vec<u64>) -> Result<MemSink, NoMemory>
        ensures { IfOk result (λ sink. sink ≡ record { kept = empty_kept room; calls = no_calls failing.items }) }
    {
        Ok(MemSink {
            room: Room::new(alloc, room)?,
            calls: CallLog::new(failing),
        })
    }

    /// The bytes that were kept.
    pub fn taken(&self) -> &[u8]
        ensures { result.now ≡ self.now.kept.bytes }
    {
        self.room.bytes()
    }
}

impl Sink for MemSink {
    ghost meaning = { record { held = λ sink. held_of sink.kept; faults = λ sink. sink.calls.faults } };

    fn put(&mut self, bytes: &[u8]) -> Result<usize, Failed>
        requires { 0 < length bytes.now }
        ensures fails { IsErr result ↔ Contains self.old.calls.failing self.old.calls.made }
        ensures calls { self.new.calls ≡ next_calls self.old.calls }
        ensures whole { IfOk result (λ n. n ≡ length bytes.now) }
        ensures kept { self.new.kept ≡ (if is_ok result then kept_with self.old.kept bytes.now else self.old.kept) }
        ensures some { IfOk result (λ n. 1 ≤ n) }
        ensures bound { IfOk result (λ n. n ≤ length bytes.now) }
        ensures taken { Puts (held_of self.old.kept) (held_of self.new.kept) result bytes.now }
        ensures cause { HasCause self.old.calls.faults self.new.calls.faults (IsErr result) }
    {
        self.calls.call()?;
        self.room.keep(bytes);
        Ok(bytes.len())
    }
}
