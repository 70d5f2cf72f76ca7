//! Sources in memory.

ghost use Rattle.std.specs.Prelude.{◌≡◌, ◌↔◌, ◌++◌, ◌+◌, ◌≤◌, ◌<◌, min, length, take, drop, is_ok, Ok, IsOk, IsErr, IfOk, Contains, Some, if◌then◌else◌};
ghost use Rattle.gopass_base.specs.Faults.{HasCause};
ghost use Rattle.gopass_base.specs.Calls.{no_calls, next_calls};
ghost use Rattle.io_ports.specs.Source.{Takes, TakesCount, GrewOnce, untaken, after_take};

use crate::Source;
use crate::rest::Rest;
use gopass_base::{CallLog, Failed};
use std::marker::Model;

/// A source in memory that never fails.
#[derive(Drop)]
pub struct SureSource {
    rest: Rest,
}

impl Model for SureSource {
    ghost use Rattle.io_ports.specs.Source.{InMemory};

    ghost Value = { InMemory };

    ghost view = { λ source. source.rest };
}

impl SureSource {
    /// A source of these bytes.
    pub fn new(bytes: Vec<u8>) -> SureSource
        ensures { result ≡ untaken bytes.items }
    {
        SureSource {
            rest: Rest::new(bytes),
        }
    }

    /// The bytes that are still to come.
    pub fn left(&self) -> &[u8]
        ensures { result.now ≡ self.now.left }
    {
        self.rest.left()
    }
}

impl Source for SureSource {
    ghost meaning = { record { left = λ source. Some source.left; taken = λ source. source.taken; ends = λ source. source.ends; faults = λ _. 0 } };

    fn take(&mut self, into: &mut [u8]) -> Result<usize, Failed>
        requires { 0 < length into.old }
        ensures sure { IsOk result }
        ensures count { IfOk result (λ n. n ≡ min (length self.old.left) (length into.old)) }
        ensures next { self.new ≡ after_take (length into.old) self.old }
        ensures filled { into.new ≡ take (length into.old) self.old.left ++ drop (length self.old.left) into.old }
        ensures bound { IfOk result (λ n. n ≤ length into.old) }
        ensures taken { Takes (Some self.old.left) (Some self.new.left) result into.new }
        ensures counts { TakesCount self.old.taken self.new.taken result }
        ensures ends { GrewOnce self.old.ends self.new.ends (result ≡ Ok 0) }
        ensures cause { HasCause 0 0 (IsErr result) }
    {
        Ok(self.rest.take(into))
    }
}

/// A source in memory whose calls with the given numbers, counted from 0, fail.
#[derive(Drop)]
pub struct MemSource {
    rest: Rest,
    calls: CallLog,
}

impl Model for MemSource {
    ghost use Rattle.io_ports.specs.Source.{FailingSource};

    ghost Value = { FailingSource };

    ghost view = { λ source. record { source = source.rest; calls = source.calls } };
}

impl MemSource {
    /// A source of these bytes.
    pub fn new(bytes: Vec<u8>, failing: Vec<u64>) -> MemSource
        ensures { result ≡ record { source = untaken bytes.items; calls = no_calls failing.items } }
    {
        MemSource {
            rest: Rest::new(bytes),
            calls: CallLog::new(failing),
        }
    }

    /// The bytes that are still to come.
    pub fn left(&self) -> &[u8]
        ensures { result.now ≡ self.now.source.left }
    {
        self.rest.left()
    }
}

impl Source for MemSource {
    ghost meaning = { record { left = λ s. Some s.source.left; taken = λ s. s.source.taken; ends = λ s. s.source.ends; faults = λ s. s.calls.faults } };

    fn take(&mut self, into: &mut [u8]) -> Result<usize, Failed>
        requires { 0 < length into.old }
        ensures fails { IsErr result ↔ Contains self.old.calls.failing self.old.calls.made }
        ensures calls { self.new.calls ≡ next_calls self.old.calls }
        ensures count { IfOk result (λ n. n ≡ min (length self.old.source.left) (length into.old)) }
        ensures next { self.new.source ≡ (if is_ok result then after_take (length into.old) self.old.source else self.old.source) }
        ensures filled { into.new ≡ (if is_ok result then take (length into.old) self.old.source.left ++ drop (length self.old.source.left) into.old else into.old) }
        ensures bound { IfOk result (λ n. n ≤ length into.old) }
        ensures taken { Takes (Some self.old.source.left) (Some self.new.source.left) result into.new }
        ensures counts { TakesCount self.old.source.taken self.new.source.taken result }
        ensures ends { GrewOnce self.old.source.ends self.new.source.ends (result ≡ Ok 0) }
        ensures cause { HasCause self.old.calls.faults self.new.calls.faults (IsErr result) }
    {
        self.calls.call()?;
        Ok(self.rest.take(into))
    }
}
