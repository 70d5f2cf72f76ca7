//! Which calls of a form in memory fail, and how many were made.

ghost use Rattle.std.specs.Prelude.{◌≡◌, ◌↔◌, Contains, IsErr};
ghost use Rattle.gopass_base.specs.Faults.{HasCause};

use crate::Failed;
use std::marker::Model;

/// The calls that a disk, a tool or a stream in memory was asked for. The calls with the given
/// numbers, counted from 0, fail.
#[derive(Drop)]
pub struct CallLog {
    failing: Vec<u64>,
    made: u64,
    faults: u64,
}

impl Model for CallLog {
    ghost use Rattle.gopass_base.specs.Calls.{Calls};

    ghost Value = { Calls };

    ghost view = { λ log. record { failing = log.failing.items; made = log.made; faults = log.faults } };
}

impl CallLog {
    ghost use Rattle.gopass_base.specs.Calls.{Calls, next_calls, no_calls};

    /// No call was made yet.
    pub fn new(failing: Vec<u64>) -> CallLog
        ensures { result ≡ no_calls failing.items }
    {
        CallLog {
            failing,
            made: 0,
            faults: 0,
        }
    }

    /// Replaces the numbers of the calls that fail. Both counts stay.
    pub fn fail_at(&mut self, failing: Vec<u64>)
        ensures { self.new ≡ record self.old { failing = failing.items } }
    {
        self.failing = failing;
    }

    /// Counts one more call, and fails where its number is one of the given.
    pub fn call(&mut self) -> Result<(), Failed>
        ensures fails { IsErr result ↔ Contains self.old.failing self.old.made }
        ensures counts { self.new ≡ next_calls self.old }
        ensures cause { HasCause self.old.faults self.new.faults (IsErr result) }
    {
        let is_failing = self.failing.contains(&self.made);
        self.made = self.made.saturating_add(1);
        if is_failing {
            self.faults = self.faults.saturating_add(1);
            return Err(Failed);
        }
        Ok(())
    }

    /// How many calls were made; the count stands at its last value.
    pub fn made(&self) -> u64
        ensures { result ≡ self.now.made }
    {
        self.made
    }

    /// How many calls failed; the count stands at its last value.
    pub fn faults(&self) -> u64
        ensures { result ≡ self.now.faults }
    {
        self.faults
    }
}
