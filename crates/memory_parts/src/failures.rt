//! `Failures`, which calls of an object in memory fail.

ghost use Rattle.std.specs.Prelude.{◌≤◌, ◌≡◌, ◌↔◌, IsTrue};
ghost use Rattle.outside.specs.FailingCalls.{IsDue, fresh_calls};
ghost use Rattle.outside.specs.FailingCalls.{calls_after_call, calls_after_fault};

use event_value::Seq;
use std::marker::Model;

/// The numbers of the calls that fail, and counts of the calls and of the faults.
#[derive(Drop)]
pub struct Failures {
    numbers: Seq<u64>,
    calls: u64,
    faults: u64,
}

impl Model for Failures {
    ghost use Rattle.outside.specs.FailingCalls.{FailingCalls};

    ghost Value = { FailingCalls };

    ghost view = { λ f. record { numbers = f.numbers; calls = f.calls; faults = f.faults } };
}

impl Failures {
    /// The calls of these numbers fail; no call was made yet.
    pub fn at(numbers: Seq<u64>) -> Self
        ensures { result ≡ fresh_calls numbers }
    {
        Failures {
            numbers,
            calls: 0,
            faults: 0,
        }
    }

    /// Counts a call, and the fault where it is one that fails. Says whether it is.
    pub fn next_fails(&mut self) -> bool
        ensures answer { IsTrue result ↔ IsDue self.old }
        ensures counts { self.new ≡ calls_after_call result self.old }
        ensures never_falls { self.old.faults ≤ self.new.faults }
    {
        let fails = self.numbers.items().contains(&self.calls);
        self.calls = self.calls.saturating_add(1);
        if fails {
            self.count_fault();
        }
        fails
    }

    /// Counts a fault.
    pub fn count_fault(&mut self)
        ensures counts { self.new ≡ calls_after_fault self.old }
        ensures never_falls { self.old.faults ≤ self.new.faults }
    {
        self.faults = self.faults.saturating_add(1);
    }
}
