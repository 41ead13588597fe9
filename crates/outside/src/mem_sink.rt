//! `MemSink`, a sink in memory.

ghost use Rattle.std.specs.Prelude.{◌<◌, ◌≤◌, ◌≡◌, ◌↔◌, [], length, Some, option_map};
ghost use Rattle.std.specs.Prelude.{IfOk, IsErrOf};
ghost use Rattle.outside.specs.Faults.{HasRisen};
ghost use Rattle.outside.specs.FailingCalls.{IsDue, IsNextCall};
ghost use Rattle.outside.specs.MemSink.{fresh_sink};
ghost use Rattle.outside.specs.Written.{bytes_after_write};

use crate::failures::Failures;
use crate::{Sink, SinkErr};
use event_value::{Seq, Text};
use std::alloc::Global;
use std::marker::Model;

/// A sink in memory.
#[derive(Drop)]
pub struct MemSink {
    written: Text,
    failures: Failures,
}

impl Model for MemSink {
    ghost use Rattle.outside.specs.MemSink.{SinkInMemory};

    ghost Value = { SinkInMemory };

    ghost view = { λ s. record { written = s.written; failing = s.failures } };
}

impl MemSink {
    /// A sink of which no call fails. It takes no memory.
    pub fn of(alloc: Global) -> Self
        ensures { result ≡ fresh_sink [] }
    {
        MemSink::failing_at(alloc, Seq::empty(alloc))
    }

    /// A sink that fails at the calls of these numbers, counted from 0. It takes no memory.
    pub fn failing_at(alloc: Global, numbers: Seq<u64>) -> Self
        ensures { result ≡ fresh_sink numbers }
    {
        MemSink {
            written: Text::empty(alloc),
            failures: Failures::at(numbers),
        }
    }

    /// What was written.
    pub fn bytes(&self) -> &[u8]
        ensures { result.now ≡ self.now.written }
    {
        self.written.items()
    }
}

impl Sink for MemSink {
    ghost written = { λ s. Some s.written };

    ghost faults = { λ s. s.failing.faults };

    fn write(&mut self, bytes: &[u8]) -> Result<usize, SinkErr>
        ensures written { Some self.new.written
            ≡ option_map (bytes_after_write bytes.now result) (Some self.old.written) }
        ensures fits { IfOk result (λ count. count ≤ length bytes.now) }
        ensures progress { IfOk result (λ count. 0 < length bytes.now → 0 < count) }
        ensures never_falls { self.old.failing.faults ≤ self.new.failing.faults }
        ensures cause { IsErrOf result SinkErr.Fault
            → HasRisen self.old.failing.faults self.new.failing.faults }

        // Which calls fail: those that are to. Every other takes all, where there is memory.
        ensures fault { IsErrOf result SinkErr.Fault ↔ IsDue self.old.failing }
        ensures all { IfOk result (λ count. count ≡ length bytes.now) }
        ensures counts { IsNextCall self.old.failing self.new.failing }
    {
        if self.failures.next_fails() {
            return Err(SinkErr::Fault);
        }
        match self.written.extend(bytes) {
            Ok(()) => Ok(bytes.len()),
            Err(_) => Err(SinkErr::Memory),
        }
    }
}
