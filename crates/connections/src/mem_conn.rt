//! `MemConn`, a connection in memory.

ghost use Rattle.std.specs.Prelude.{◌<◌, ◌≤◌, ◌≡◌, ◌↔◌, [], min, length, Some, option_map};
ghost use Rattle.std.specs.Prelude.{IfOk, IfSome, IsErr, IsErrOf};
ghost use Rattle.outside.specs.Faults.{HasRisen};
ghost use Rattle.outside.specs.FailingCalls.{IsDue, IsNextCall};
ghost use Rattle.connections.specs.ConnBytes.{left_after_read, bytes_after_write, IsNextPiece};
ghost use Rattle.connections.specs.MemConn.{fresh_conn};

use crate::unread::Unread;
use crate::{Conn, ConnErr};
use event_value::{Seq, Text};
use memory_parts::Failures;
use std::marker::Model;

/// A connection in memory.
#[derive(Drop)]
pub struct MemConn {
    left: Unread,
    written: Text,
    failures: Failures,
}

impl Model for MemConn {
    ghost use Rattle.connections.specs.MemConn.{ConnInMemory};

    ghost Value = { ConnInMemory };

    ghost view = { λ c. record { left = c.left; written = c.written; failing = c.failures } };
}

impl MemConn {
    /// A connection of which no call fails but for want of memory. It takes no memory.
    pub fn of(bytes: Text) -> Self
        ensures { result ≡ fresh_conn bytes [] }
    {
        let numbers = Seq::empty(bytes.allocator());
        MemConn::failing_at(bytes, numbers)
    }

    /// A connection that fails at the calls of these numbers, counted from 0. It takes no memory.
    pub fn failing_at(bytes: Text, numbers: Seq<u64>) -> Self
        ensures { result ≡ fresh_conn bytes numbers }
    {
        MemConn {
            written: Text::empty(bytes.allocator()),
            left: Unread::of(bytes),
            failures: Failures::at(numbers),
        }
    }

    /// What was written.
    pub fn bytes(&self) -> &[u8]
        ensures { result.now ≡ self.now.written }
    {
        self.written.items()
    }

    /// What was written, of a connection that has ended. It takes no memory.
    pub fn into_written(self) -> Text
        ensures { result ≡ self.written }
    {
        self.written
    }
}

impl Conn for MemConn {
    ghost left = { λ c. Some c.left };

    ghost written = { λ c. Some c.written };

    ghost faults = { λ c. c.failing.faults };

    fn read(&mut self, into: &mut [u8]) -> Result<usize, ConnErr>
        ensures left { Some self.new.left
            ≡ option_map (left_after_read result) (Some self.old.left) }
        ensures written { Some self.new.written ≡ Some self.old.written }
        ensures fits { IfOk result (λ count. count ≤ length into.old) }
        ensures bytes { IfOk result (λ count.
            IfSome (Some self.old.left) (IsNextPiece count (length into.old) into.new)) }
        ensures never_falls { self.old.failing.faults ≤ self.new.failing.faults }
        ensures cause { IsErrOf result ConnErr.Fault
            → HasRisen self.old.failing.faults self.new.failing.faults }

        // Which calls fail: those that are to. Every other gives as much as is left and fits.
        ensures fault { IsErr result ↔ IsDue self.old.failing }
        ensures all { IfOk result (λ count. count ≡ min (length self.old.left) (length into.old)) }
        ensures counts { IsNextCall self.old.failing self.new.failing }
    {
        if self.failures.next_fails() {
            return Err(ConnErr::Fault);
        }
        Ok(self.left.read(into))
    }

    fn write(&mut self, bytes: &[u8]) -> Result<usize, ConnErr>
        ensures written { Some self.new.written
            ≡ option_map (bytes_after_write bytes.now result) (Some self.old.written) }
        ensures left { Some self.new.left ≡ Some self.old.left }
        ensures fits { IfOk result (λ count. count ≤ length bytes.now) }
        ensures progress { IfOk result (λ count. 0 < length bytes.now → 0 < count) }
        ensures never_falls { self.old.failing.faults ≤ self.new.failing.faults }
        ensures cause { IsErrOf result ConnErr.Fault
            → HasRisen self.old.failing.faults self.new.failing.faults }

        // Which calls fail: those that are to. Every other takes all, where there is memory.
        ensures due { IsDue self.old.failing → IsErr result }
        ensures all { IfOk result (λ count. count ≡ length bytes.now) }
        ensures counts { IsNextCall self.old.failing self.new.failing }
    {
        if self.failures.next_fails() {
            return Err(ConnErr::Fault);
        }
        match self.written.extend(bytes) {
            Ok(()) => Ok(bytes.len()),
            Err(_) => {
                self.failures.count_fault();
                Err(ConnErr::Fault)
            }
        }
    }
}
