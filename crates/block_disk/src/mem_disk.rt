//! `MemDisk`, a disk in memory.

ghost use Rattle.std.specs.Prelude.{◌≤◌, ◌≡◌, ◌+◌, ◌↔◌, [], Some, length, option_map, slice_range};
ghost use Rattle.std.specs.Prelude.{IfOk, OnOk, OnErr, IsErr, IsErrOf};
ghost use Rattle.outside.specs.Faults.{HasRisen};
ghost use Rattle.outside.specs.FailingCalls.{IsDue, IsNextCall, calls_after_fault};
ghost use Rattle.block_disk.specs.Stops.{put, TornWrite, TornWhereKnown, Follows, SameImages};
ghost use Rattle.block_disk.specs.Stops.{NoFurtherImage, OnlyAsRead, Elapses};
ghost use Rattle.block_disk.specs.Images.{file_of, history_after, moment_of, IsImage, IsImageSince};
ghost use Rattle.block_disk.specs.MemDisk.{fresh_disk, LeavesHalf};
ghost use Rattle.block_disk.specs.ImageLaws.{IsImageSince-now, IsImage-since_now};
ghost use Rattle.block_disk.specs.ImageLaws.{IsImageSince-earlier, IsImage-file};

use crate::history::History;
use crate::{Call, Disk, DiskErr};
use event_value::{Memory, Seq, Text};
use memory_parts::Failures;
use std::marker::Model;

/// A disk in memory. It keeps its calls, by which all is known that a stop may leave.
#[derive(Drop)]
pub struct MemDisk {
    history: History,
    failures: Failures,
}

impl Model for MemDisk {
    ghost use Rattle.block_disk.specs.MemDisk.{DiskInMemory};

    ghost Value = { DiskInMemory };

    ghost view = { λ d. record { history = d.history; failing = d.failures } };
}

impl MemDisk {
    /// A disk with these bytes, all of them brought to it. A call fails for want of memory alone.
    ///
    /// # Errors
    /// `Memory` where there was none for a copy.
    pub fn of(bytes: Text) -> Result<Self, Memory>
        ensures { IfOk result (λ disk. disk ≡ fresh_disk bytes []) }
    {
        let numbers = Seq::empty(bytes.allocator());
        MemDisk::failing_at(bytes, numbers)
    }

    /// A disk that fails at the calls of these numbers too, counted from 0. A write that is to fail
    /// puts the first half of its bytes.
    ///
    /// # Errors
    /// `Memory` where there was none for a copy.
    pub fn failing_at(bytes: Text, numbers: Seq<u64>) -> Result<Self, Memory>
        ensures { IfOk result (λ disk. disk ≡ fresh_disk bytes numbers) }
    {
        Ok(MemDisk {
            history: History::of(bytes)?,
            failures: Failures::at(numbers),
        })
    }

    /// What a read gives.
    pub fn bytes(&self) -> &[u8]
        ensures { result.now ≡ file_of self.now.history }
    {
        self.history.content()
    }

    /// The bytes before the first call.
    pub fn first(&self) -> &[u8]
        ensures { result.now ≡ self.now.history.first }
    {
        self.history.first()
    }

    /// The writes and syncs that were carried out, the oldest first.
    pub fn calls(&self) -> &[Call]
        ensures { result.now ≡ self.now.history.calls }
    {
        self.history.calls()
    }

    /// Counts want of memory as a fault.
    fn no_memory(&mut self) -> DiskErr
        ensures fault { result ≡ DiskErr.Fault }
        ensures history { self.new.history ≡ self.old.history }
        ensures failing { self.new.failing ≡ calls_after_fault self.old.failing }
        ensures never_falls { self.old.failing.faults ≤ self.new.failing.faults }
    {
        self.failures.count_fault();
        DiskErr::Fault
    }
}

impl Disk for MemDisk {
    ghost content = { λ d. Some (file_of d.history) };

    ghost may_leave = { λ d c. IsImage d.history c };

    ghost moment = { λ d. moment_of d.history };

    ghost left_since = { λ d t c. IsImageSince d.history t c };

    ghost faults = { λ d. d.failing.faults };

    ghost counts_now = { λ d t c earlier now. IsImageSince-now d.history t c earlier now };

    ghost only_now = { λ d c left. IsImage-since_now d.history c left };

    ghost since_earlier = { λ d t u c earlier left.
        IsImageSince-earlier d.history t u c earlier left };

    ghost as_it_reads = { λ d c reads. IsImage-file d.history c reads };

    fn len(&mut self) -> Result<u64, DiskErr>
        ensures length { IfOk result (λ n. n ≡ length (file_of self.old.history)) }
        ensures history { self.new.history ≡ self.old.history }
        ensures never_falls { self.old.failing.faults ≤ self.new.failing.faults }
        ensures cause { IsErrOf result DiskErr.Fault
            → HasRisen self.old.failing.faults self.new.failing.faults }

        // Which calls fail: those that are to.
        ensures fault { IsErr result ↔ IsDue self.old.failing }
        ensures counts { IsNextCall self.old.failing self.new.failing }
    {
        if self.failures.next_fails() {
            return Err(DiskErr::Fault);
        }
        Ok(self.history.content().len() as u64)
    }

    fn read(&mut self, at: u64, into: &mut [u8]) -> Result<(), DiskErr>
        requires { at + length into.old ≤ length (file_of self.old.history) }
        ensures bytes { OnOk result (into.new
            ≡ slice_range (file_of self.old.history) at (at + length into.old)) }
        ensures history { self.new.history ≡ self.old.history }
        ensures never_falls { self.old.failing.faults ≤ self.new.failing.faults }
        ensures cause { IsErrOf result DiskErr.Fault
            → HasRisen self.old.failing.faults self.new.failing.faults }

        // Which calls fail: those that are to.
        ensures fault { IsErr result ↔ IsDue self.old.failing }
        ensures counts { IsNextCall self.old.failing self.new.failing }
    {
        if self.failures.next_fails() {
            return Err(DiskErr::Fault);
        }
        let from = at as usize;
        into.copy_from_slice(&self.history.content()[from..from + into.len()]);
        Ok(())
    }

    fn write_at(&mut self, at: u64, bytes: &[u8]) -> Result<(), DiskErr>
        requires { at ≤ length (file_of self.old.history) }
        ensures written { OnOk result (Some (file_of self.new.history)
            ≡ option_map (put at bytes.now) (Some (file_of self.old.history))) }
        ensures torn { TornWrite at (length bytes.now)
            (file_of self.old.history) (file_of self.new.history) }
        ensures stop { Follows (TornWrite at (length bytes.now))
            (IsImage self.old.history) (IsImage self.new.history) }
        ensures time { Elapses (moment_of self.old.history) (moment_of self.new.history)
            (IsImageSince self.old.history) (IsImageSince self.new.history)
            (IsImage self.new.history) }
        ensures never_falls { self.old.failing.faults ≤ self.new.failing.faults }
        ensures cause { IsErrOf result DiskErr.Fault
            → HasRisen self.old.failing.faults self.new.failing.faults }

        // What is kept, and which calls fail: those that are to, and for want of memory.
        ensures kept { OnOk result (self.new.history
            ≡ history_after (Call.Write at (length bytes.now) bytes.now) self.old.history) }
        ensures half { IsDue self.old.failing → LeavesHalf at bytes.now self.old self.new }
        ensures due { IsDue self.old.failing → IsErr result }
        ensures counts { IsNextCall self.old.failing self.new.failing }
    {
        let count = bytes.len() as u64;
        if self.failures.next_fails() {
            return match self.history.put(at, count, &bytes[..bytes.len() / 2]) {
                Ok(()) => Err(DiskErr::Fault),
                Err(_) => Err(self.no_memory()),
            };
        }
        match self.history.put(at, count, bytes) {
            Ok(()) => Ok(()),
            Err(_) => Err(self.no_memory()),
        }
    }

    fn sync(&mut self) -> Result<(), DiskErr>
        ensures durable { OnOk result (
            OnlyAsRead (Some (file_of self.old.history)) (IsImage self.new.history)) }
        ensures failed { OnErr result (self.new.history ≡ self.old.history) }
        ensures content { file_of self.new.history ≡ file_of self.old.history }
        ensures stop { NoFurtherImage (IsImage self.old.history) (IsImage self.new.history) }
        ensures time { Elapses (moment_of self.old.history) (moment_of self.new.history)
            (IsImageSince self.old.history) (IsImageSince self.new.history)
            (IsImage self.new.history) }
        ensures never_falls { self.old.failing.faults ≤ self.new.failing.faults }
        ensures cause { IsErrOf result DiskErr.Fault
            → HasRisen self.old.failing.faults self.new.failing.faults }

        // What is kept, and which calls fail: those that are to, and for want of memory.
        ensures kept { OnOk result (
            self.new.history ≡ history_after Call.Sync self.old.history) }
        ensures due { IsDue self.old.failing → IsErr result }
        ensures counts { IsNextCall self.old.failing self.new.failing }
    {
        if self.failures.next_fails() {
            return Err(DiskErr::Fault);
        }
        match self.history.sync() {
            Ok(()) => Ok(()),
            Err(_) => Err(self.no_memory()),
        }
    }
}
