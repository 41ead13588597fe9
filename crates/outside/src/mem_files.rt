//! `MemFiles`, files in memory.

ghost use Rattle.std.specs.Prelude.{◌≤◌, ◌≡◌, ◌↔◌, [], length, option_map, IfOk, IfSome, OnOk};
ghost use Rattle.std.specs.Prelude.{IsErr, IsErrOf, IsSome};
ghost use Rattle.outside.specs.Faults.{HasRisen};
ghost use Rattle.outside.specs.FailingCalls.{IsDue, IsNextCall};
ghost use Rattle.outside.specs.KnownFiles.{files_after_begin, files_after_read};
ghost use Rattle.outside.specs.KnownFiles.{GivesPrefix, MakesProgress};
ghost use Rattle.outside.specs.MemFiles.{held_in, known_of, HasCause, fresh_files};

use crate::failures::Failures;
use crate::unread::Unread;
use crate::{FileErr, Files, HeldFile};
use event_value::{Copies, Memory, Seq, Text};
use std::alloc::Global;
use std::marker::Model;

/// Files in memory. The first file of a name counts.
#[derive(Drop)]
pub struct MemFiles {
    held: Seq<HeldFile>,
    asked: Seq<Text>,
    left: Unread,
    failures: Failures,
}

impl Model for MemFiles {
    ghost use Rattle.outside.specs.MemFiles.{FilesInMemory};

    ghost Value = { FilesInMemory };

    ghost view = { λ m. record {
      held = m.held;
      asked = m.asked;
      left = m.left;
      failing = m.failures;
    } };
}

impl MemFiles {
    /// Files that fail at a name that isn't held alone. It takes no memory.
    pub fn of(alloc: Global, held: Seq<HeldFile>) -> Self
        ensures { result ≡ fresh_files held [] }
    {
        MemFiles::failing_at(alloc, held, Seq::empty(alloc))
    }

    /// Files that fail at the calls of these numbers too, counted from 0. It takes no memory.
    pub fn failing_at(alloc: Global, held: Seq<HeldFile>, numbers: Seq<u64>) -> Self
        ensures { result ≡ fresh_files held numbers }
    {
        MemFiles {
            held,
            asked: Seq::empty(alloc),
            left: Unread::of(Text::empty(alloc)),
            failures: Failures::at(numbers),
        }
    }
}

impl Files for MemFiles {
    ghost known = { known_of };

    ghost faults = { λ m. m.failing.faults };

    fn begin(&mut self, name: &[u8]) -> Result<(), FileErr>
        ensures known { known_of self.new
            ≡ option_map (files_after_begin name.now result) (known_of self.old) }
        ensures held { OnOk result (
            IfSome (known_of self.old) (λ files. IsSome (files.holds name.now))) }
        ensures never_falls { self.old.failing.faults ≤ self.new.failing.faults }
        ensures cause { IsErrOf result FileErr.Fault
            → HasRisen self.old.failing.faults self.new.failing.faults }

        // Which calls fail: those that are to, and at a name that isn't held.
        ensures due { IsDue self.old.failing → IsErr result }
        ensures fault { IsErrOf result FileErr.Fault → HasCause self.old name.now }
        ensures counts { IsNextCall self.old.failing self.new.failing }
    {
        self.left = Unread::of(Text::empty(self.asked.allocator()));
        let fails = self.failures.next_fails();
        let bytes = find(self.held.items(), name)?;
        self.asked.push(Text::of(self.asked.allocator(), name)?)?;
        if fails {
            return Err(FileErr::Fault);
        }
        let Some(bytes) = bytes else {
            self.failures.count_fault();
            return Err(FileErr::Fault);
        };
        self.left = Unread::of(bytes);
        Ok(())
    }

    fn read(&mut self, into: &mut [u8]) -> Result<usize, FileErr>
        ensures known { known_of self.new
            ≡ option_map (files_after_read result) (known_of self.old) }
        ensures fits { IfOk result (λ count. count ≤ length into.old) }
        ensures bytes { IfOk result (λ count.
            IfSome (known_of self.old) (GivesPrefix count into.new)) }
        ensures progress { IfOk result (λ count.
            IfSome (known_of self.old) (MakesProgress count (length into.old))) }
        ensures never_falls { self.old.failing.faults ≤ self.new.failing.faults }
        ensures cause { IsErrOf result FileErr.Fault
            → HasRisen self.old.failing.faults self.new.failing.faults }

        // Which calls fail: those that are to.
        ensures fault { IsErr result ↔ IsDue self.old.failing }
        ensures counts { IsNextCall self.old.failing self.new.failing }
    {
        if self.failures.next_fails() {
            return Err(FileErr::Fault);
        }
        Ok(self.left.read(into))
    }
}

/// A copy of the first file of a name.
fn find(held: &[HeldFile], name: &[u8]) -> Result<Option<Text>, Memory>
    ensures { IfOk result (λ bytes. bytes ≡ held_in held.now name.now) }
{
    for file in held {
        if file.name.items() == name {
            return Ok(Some(file.bytes.copy()?));
        }
    }
    Ok(None)
}
