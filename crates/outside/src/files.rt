//! `Files`, files that are read by name.

ghost use Rattle.std.specs.Prelude.{◌≤◌, ◌≡◌, ℕ, Option, option_map, length, IfOk, OnOk, IfSome};
ghost use Rattle.std.specs.Prelude.{IsSome, IsErrOf};
ghost use Rattle.outside.specs.Faults.{HasRisen};
ghost use Rattle.outside.specs.KnownFiles.{KnownFiles, files_after_begin, files_after_read};
ghost use Rattle.outside.specs.KnownFiles.{GivesPrefix, MakesProgress};

use event_value::Memory;

/// Why files answer nothing.
#[derive(Clone, Copy, PartialEq, Eq)]
pub enum FileErr {
    /// The outside failed. The files' count of faults has risen.
    Fault,
    /// There was no memory.
    Memory,
}

impl From<Memory> for FileErr {
    ghost use Rattle.std.specs.Prelude.{◌≡◌};
    ghost use Rattle.outside.specs.declared.files.FileErr.TheVariants.{Memory as no_memory};

    ghost from_gives = { λ _ error. error ≡ no_memory };

    fn from(_: Memory) -> Self {
        FileErr::Memory
    }
}

/// Files that are read one at a time, from the start to the end.
pub trait Files {
    /// What the files hold, which names were asked for and what is left to read, where known.
    ghost known: { Self → Option KnownFiles };

    /// How often a call has failed, at most the last count of 64 bits.
    ghost faults: { Self → ℕ };

    /// Goes to the start of a file.
    ///
    /// # Errors
    /// `Fault` where the outside failed, as at a name that isn't held; `Memory`.
    fn begin(&mut self, name: &[u8]) -> Result<(), FileErr>
        ensures known { known self.new
            ≡ option_map (files_after_begin name.now result) (known self.old) }
        ensures held { OnOk result (
            IfSome (known self.old) (λ files. IsSome (files.holds name.now))) }
        ensures never_falls { faults self.old ≤ faults self.new }
        ensures cause { IsErrOf result FileErr.Fault
            → HasRisen (faults self.old) (faults self.new) };

    /// Reads the next bytes of the file that was begun last; 0 of them at its end.
    ///
    /// # Errors
    /// `Fault` where the outside failed; `Memory`. Nothing of the file is then passed over.
    fn read(&mut self, into: &mut [u8]) -> Result<usize, FileErr>
        ensures known { known self.new ≡ option_map (files_after_read result) (known self.old) }
        ensures fits { IfOk result (λ count. count ≤ length into.old) }
        ensures bytes { IfOk result (λ count.
            IfSome (known self.old) (GivesPrefix count into.new)) }
        ensures progress { IfOk result (λ count.
            IfSome (known self.old) (MakesProgress count (length into.old))) }
        ensures never_falls { faults self.old ≤ faults self.new }
        ensures cause { IsErrOf result FileErr.Fault
            → HasRisen (faults self.old) (faults self.new) };
}
