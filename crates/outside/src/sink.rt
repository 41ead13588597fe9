//! `Sink`, which takes bytes in pieces.

ghost use Rattle.std.specs.Prelude.{◌<◌, ◌≤◌, ◌≡◌, ℕ, List, Option, option_map, length, IfOk};
ghost use Rattle.std.specs.Prelude.{IsErrOf};
ghost use Rattle.outside.specs.Faults.{HasRisen};
ghost use Rattle.outside.specs.Written.{bytes_after_write};

/// Why a sink takes nothing.
#[derive(Clone, Copy, PartialEq, Eq)]
pub enum SinkErr {
    /// The outside failed. The sink's count of faults has risen.
    Fault,
    /// There was no memory.
    Memory,
}

/// A sink for bytes.
pub trait Sink {
    /// What was written, where it is known.
    ghost written: { Self → Option (List ℕ) };

    /// How often a call has failed, at most the last count of 64 bits.
    ghost faults: { Self → ℕ };

    /// Writes a prefix of the bytes, at least one where there are any.
    ///
    /// # Errors
    /// `Fault` where the outside failed; `Memory`. Nothing is then written.
    fn write(&mut self, bytes: &[u8]) -> Result<usize, SinkErr>
        ensures written { written self.new
            ≡ option_map (bytes_after_write bytes.now result) (written self.old) }
        ensures fits { IfOk result (λ count. count ≤ length bytes.now) }
        ensures progress { IfOk result (λ count. 0 < length bytes.now → 0 < count) }
        ensures never_falls { faults self.old ≤ faults self.new }
        ensures cause { IsErrOf result SinkErr.Fault
            → HasRisen (faults self.old) (faults self.new) };
}
