//! `Conn`, a connection that is read and written.

ghost use Rattle.std.specs.Prelude.{◌<◌, ◌≤◌, ◌≡◌, ℕ, List, Option, option_map, length};
ghost use Rattle.std.specs.Prelude.{IfOk, IfSome, IsErrOf};
ghost use Rattle.outside.specs.Faults.{HasRisen};
ghost use Rattle.connections.specs.ConnBytes.{left_after_read, bytes_after_write, IsNextPiece};

/// Why a connection gives or takes nothing.
#[derive(Clone, Copy, PartialEq, Eq)]
pub enum ConnErr {
    /// The outside failed, or there was no memory. The connection's count of faults has risen.
    Fault,
}

/// A connection.
pub trait Conn {
    /// What is left to read, where it is known.
    ghost left: { Self → Option (List ℕ) };

    /// What was written, where it is known.
    ghost written: { Self → Option (List ℕ) };

    /// How often a call has failed, at most the last count of 64 bits.
    ghost faults: { Self → ℕ };

    /// Reads the next bytes; 0 of them at the end.
    ///
    /// # Errors
    /// `Fault` where the outside failed. Nothing is then passed over.
    fn read(&mut self, into: &mut [u8]) -> Result<usize, ConnErr>
        ensures left { left self.new ≡ option_map (left_after_read result) (left self.old) }
        ensures written { written self.new ≡ written self.old }
        ensures fits { IfOk result (λ count. count ≤ length into.old) }
        ensures bytes { IfOk result (λ count.
            IfSome (left self.old) (IsNextPiece count (length into.old) into.new)) }
        ensures never_falls { faults self.old ≤ faults self.new }
        ensures cause { IsErrOf result ConnErr.Fault
            → HasRisen (faults self.old) (faults self.new) };

    /// Writes a prefix of the bytes, at least one where there are any.
    ///
    /// # Errors
    /// `Fault` where the outside failed or there was no memory. Nothing is then written.
    fn write(&mut self, bytes: &[u8]) -> Result<usize, ConnErr>
        ensures written { written self.new
            ≡ option_map (bytes_after_write bytes.now result) (written self.old) }
        ensures left { left self.new ≡ left self.old }
        ensures fits { IfOk result (λ count. count ≤ length bytes.now) }
        ensures progress { IfOk result (λ count. 0 < length bytes.now → 0 < count) }
        ensures never_falls { faults self.old ≤ faults self.new }
        ensures cause { IsErrOf result ConnErr.Fault
            → HasRisen (faults self.old) (faults self.new) };
}
