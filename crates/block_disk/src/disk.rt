//! `Disk`, one file on a disk.

ghost use Rattle.std.specs.Prelude.{◌≤◌, ◌≡◌, ◌+◌, ℕ, List, Option, Some, option_map, length};
ghost use Rattle.std.specs.Prelude.{slice_range, IfOk, OnOk, OnErr, IfSome, IsErrOf};
ghost use Rattle.outside.specs.Faults.{HasRisen};
ghost use Rattle.block_disk.specs.Stops.{put, TornWrite, TornWhereKnown, Follows, SameImages};
ghost use Rattle.block_disk.specs.Stops.{NoFurtherImage, OnlyAsRead, Elapses};

/// Why a disk does nothing.
#[derive(Clone, Copy, PartialEq, Eq)]
pub enum DiskErr {
    /// The outside failed, or there was no memory. The disk's count of faults has risen.
    Fault,
}

/// One file on a disk. What is said of its bytes holds where they are known.
pub trait Disk {
    /// What a read gives, where it is known.
    ghost content: { Self → Option (List ℕ) };

    /// What a stop at this moment may leave.
    ghost may_leave: { Self → List ℕ → Type 0 };

    /// The moment, by the disk's own clock.
    ghost moment: { Self → ℕ };

    /// What a stop at some moment since that one may have left.
    ghost left_since: { Self → ℕ → List ℕ → Type 0 };

    /// How often a call has failed, at most the last count of 64 bits.
    ghost faults: { Self → ℕ };

    /// How many bytes the file has.
    ///
    /// # Errors
    /// `Fault`; the file is then as before.
    fn len(&mut self) -> Result<u64, DiskErr>
        ensures length { IfOk result (λ n. IfSome (content self.old) (λ file. n ≡ length file)) }
        ensures content { content self.new ≡ content self.old }
        ensures stop { SameImages (may_leave self.old) (may_leave self.new) }
        ensures time { Elapses (moment self.old) (moment self.new)
            (left_since self.old) (left_since self.new) (may_leave self.new) }
        ensures never_falls { faults self.old ≤ faults self.new }
        ensures cause { IsErrOf result DiskErr.Fault
            → HasRisen (faults self.old) (faults self.new) };

    /// Fills `into` with the bytes from a place on, which are all within the file.
    ///
    /// # Errors
    /// `Fault`; the file is then as before, and `into` may hold anything.
    fn read(&mut self, at: u64, into: &mut [u8]) -> Result<(), DiskErr>
        requires { IfSome (content self.old) (λ file. at + length into.old ≤ length file) }
        ensures bytes { OnOk result (IfSome (content self.old) (λ file.
            into.new ≡ slice_range file at (at + length into.old))) }
        ensures content { content self.new ≡ content self.old }
        ensures stop { SameImages (may_leave self.old) (may_leave self.new) }
        ensures time { Elapses (moment self.old) (moment self.new)
            (left_since self.old) (left_since self.new) (may_leave self.new) }
        ensures never_falls { faults self.old ≤ faults self.new }
        ensures cause { IsErrOf result DiskErr.Fault
            → HasRisen (faults self.old) (faults self.new) };

    /// Puts bytes at a place, at most at the file's end, over what is there and past the end.
    /// Until a sync a stop may leave any bytes in their range and past the old end.
    ///
    /// # Errors
    /// `Fault`; a read too may then give any bytes there.
    fn write_at(&mut self, at: u64, bytes: &[u8]) -> Result<(), DiskErr>
        requires { IfSome (content self.old) (λ file. at ≤ length file) }
        ensures written { OnOk result (
            content self.new ≡ option_map (put at bytes.now) (content self.old)) }
        ensures torn { TornWhereKnown at (length bytes.now) (content self.old) (content self.new) }
        ensures stop { Follows (TornWrite at (length bytes.now))
            (may_leave self.old) (may_leave self.new) }
        ensures time { Elapses (moment self.old) (moment self.new)
            (left_since self.old) (left_since self.new) (may_leave self.new) }
        ensures never_falls { faults self.old ≤ faults self.new }
        ensures cause { IsErrOf result DiskErr.Fault
            → HasRisen (faults self.old) (faults self.new) };

    /// Brings all to the disk: a stop then leaves what a read gives.
    ///
    /// # Errors
    /// `Fault`; a stop may then leave what it might have left before.
    fn sync(&mut self) -> Result<(), DiskErr>
        ensures durable { OnOk result (OnlyAsRead (content self.old) (may_leave self.new)) }
        ensures failed { OnErr result (SameImages (may_leave self.old) (may_leave self.new)) }
        ensures content { content self.new ≡ content self.old }
        ensures stop { NoFurtherImage (may_leave self.old) (may_leave self.new) }
        ensures time { Elapses (moment self.old) (moment self.new)
            (left_since self.old) (left_since self.new) (may_leave self.new) }
        ensures never_falls { faults self.old ≤ faults self.new }
        ensures cause { IsErrOf result DiskErr.Fault
            → HasRisen (faults self.old) (faults self.new) };

    /// This moment is one of those since an earlier one.
    ghost counts_now: { (d : Self) (t : ℕ) (c : List ℕ)
        → t ≤ moment d → may_leave d c → left_since d t c };

    /// Since this moment there is no other.
    ghost only_now: { (d : Self) (c : List ℕ) → left_since d (moment d) c → may_leave d c };

    /// What was left since a later moment was left since an earlier one.
    ghost since_earlier: { (d : Self) (t u : ℕ) (c : List ℕ)
        → t ≤ u → left_since d u c → left_since d t c };

    /// A disk as it reads is one of its images.
    ghost as_it_reads: { (d : Self) (c : List ℕ) → content d ≡ Some c → may_leave d c };
}
