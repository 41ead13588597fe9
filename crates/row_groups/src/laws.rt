//! The laws of aggregates.

ghost use Rattle.std.specs.Prelude.{List, ℤ};
ghost use Rattle.row_groups.specs.Laws.{AreAddedExactly};

/// Fewer than 2^63 numbers of 64 bits are added up exactly: no sum on the way is lost.
pub fn sums_are_exact()
    ensures { (numbers : List ℤ) → AreAddedExactly numbers }
{}
