//! The laws of joins.

ghost use Rattle.std.specs.Prelude.{ℕ, List};
ghost use Rattle.event_value.specs.declared.record.Stamped.{Stamped};
ghost use Rattle.stream_joins.specs.Bound.{Bound, bound_join};
ghost use Rattle.stream_joins.specs.Laws.{AreByPlaces, IsLastBefore};
ghost use Rattle.stream_joins.specs.Snapshots.{in_force};

/// The rows of a join within a bound are in order of time; those of one time stand by the places of
/// their left rows, and those of one left row by the places of their right rows.
pub fn bound_join_goes_by_places()
    ensures { (bound : Bound) (left right : List Stamped)
        → AreByPlaces bound left right (bound_join bound left right) }
{}

/// In force at a time is the last snapshot whose moment is at or before it, and none exactly where
/// all moments are behind it.
pub fn the_last_effective_snapshot_is_in_force()
    ensures { (effective : List ℕ) (t : ℕ) → IsLastBefore effective t (in_force effective t) }
{}
