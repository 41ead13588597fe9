//! Joins: of two streams whose rows are no further apart than a bound says, and of a stream with
//! the snapshots of a reference.
//! `BoundJoin` and `ReferenceJoin` are operators on streams of rows; what matches is said by a type
//! with `Matches`, as by a condition, `JoinCond`. `Versions` holds the snapshots of a reference.
//! What matters: their meaning in specs/Bound.antt and specs/Reference.antt, whose rows `advance`
//! answers, and the laws of src/laws.rt. Which snapshot is in force: specs/Snapshots.antt.
//! What an operator owes stands in stream_op, what a condition is in expr_eval.
#![tactic(auto)]

mod bound_join;
mod join_cond;
mod laws;
mod matches;
mod near;
mod pairs;
mod reference_join;
mod versions;

pub use bound_join::{BoundJoin, BoundSpec};
pub use join_cond::JoinCond;
pub use laws::{bound_join_goes_by_places, the_last_effective_snapshot_is_in_force};
pub use matches::Matches;
pub use reference_join::{ReferenceJoin, ReferenceSpec};
pub use versions::Versions;
