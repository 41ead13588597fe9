//! `ReferenceJoin`, a join of a stream with the snapshots of a reference.

ghost use Rattle.std.specs.Prelude.{◌≡◌, ℕ, ◌++◌, List, [], Bool, true, IfOk, OnOk, Option, Some};
ghost use Rattle.event_value.specs.declared.record.Stamped.{Stamped};
ghost use Rattle.stream_joins.specs.Reference.{looked_up, reference_join};
ghost use Rattle.stream_joins.specs.ReferenceLaws.{reference_join-laws};
ghost use Rattle.stream_joins.specs.Specs.{lookup_of};
ghost use Rattle.stream_op.specs.Rows.{AreTaken};

use crate::pairs::{join_rows, row_alone};
use crate::{Matches, Versions};
use event_value::{Copies, Memory, Seq, Stamped};
use std::alloc::Global;
use stream_op::StreamOp;
use tick_time::Moment;

/// What a join with a reference is begun with.
#[derive(Drop)]
pub struct ReferenceSpec<M> {
    /// Which rows match.
    pub matches: M,
    /// The snapshots of the reference.
    pub versions: Versions,
    /// Whether a left row without a match comes alone.
    pub outer: bool,
    /// The number of the reference's columns.
    pub width: u16,
}

impl<M: Matches> Copies for ReferenceSpec<M> {
    fn copy(&self) -> Result<Self, Memory> {
        Ok(ReferenceSpec {
            matches: self.matches.copy()?,
            versions: self.versions.copy()?,
            outer: self.outer,
            width: self.width,
        })
    }
}

/// For each row those of the snapshot in force at its time that match it, and where it is asked for
/// the row alone if there are none. It holds no rows but the reference's.
#[derive(Drop)]
pub struct ReferenceJoin<M> {
    spec: ReferenceSpec<M>,
}

impl<M: Matches> StreamOp for ReferenceJoin<M> {
    type Spec = ReferenceSpec<M>;

    ghost fits = { λ _. Unit {0} };

    ghost one_input = { true };

    ghost op = { λ spec. reference_join (lookup_of M.pairs spec) };

    ghost reach = { λ _. Some 0 };

    ghost stands = { λ o spec left right w. (o.spec ≡ spec) × AreTaken w left right };

    fn begin(alloc: Global, spec: &ReferenceSpec<M>) -> Result<Self, Memory> {
        Ok(ReferenceJoin { spec: spec.copy()? })
    }

    fn advance(
        self,
        alloc: Global,
        left: &[Stamped],
        right: &[Stamped],
        upto: Moment,
    ) -> Result<(Self, Seq<Stamped>), Memory> {
        let mut rows = Seq::empty(alloc);
        for row in left {
            add_rows(&mut rows, alloc, &self.spec, row)?;
        }
        Ok((self, rows))
    }

    ghost stands_only = { record {
      fitting = λ o spec left right w stands. tt;
      taken = λ o spec left right w stands. stands.1;
    } };

    ghost laws = { reference_join-laws (lookup_of M.pairs) };
}

// Adds the rows of a left row, in the order of the reference.
fn add_rows<M: Matches>(
    rows: &mut Seq<Stamped>,
    alloc: Global,
    spec: &ReferenceSpec<M>,
    left: &Stamped,
) -> Result<(), Memory>
    ensures { OnOk result (rows.new
        ≡ rows.old ++ looked_up (lookup_of M.pairs spec.now) left.now) }
{
    let mut any = false;
    for other in spec.versions.rows_in_force(left.time) {
        let (values, others) = (left.values.items(), other.values.items());
        if spec.matches.pair(alloc, values, others, left.time)? {
            any = true;
            rows.push(join_rows(left.time, left, other)?)?;
        }
    }
    if spec.outer && !any {
        rows.push(row_alone(left.time, spec.width, left)?)?;
    }
    Ok(())
}
