//! `Union`, the rows of two inputs.

ghost use Rattle.std.specs.Prelude.{◌≡◌, ℕ, List, [], Bool, false, IfOk, Option, Some};
ghost use Rattle.event_value.specs.declared.record.Stamped.{Stamped};
ghost use Rattle.stream_op.specs.OperatorLaws.{united-laws};
ghost use Rattle.stream_op.specs.Operators.{united};
ghost use Rattle.stream_op.specs.Rows.{AreTaken, time_of};
ghost use Rattle.row_order.specs.Merge.{merge};

use crate::{StreamOp, push_rows};
use event_value::{Copies, Memory, Seq, Stamped};
use std::alloc::Global;
use tick_time::Moment;

/// The rows of both inputs in order of time, of equal times the left ones first.
#[derive(Drop)]
pub struct Union;

impl StreamOp for Union {
    type Spec = ();

    ghost fits = { λ _. Unit {0} };

    ghost one_input = { false };

    ghost op = { united };

    ghost reach = { λ _. Some 0 };

    ghost stands = { λ o spec left right w. AreTaken w left right };

    fn begin(alloc: Global, spec: &()) -> Result<Self, Memory> {
        Ok(Union)
    }

    fn advance(
        self,
        alloc: Global,
        left: &[Stamped],
        right: &[Stamped],
        upto: Moment,
    ) -> Result<(Self, Seq<Stamped>), Memory> {
        let rows = merged(alloc, left, right)?;
        Ok((self, rows))
    }

    ghost stands_only = { record {
      fitting = λ o spec left right w stands. tt;
      taken = λ o spec left right w stands. stands;
    } };

    ghost laws = { united-laws };
}

// The rows of both lists, each time the earlier of the next two, of equal times the left one.
fn merged(alloc: Global, left: &[Stamped], right: &[Stamped]) -> Result<Seq<Stamped>, Memory>
    ensures { IfOk result (λ rows. rows ≡ merge time_of left.now right.now) }
{
    let mut rows = Seq::empty(alloc);
    let mut i = 0;
    let mut j = 0;
    while i < left.len() && j < right.len() {
        if left[i].time <= right[j].time {
            rows.push(left[i].copy()?)?;
            i += 1;
        } else {
            rows.push(right[j].copy()?)?;
            j += 1;
        }
    }
    push_rows(&mut rows, &left[i..])?;
    push_rows(&mut rows, &right[j..])?;
    Ok(rows)
}
