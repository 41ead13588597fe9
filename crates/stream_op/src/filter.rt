//! `Filter`, the rows that pass a test.

ghost use Rattle.std.specs.Prelude.{◌≡◌, ℕ, List, [], Bool, true, IfOk, Option, Some};
ghost use Rattle.event_value.specs.declared.record.Stamped.{Stamped};
ghost use Rattle.stream_op.specs.OperatorLaws.{filtered-laws};
ghost use Rattle.stream_op.specs.Operators.{filtered};
ghost use Rattle.stream_op.specs.Rows.{AreTaken};

use crate::StreamOp;
use event_value::{Copies, Memory, Seq, Stamped};
use std::alloc::Global;
use tick_time::Moment;

/// A test of rows.
pub trait RowTest: Copies {
    /// Whether a row passes.
    ghost passes: { Self → Stamped → Bool };

    /// Whether a row passes.
    ///
    /// # Errors
    /// `Memory` where there was none to find out.
    fn test(&self, alloc: Global, row: &Stamped) -> Result<bool, Memory>
        ensures { IfOk result (λ does. does ≡ passes self.now row.now) };
}

/// The rows that pass a test.
#[derive(Drop)]
pub struct Filter<T> {
    test: T,
}

impl<T: RowTest> StreamOp for Filter<T> {
    type Spec = T;

    ghost fits = { λ _. Unit {0} };

    ghost one_input = { true };

    ghost op = { filtered T.passes };

    ghost reach = { λ _. Some 0 };

    ghost stands = { λ o test left right w. (o.test ≡ test) × AreTaken w left right };

    fn begin(alloc: Global, spec: &T) -> Result<Self, Memory> {
        Ok(Filter { test: spec.copy()? })
    }

    fn advance(
        self,
        alloc: Global,
        left: &[Stamped],
        right: &[Stamped],
        upto: Moment,
    ) -> Result<(Self, Seq<Stamped>), Memory> {
        let mut passing = Seq::empty(alloc);
        for row in left {
            if self.test.test(alloc, row)? {
                passing.push(row.copy()?)?;
            }
        }
        Ok((self, passing))
    }

    ghost stands_only = { record {
      fitting = λ o test left right w stands. tt;
      taken = λ o test left right w stands. stands.1;
    } };

    ghost laws = { filtered-laws T.passes };
}
