//! `Project`, rows of values that are built from those of other rows.

ghost use Rattle.std.specs.Prelude.{◌≡◌, ℕ, List, [], true, IfOk, Option, Some};
ghost use Rattle.event_value.specs.declared.record.Stamped.{Stamped};
ghost use Rattle.event_value.specs.declared.value.Value.{Value};
ghost use Rattle.stream_op.specs.OperatorLaws.{projected-laws};
ghost use Rattle.stream_op.specs.Operators.{projected};
ghost use Rattle.stream_op.specs.Rows.{AreTaken};

use crate::StreamOp;
use event_value::{Copies, Memory, Seq, Stamped, Value};
use std::alloc::Global;
use tick_time::Moment;

/// How the values of a row are built from those of another.
pub trait RowBuild: Copies {
    /// The values that are built from a row.
    ghost built: { Self → Stamped → List Value };

    /// The values that are built from a row.
    ///
    /// # Errors
    /// `Memory` where there was none for them.
    fn build(&self, alloc: Global, row: &Stamped) -> Result<Seq<Value>, Memory>
        ensures { IfOk result (λ values. values ≡ built self.now row.now) };
}

/// For each row one of the same time, of the values that are built from it.
#[derive(Drop)]
pub struct Project<B> {
    build: B,
}

impl<B: RowBuild> StreamOp for Project<B> {
    type Spec = B;

    ghost fits = { λ _. Unit {0} };

    ghost one_input = { true };

    ghost op = { projected B.built };

    ghost reach = { λ _. Some 0 };

    ghost stands = { λ o build left right w. (o.build ≡ build) × AreTaken w left right };

    fn begin(alloc: Global, spec: &B) -> Result<Self, Memory> {
        Ok(Project {
            build: spec.copy()?,
        })
    }

    fn advance(
        self,
        alloc: Global,
        left: &[Stamped],
        right: &[Stamped],
        upto: Moment,
    ) -> Result<(Self, Seq<Stamped>), Memory> {
        let mut built = Seq::empty(alloc);
        for row in left {
            let values = self.build.build(alloc, row)?;
            built.push(Stamped {
                time: row.time,
                values,
            })?;
        }
        Ok((self, built))
    }

    ghost stands_only = { record {
      fitting = λ o build left right w stands. tt;
      taken = λ o build left right w stands. stands.1;
    } };

    ghost laws = { projected-laws B.built };
}
