//! `StreamOp`, an operator on streams of rows.

ghost use Rattle.std.specs.Prelude.{◌≡◌, ℕ, List, [], Bool, true, IfOk, Option};
ghost use Rattle.event_value.specs.declared.record.Stamped.{Stamped};
ghost use Rattle.stream_op.specs.Laws.{Advances, StandsOnly, StreamLaws};

use event_value::{Memory, Seq, Stamped};
use std::alloc::Global;
use tick_time::Moment;

/// An operator on one or two streams of rows, which is given their rows piece by piece.
pub trait StreamOp {
    /// What an operator is begun with.
    type Spec;

    /// What may be begun with.
    ghost fits: { Self.Spec → Type 0 };

    /// There is only a left input: the right list is always empty.
    ghost one_input: { Bool };

    /// The meaning: from the whole lists of both inputs to a whole list.
    ghost op: { Self.Spec → List Stamped → List Stamped → List Stamped };

    /// How far back of a row its input may lie, in ticks, where there is such a number.
    ghost reach: { Self.Spec → Option ℕ };

    /// The value was given these left and right rows, which are all that are below this moment.
    ghost stands: { Self → Self.Spec → List Stamped → List Stamped → ℕ → Type 0 };

    /// An operator that was given no rows.
    ///
    /// # Errors
    /// `Memory` where there was none for it.
    fn begin(alloc: Global, spec: &Self::Spec) -> Result<Self, Memory>
        requires { fits spec.now }
        ensures { IfOk result (λ begun. stands begun spec.now [] [] 0) };

    /// Takes the next rows of both inputs, which are then complete below `upto`, and answers the
    /// rows of the meaning from the last such moment to below this one.
    ///
    /// # Errors
    /// `Memory` where there was none; the operator is then given up.
    fn advance(
        self,
        alloc: Global,
        left: &[Stamped],
        right: &[Stamped],
        upto: Moment,
    ) -> Result<(Self, Seq<Stamped>), Memory>
        requires { one_input ≡ true → right.now ≡ [] }
        ensures { IfOk result (λ (new, rows).
            Advances op stands self left.now right.now upto new rows) };

    /// A value stands only for what fits, and for rows in order below its moment.
    ghost stands_only: { StandsOnly fits stands };

    /// The laws of the meaning.
    ghost laws: { StreamLaws fits op reach };
}
