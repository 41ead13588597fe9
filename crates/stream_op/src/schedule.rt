//! `run_pieces`: every way to cut the input of an operator gives the rows of its meaning.

ghost use Rattle.std.specs.Prelude.{◌≡◌, true, IfOk};
ghost use Rattle.stream_op.specs.Schedule.{AreInTurn, HaveNoRights, answers_of};

use crate::{StreamOp, push_rows};
use event_value::{Memory, Seq, Stamped};
use std::alloc::Global;
use tick_time::Moment;

/// The next rows of both inputs, and the moment below which these are then complete.
#[derive(Drop)]
pub struct Piece {
    /// The next left rows.
    pub left: Seq<Stamped>,
    /// The next right rows.
    pub right: Seq<Stamped>,
    /// Both inputs are complete below it.
    pub upto: Moment,
}

/// The answers of an operator that is given its input piece by piece, behind each other: the rows
/// of its meaning over all rows, below the last moment.
///
/// # Errors
/// `Memory` where there was none.
pub fn run_pieces<O: StreamOp + Drop>(
    alloc: Global,
    spec: &O::Spec,
    pieces: &[Piece],
) -> Result<Seq<Stamped>, Memory>
    requires fits { O.fits spec.now }
    requires in_turn { AreInTurn 0 pieces.now }
    requires one_input { O.one_input ≡ true → HaveNoRights pieces.now }
    ensures { IfOk result (λ rows.
        rows ≡ answers_of (O.op spec.now) pieces.now) }
{
    let mut operator = O::begin(alloc, spec)?;
    let mut rows = Seq::empty(alloc);
    for piece in pieces {
        let (next, more) = operator.advance(
            alloc,
            piece.left.items(),
            piece.right.items(),
            piece.upto,
        )?;
        operator = next;
        push_rows(&mut rows, more.items())?;
    }
    Ok(rows)
}
