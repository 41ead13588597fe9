//! How the operator of a step of each kind goes on.

ghost use Rattle.std.specs.Prelude.{IfOk};
ghost use Rattle.query_meaning.specs.Pipeline.{GoesOn};
ghost use Rattle.query_meaning.specs.declared.step_op.JoinOp.TheVariants as join;
ghost use Rattle.query_meaning.specs.declared.step_op.StepOp.TheVariants as kind;
ghost use Rattle.query_meaning.specs.declared.step_op.WindowOp.TheVariants as window;

use crate::step_op::{boxed_join, boxed_window};
use crate::{JoinOp, RowCond, RowExprs, StepOp, WindowOp};
use event_value::{Memory, Seq, Stamped};
use std::alloc::Global;
use stream_joins::{BoundJoin, JoinCond, ReferenceJoin};
use stream_op::{Filter, Project, StreamOp, Union};
use tick_time::Moment;
use window_flow::{Session, Sliding};
use window_grid::{Grid, Snapshot};

/// A filter, which has one input.
pub fn advance_filter(
    alloc: Global,
    op: Filter<RowCond>,
    left: &[Stamped],
    right: &[Stamped],
    upto: Moment,
) -> Result<(StepOp, Seq<Stamped>), Memory>
    ensures { IfOk result (λ (next, rows).
        GoesOn (kind.Filter op) left.now right.now upto next rows) }
{
    let (op, rows) = op.advance(alloc, left, &[], upto)?;
    Ok((StepOp::Filter(op), rows))
}

/// A projection, which has one input.
pub fn advance_project(
    alloc: Global,
    op: Project<RowExprs>,
    left: &[Stamped],
    right: &[Stamped],
    upto: Moment,
) -> Result<(StepOp, Seq<Stamped>), Memory>
    ensures { IfOk result (λ (next, rows).
        GoesOn (kind.Project op) left.now right.now upto next rows) }
{
    let (op, rows) = op.advance(alloc, left, &[], upto)?;
    Ok((StepOp::Project(op), rows))
}

/// A union.
pub fn advance_union(
    alloc: Global,
    op: Union,
    left: &[Stamped],
    right: &[Stamped],
    upto: Moment,
) -> Result<(StepOp, Seq<Stamped>), Memory>
    ensures { IfOk result (λ (next, rows).
        GoesOn (kind.Union op) left.now right.now upto next rows) }
{
    let (op, rows) = op.advance(alloc, left, right, upto)?;
    Ok((StepOp::Union(op), rows))
}

/// A window.
pub fn advance_window(
    alloc: Global,
    op: WindowOp,
    left: &[Stamped],
    right: &[Stamped],
    upto: Moment,
) -> Result<(StepOp, Seq<Stamped>), Memory>
    ensures { IfOk result (λ (next, rows).
        GoesOn (kind.Window op) left.now right.now upto next rows) }
{
    match op {
        WindowOp::Grid(op) => advance_grid(alloc, op, left, right, upto),
        WindowOp::Snapshot(op) => advance_snapshot(alloc, op, left, right, upto),
        WindowOp::Sliding(op) => advance_sliding(alloc, op, left, right, upto),
        WindowOp::Session(op) => advance_session(alloc, op, left, right, upto),
    }
}

// A grid, which has one input.
fn advance_grid(
    alloc: Global,
    op: Grid,
    left: &[Stamped],
    right: &[Stamped],
    upto: Moment,
) -> Result<(StepOp, Seq<Stamped>), Memory>
    ensures { IfOk result (λ (next, rows).
        GoesOn (kind.Window (window.Grid op)) left.now right.now upto next rows) }
{
    let (op, rows) = op.advance(alloc, left, &[], upto)?;
    let next = boxed_window(alloc, WindowOp::Grid(op))?;
    Ok((next, rows))
}

// A snapshot, which has one input.
fn advance_snapshot(
    alloc: Global,
    op: Snapshot,
    left: &[Stamped],
    right: &[Stamped],
    upto: Moment,
) -> Result<(StepOp, Seq<Stamped>), Memory>
    ensures { IfOk result (λ (next, rows).
        GoesOn (kind.Window (window.Snapshot op)) left.now right.now upto next rows) }
{
    let (op, rows) = op.advance(alloc, left, &[], upto)?;
    let next = boxed_window(alloc, WindowOp::Snapshot(op))?;
    Ok((next, rows))
}

// A sliding window, which has one input.
fn advance_sliding(
    alloc: Global,
    op: Sliding,
    left: &[Stamped],
    right: &[Stamped],
    upto: Moment,
) -> Result<(StepOp, Seq<Stamped>), Memory>
    ensures { IfOk result (λ (next, rows).
        GoesOn (kind.Window (window.Sliding op)) left.now right.now upto next rows) }
{
    let (op, rows) = op.advance(alloc, left, &[], upto)?;
    let next = boxed_window(alloc, WindowOp::Sliding(op))?;
    Ok((next, rows))
}

// A session window, which has one input.
fn advance_session(
    alloc: Global,
    op: Session,
    left: &[Stamped],
    right: &[Stamped],
    upto: Moment,
) -> Result<(StepOp, Seq<Stamped>), Memory>
    ensures { IfOk result (λ (next, rows).
        GoesOn (kind.Window (window.Session op)) left.now right.now upto next rows) }
{
    let (op, rows) = op.advance(alloc, left, &[], upto)?;
    let next = boxed_window(alloc, WindowOp::Session(op))?;
    Ok((next, rows))
}

/// A join.
pub fn advance_join(
    alloc: Global,
    op: JoinOp,
    left: &[Stamped],
    right: &[Stamped],
    upto: Moment,
) -> Result<(StepOp, Seq<Stamped>), Memory>
    ensures { IfOk result (λ (next, rows).
        GoesOn (kind.Join op) left.now right.now upto next rows) }
{
    match op {
        JoinOp::Bound(op) => advance_bound(alloc, op, left, right, upto),
        JoinOp::Lookup(op) => advance_lookup(alloc, op, left, right, upto),
    }
}

// A join within a bound.
fn advance_bound(
    alloc: Global,
    op: BoundJoin<JoinCond>,
    left: &[Stamped],
    right: &[Stamped],
    upto: Moment,
) -> Result<(StepOp, Seq<Stamped>), Memory>
    ensures { IfOk result (λ (next, rows).
        GoesOn (kind.Join (join.Bound op)) left.now right.now upto next rows) }
{
    let (op, rows) = op.advance(alloc, left, right, upto)?;
    let next = boxed_join(alloc, JoinOp::Bound(op))?;
    Ok((next, rows))
}

// A join with a reference, which has one input.
fn advance_lookup(
    alloc: Global,
    op: ReferenceJoin<JoinCond>,
    left: &[Stamped],
    right: &[Stamped],
    upto: Moment,
) -> Result<(StepOp, Seq<Stamped>), Memory>
    ensures { IfOk result (λ (next, rows).
        GoesOn (kind.Join (join.Lookup op)) left.now right.now upto next rows) }
{
    let (op, rows) = op.advance(alloc, left, &[], upto)?;
    let next = boxed_join(alloc, JoinOp::Lookup(op))?;
    Ok((next, rows))
}
