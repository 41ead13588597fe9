//! `StepOp`, the operator of a step of a plan, whichever it is.

ghost use Rattle.std.specs.Prelude.{◌≡◌, ℕ, List, [], Bool, false, IfOk, Option};
ghost use Rattle.event_value.specs.declared.record.Stamped.{Stamped};
ghost use Rattle.query_meaning.specs.Steps as spec;
ghost use Rattle.query_meaning.specs.StepLaws.{step-laws, step_reach};
ghost use Rattle.query_meaning.specs.StepOp as runs;
ghost use Rattle.query_meaning.specs.declared.step_op.JoinOp.TheVariants as join;
ghost use Rattle.query_meaning.specs.declared.step_op.StepOp.TheVariants as kind;
ghost use Rattle.query_meaning.specs.declared.step_op.WindowOp.TheVariants as window;
ghost use Rattle.stream_op.specs.Rows.{AreTaken};

use crate::step_advance::{
    advance_filter, advance_join, advance_project, advance_union, advance_window,
};
use crate::step_begin::{
    begin_filter, begin_grid, begin_join, begin_lookup, begin_project, begin_session,
    begin_sliding, begin_snapshot, begin_union,
};
use crate::{ReadyStep, RowCond, RowExprs};
use event_value::{Memory, Seq, Stamped};
use query_plan::Step;
use sqlite_items::Boxed;
use std::alloc::Global;
use stream_joins::{BoundJoin, JoinCond, ReferenceJoin};
use stream_op::{Filter, Project, StreamOp, Union};
use tick_time::Moment;
use window_flow::{Session, Sliding};
use window_grid::{Grid, Snapshot};

/// The operator of a step.
#[derive(Drop)]
pub enum StepOp {
    /// The rows that it is given.
    Same,
    /// The rows where a condition is true.
    Filter(Filter<RowCond>),
    /// Rows of the values of expressions.
    Project(Project<RowExprs>),
    /// The rows of two steps.
    Union(Union),
    /// A window.
    Window(Boxed<WindowOp>),
    /// A join.
    Join(Boxed<JoinOp>),
    /// No rows.
    Nothing,
}

/// The operator of a window. It stands in a box, since a match on an operator is taken apart in
/// the proof to the last field of what it moves.
#[derive(Drop)]
pub enum WindowOp {
    /// The windows of a grid.
    Grid(Grid),
    /// The windows of a snapshot.
    Snapshot(Snapshot),
    /// A sliding window.
    Sliding(Sliding),
    /// A session window.
    Session(Session),
}

/// The operator of a join.
#[derive(Drop)]
pub enum JoinOp {
    /// The pairs of rows of two steps within a bound.
    Bound(BoundJoin<JoinCond>),
    /// Rows with those of a reference.
    Lookup(ReferenceJoin<JoinCond>),
}

impl StreamOp for StepOp {
    type Spec = ReadyStep;

    ghost fits = { λ _. Unit {0} };

    ghost one_input = { false };

    ghost op = { spec.step_meaning };

    ghost reach = { step_reach };

    ghost stands = { λ o step left right w. (elim o [
      | kind.Same ↦ runs.RunsSource step
      | kind.Filter op ↦ runs.RunsFilter (⟦<Filter<RowCond> as StreamOp>⟧.stands op) step left w
      | kind.Project op ↦ runs.RunsProject (⟦<Project<RowExprs> as StreamOp>⟧.stands op) step left w
      | kind.Union op ↦ runs.RunsUnion (⟦<Union as StreamOp>⟧.stands op) step left right w
      | kind.Window op ↦ elim op [
        | window.Grid o ↦ runs.RunsGrid (⟦<Grid as StreamOp>⟧.stands o) step left w
        | window.Snapshot o ↦ runs.RunsSnapshot (⟦<Snapshot as StreamOp>⟧.stands o) step left w
        | window.Sliding o ↦ runs.RunsSliding (⟦<Sliding as StreamOp>⟧.stands o) step left w
        | window.Session o ↦ runs.RunsSession (⟦<Session as StreamOp>⟧.stands o) step left w
      ]
      | kind.Join op ↦ elim op [
        | join.Bound o ↦ runs.RunsJoin (⟦<BoundJoin<JoinCond> as StreamOp>⟧.stands o) step left right w
        | join.Lookup o ↦ runs.RunsLookup (⟦<ReferenceJoin<JoinCond> as StreamOp>⟧.stands o) step left w
      ]
      | kind.Nothing ↦ runs.MakesNothing step
    ]) × AreTaken w left right };

    fn begin(alloc: Global, spec: &ReadyStep) -> Result<Self, Memory> {
        match &spec.step {
            Step::Source { .. } => Ok(StepOp::Same),
            Step::Filter { cond, .. } => begin_filter(alloc, cond),
            Step::Project { exprs, .. } => begin_project(alloc, exprs.items()),
            Step::Union { .. } => begin_union(alloc),
            Step::Grid {
                size,
                hop,
                offset,
                keys,
                aggs,
                ..
            } => begin_grid(alloc, *size, *hop, *offset, *keys, aggs),
            Step::Snapshot { keys, aggs, .. } => begin_snapshot(alloc, *keys, aggs),
            Step::Sliding {
                size,
                keys,
                aggs,
                ..
            } => begin_sliding(alloc, *size, *keys, aggs),
            Step::Session {
                timeout,
                most,
                parts,
                keys,
                aggs,
                ..
            } => begin_session(alloc, *timeout, *most, *parts, *keys, aggs),
            Step::Join {
                low,
                high,
                cond,
                outer,
                ..
            } => begin_join(alloc, spec, *low, *high, cond, *outer),
            Step::Lookup { cond, outer, .. } => begin_lookup(alloc, spec, cond, *outer),
        }
    }

    fn advance(
        self,
        alloc: Global,
        left: &[Stamped],
        right: &[Stamped],
        upto: Moment,
    ) -> Result<(Self, Seq<Stamped>), Memory> {
        match self {
            StepOp::Same => Ok((StepOp::Same, Seq::of(alloc, left)?)),
            StepOp::Filter(op) => advance_filter(alloc, op, left, right, upto),
            StepOp::Project(op) => advance_project(alloc, op, left, right, upto),
            StepOp::Union(op) => advance_union(alloc, op, left, right, upto),
            StepOp::Window(op) => advance_window(alloc, op.into_inner(), left, right, upto),
            StepOp::Join(op) => advance_join(alloc, op.into_inner(), left, right, upto),
            StepOp::Nothing => Ok((StepOp::Nothing, Seq::empty(alloc))),
        }
    }

    ghost stands_only = { record {
      fitting = λ o spec left right w stands. tt;
      taken = λ o spec left right w stands. stands.1;
    } };

    ghost laws = { step-laws };
}

/// The operator of a window in its box.
pub fn boxed_window(alloc: Global, op: WindowOp) -> Result<StepOp, Memory>
    ensures { IfOk result (λ made. made ≡ kind.Window op) }
{
    Ok(StepOp::Window(Boxed::new(alloc, op)?))
}

/// The operator of a join in its box.
pub fn boxed_join(alloc: Global, op: JoinOp) -> Result<StepOp, Memory>
    ensures { IfOk result (λ made. made ≡ kind.Join op) }
{
    Ok(StepOp::Join(Boxed::new(alloc, op)?))
}
