//! How the operator of a step of each kind is begun.

ghost use Rattle.std.specs.Prelude.{◌≡◌, ℕ, [], IfOk};
ghost use Rattle.query_plan.specs.declared.plan.Step.TheVariants as kinds;
ghost use Rattle.query_meaning.specs.Pipeline.{has_taken};
ghost use Rattle.query_meaning.specs.declared.ready.ReadyStep.{ReadyStep};

use crate::step_op::{boxed_join, boxed_window};
use crate::{JoinOp, ReadyStep, RowCond, RowExprs, StepOp, WindowOp};
use event_value::{Aggregate, Copies, Memory, Seq};
use query_plan::{Cond, Expr};
use std::alloc::Global;
use stream_joins::{BoundJoin, BoundSpec, JoinCond, ReferenceJoin, ReferenceSpec};
use stream_op::{Filter, Project, StreamOp, Union};
use tick_time::Span;
use window_flow::{Session, SessionSpec, Sliding, SlidingSpec};
use window_grid::{Grid, GridSpec, Snapshot, SnapshotSpec};

/// The operator of a filter.
pub fn begin_filter(alloc: Global, cond: &Cond) -> Result<StepOp, Memory>
    ensures { IfOk result (λ op. (s : ReadyStep) (from : ℕ)
        → s.step ≡ kinds.Filter from cond.now → has_taken op s [] [] 0) }
{
    let test = RowCond::of(alloc, cond)?;
    Ok(StepOp::Filter(Filter::begin(alloc, &test)?))
}

/// The operator of a projection.
pub fn begin_project(alloc: Global, exprs: &[Expr]) -> Result<StepOp, Memory>
    ensures { IfOk result (λ op. (s : ReadyStep) (from : ℕ)
        → s.step ≡ kinds.Project from exprs.now → has_taken op s [] [] 0) }
{
    let build = RowExprs::of(alloc, exprs)?;
    Ok(StepOp::Project(Project::begin(alloc, &build)?))
}

/// The operator of a union.
pub fn begin_union(alloc: Global) -> Result<StepOp, Memory>
    ensures { IfOk result (λ op. (s : ReadyStep) (first second : ℕ)
        → s.step ≡ kinds.Union first second → has_taken op s [] [] 0) }
{
    Ok(StepOp::Union(Union::begin(alloc, &())?))
}

/// The operator of a grid.
pub fn begin_grid(
    alloc: Global,
    size: Span,
    hop: Span,
    offset: Span,
    keys: u16,
    aggs: &Seq<Aggregate>,
) -> Result<StepOp, Memory>
    ensures { IfOk result (λ op. (s : ReadyStep) (from : ℕ)
        → s.step ≡ kinds.Grid from size hop offset keys aggs.now → has_taken op s [] [] 0) }
{
    let window = GridSpec {
        size,
        hop,
        offset,
        keys,
        aggs: aggs.copy()?,
    };
    if !window.fits() {
        return Ok(StepOp::Nothing);
    }
    boxed_window(alloc, WindowOp::Grid(Grid::begin(alloc, &window)?))
}

/// The operator of a snapshot.
pub fn begin_snapshot(alloc: Global, keys: u16, aggs: &Seq<Aggregate>) -> Result<StepOp, Memory>
    ensures { IfOk result (λ op. (s : ReadyStep) (from : ℕ)
        → s.step ≡ kinds.Snapshot from keys aggs.now → has_taken op s [] [] 0) }
{
    let window = SnapshotSpec {
        keys,
        aggs: aggs.copy()?,
    };
    boxed_window(alloc, WindowOp::Snapshot(Snapshot::begin(alloc, &window)?))
}

/// The operator of a sliding window.
pub fn begin_sliding(
    alloc: Global,
    size: Span,
    keys: u16,
    aggs: &Seq<Aggregate>,
) -> Result<StepOp, Memory>
    ensures { IfOk result (λ op. (s : ReadyStep) (from : ℕ)
        → s.step ≡ kinds.Sliding from size keys aggs.now → has_taken op s [] [] 0) }
{
    let window = SlidingSpec {
        size,
        keys,
        aggs: aggs.copy()?,
    };
    if !window.fits() {
        return Ok(StepOp::Nothing);
    }
    boxed_window(alloc, WindowOp::Sliding(Sliding::begin(alloc, &window)?))
}

/// The operator of a session window.
pub fn begin_session(
    alloc: Global,
    timeout: Span,
    most: Span,
    parts: u16,
    keys: u16,
    aggs: &Seq<Aggregate>,
) -> Result<StepOp, Memory>
    ensures { IfOk result (λ op. (s : ReadyStep) (from : ℕ)
        → s.step ≡ kinds.Session from timeout most parts keys aggs.now → has_taken op s [] [] 0) }
{
    let window = SessionSpec {
        timeout,
        most,
        parts,
        keys,
        aggs: aggs.copy()?,
    };
    if !window.fits() {
        return Ok(StepOp::Nothing);
    }
    boxed_window(alloc, WindowOp::Session(Session::begin(alloc, &window)?))
}

/// The operator of a join within a bound.
pub fn begin_join(
    alloc: Global,
    step: &ReadyStep,
    low: Span,
    high: Span,
    cond: &Cond,
    outer: bool,
) -> Result<StepOp, Memory>
    ensures { IfOk result (λ op. (first second : ℕ)
        → step.now.step ≡ kinds.Join first second low high cond.now outer
        → has_taken op step.now [] [] 0) }
{
    let join = BoundSpec {
        matches: JoinCond::of(alloc, cond)?,
        low,
        high,
        outer,
        width: step.width,
    };
    boxed_join(alloc, JoinOp::Bound(BoundJoin::begin(alloc, &join)?))
}

/// The operator of a join with a reference.
pub fn begin_lookup(
    alloc: Global,
    step: &ReadyStep,
    cond: &Cond,
    outer: bool,
) -> Result<StepOp, Memory>
    ensures { IfOk result (λ op. (first reference : ℕ)
        → step.now.step ≡ kinds.Lookup first reference cond.now outer
        → has_taken op step.now [] [] 0) }
{
    let lookup = ReferenceSpec {
        matches: JoinCond::of(alloc, cond)?,
        versions: step.versions.copy()?,
        outer,
        width: step.width,
    };
    boxed_join(alloc, JoinOp::Lookup(ReferenceJoin::begin(alloc, &lookup)?))
}
