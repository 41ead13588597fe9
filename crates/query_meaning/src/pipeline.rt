//! `Pipeline`, the operators of a plan's steps.

ghost use Rattle.std.specs.Prelude.{◌≡◌, ◌≤◌, ◌∷◌, ℕ, List, [], map, length, IfOk};
ghost use Rattle.event_value.specs.declared.record.Stamped.{Stamped};
ghost use Rattle.query_meaning.specs.Lists.{AllInOrder, AreNew, all_between, behind_each};
ghost use Rattle.query_meaning.specs.Meaning.{no_rows, output_rows};
ghost use Rattle.query_meaning.specs.Pipeline.{Advances, AreGiven, IsAt, IsGiven, TakesPiece};
ghost use Rattle.query_meaning.specs.Steps as spec;
ghost use Rattle.query_meaning.specs.declared.step_op.StepOp.{StepOp};
ghost use Rattle.stream_op.specs.Rows.{between};

use crate::pieces::{longest_of, moment_within, rows_between};
use crate::{ReadyPlan, ReadyStep, StepOp};
use event_value::{Memory, Seq, Stamped};
use query_plan::{Output, Step};
use std::alloc::Global;
use stream_op::{StreamOp, push_rows};
use tick_time::Moment;

// A step holds copies of its rows until those of the last step are there, so the rows of the
// streams are taken piece by piece: this many at a time of the stream that has most.
const PIECE: usize = 32_768;

/// The operators of a plan's steps, one for each, and the moment below which they were given all
/// rows.
#[derive(Drop)]
pub struct Pipeline {
    ops: Seq<StepOp>,
    upto: Moment,
}

impl Pipeline {
    /// The operators of a plan that were given no rows.
    ///
    /// # Errors
    /// `Memory` where there was none for them.
    pub fn begin(alloc: Global, plan: &ReadyPlan) -> Result<Pipeline, Memory>
        ensures { IfOk result (λ begun. (streams : List (List Stamped)) → AllInOrder streams
            → IsAt begun plan.now streams 0) }
    {
        let mut ops = Seq::empty(alloc);
        let steps = plan.steps.items();
        for step in steps {
            ops.push(StepOp::begin(alloc, step)?)?;
        }
        let upto = Moment::zero();
        Ok(Pipeline { ops, upto })
    }

    /// Takes the next rows of the plan's streams, which are then complete below `upto`, and
    /// answers the rows of each output from the last such moment to below this one. Rows before
    /// that moment, and those at `upto` or later, are passed over.
    ///
    /// # Errors
    /// `Memory` where there was none; the pipeline is then given up.
    pub fn advance(
        self,
        alloc: Global,
        plan: &ReadyPlan,
        sources: &[Seq<Stamped>],
        upto: Moment,
    ) -> Result<(Pipeline, Seq<Seq<Stamped>>), Memory>
        ensures { IfOk result (λ (next, rows). Advances self plan.now sources.now upto
            next rows) }
    {
        let mut pipeline = self;
        let mut rows = no_rows_yet(alloc, plan.outputs.items())?;
        let most = longest_of(sources);
        for piece in 1..most.len() / PIECE + 1 {
            let moment = moment_within(most[piece * PIECE - 1].time, pipeline.upto, upto);
            let (next, given) = pipeline.take_piece(alloc, plan, sources, moment, rows)?;
            pipeline = next;
            rows = given;
        }
        let (pipeline, rows) = pipeline.take_piece(alloc, plan, sources, upto, rows)?;
        Ok((pipeline, rows))
    }

    // Takes the rows of the streams from where it is to below `upto`, and puts the new rows of the
    // outputs behind those that were given.
    fn take_piece(
        self,
        alloc: Global,
        plan: &ReadyPlan,
        sources: &[Seq<Stamped>],
        upto: Moment,
        given: Seq<Seq<Stamped>>,
    ) -> Result<(Pipeline, Seq<Seq<Stamped>>), Memory>
        ensures { IfOk result (λ (next, rows). TakesPiece self plan.now sources.now upto given
            next rows) }
    {
        let steps = plan.steps.items();
        let ops = self.ops.into_vec();
        let (ops, done) = advance_steps(alloc, ops, steps, sources, self.upto, upto)?;
        let rows = with_outputs(alloc, given, plan.outputs.items(), done.items())?;
        Ok((Pipeline { ops, upto }, rows))
    }
}

// An empty list for each output.
fn no_rows_yet(alloc: Global, outputs: &[Output]) -> Result<Seq<Seq<Stamped>>, Memory>
    ensures { IfOk result (λ rows. rows ≡ map no_rows outputs.now) }
{
    let mut rows = Seq::empty(alloc);
    for output in outputs {
        rows.push(Seq::empty(alloc))?;
    }
    Ok(rows)
}

// Advances the operators of steps, each by the new rows of the steps before it; with their new rows.
fn advance_steps(
    alloc: Global,
    ops: Vec<StepOp>,
    steps: &[ReadyStep],
    sources: &[Seq<Stamped>],
    from: Moment,
    upto: Moment,
) -> Result<(Seq<StepOp>, Seq<Seq<Stamped>>), Memory>
    ensures { IfOk result (λ (next, done). (streams : List (List Stamped)) → from ≤ upto
        → AllInOrder streams → AreNew from upto streams sources.now
        → AreGiven streams [] ops.items steps.now from
        → (done ≡ all_between from upto (spec.rows_of_steps streams steps.now))
        × AreGiven streams [] next steps.now upto) }
{
    let mut rest = ops;
    let mut next = Seq::empty(alloc);
    let mut done = Seq::empty(alloc);
    for step in steps {
        let op = take_first(&mut rest);
        let (op, rows) = advance_step(alloc, op, step, sources, done.items(), from, upto)?;
        next.push(op)?;
        done.push(rows)?;
    }
    Ok((next, done))
}

// Takes the first operator out, if there is one.
fn take_first(ops: &mut Vec<StepOp>) -> StepOp
    ensures { (op : StepOp) (rest : List StepOp) → ops.old.items ≡ op ∷ rest
        → (result ≡ op) × (ops.new.items ≡ rest) }
{
    if ops.is_empty() {
        StepOp::Nothing
    } else {
        ops.remove(0)
    }
}

// Advances the operator of a step by the new rows of its inputs, those between two moments.
fn advance_step(
    alloc: Global,
    op: StepOp,
    step: &ReadyStep,
    sources: &[Seq<Stamped>],
    done: &[Seq<Stamped>],
    from: Moment,
    upto: Moment,
) -> Result<(StepOp, Seq<Stamped>), Memory>
    ensures { IfOk result (λ (next, rows). (streams before : List (List Stamped)) → from ≤ upto
        → AllInOrder streams → AllInOrder before → AreNew from upto streams sources.now
        → done.now ≡ all_between from upto before
        → IsGiven streams before op step.now from
        → (rows ≡ between from upto (spec.step_rows streams before step.now))
        × IsGiven streams before next step.now upto) }
{
    let left = rows_between(first_rows(sources, done, &step.step), from, upto);
    let right = second_rows(done, &step.step);
    let (next, rows) = op.advance(alloc, left, right, upto)?;
    Ok((next, rows))
}

// The rows of a step's first input.
fn first_rows<'a>(
    sources: &'a [Seq<Stamped>],
    done: &'a [Seq<Stamped>],
    step: &Step,
) -> &'a [Stamped]
    ensures { result.now ≡ spec.first_rows sources.now done.now step.now }
{
    match step {
        Step::Source { index } => list_at(sources, *index),
        Step::Filter { from, .. }
        | Step::Project { from, .. }
        | Step::Grid { from, .. }
        | Step::Snapshot { from, .. }
        | Step::Sliding { from, .. }
        | Step::Session { from, .. } => list_at(done, *from),
        Step::Union { first, .. } => list_at(done, *first),
        Step::Join { left, .. } | Step::Lookup { left, .. } => list_at(done, *left),
    }
}

// The rows of a step's second input, if it has one.
fn second_rows<'a>(done: &'a [Seq<Stamped>], step: &Step) -> &'a [Stamped]
    ensures { result.now ≡ spec.second_rows done.now step.now }
{
    match step {
        Step::Union { second, .. } => list_at(done, *second),
        Step::Join { right, .. } => list_at(done, *right),
        _ => &[],
    }
}

// The rows at a place; none where there is no such place.
fn list_at(lists: &[Seq<Stamped>], place: u16) -> &[Stamped]
    ensures { result.now ≡ spec.list_at lists.now place }
{
    match lists.get(place as usize) {
        None => &[],
        Some(rows) => rows.items(),
    }
}

// The rows that were given of each output, with copies of the new rows of its step behind them.
fn with_outputs(
    alloc: Global,
    given: Seq<Seq<Stamped>>,
    outputs: &[Output],
    done: &[Seq<Stamped>],
) -> Result<Seq<Seq<Stamped>>, Memory>
    ensures { IfOk result (λ rows. length given ≡ length outputs.now
        → rows ≡ behind_each given (map (output_rows done.now) outputs.now)) }
{
    let mut rest = given.into_vec();
    let mut rows = Seq::empty(alloc);
    for output in outputs {
        let mut list = take_rows(alloc, &mut rest);
        push_rows(&mut list, list_at(done, output.step))?;
        rows.push(list)?;
    }
    Ok(rows)
}

// Takes the first list out; an empty one where there is none.
fn take_rows(alloc: Global, lists: &mut Vec<Seq<Stamped>>) -> Seq<Stamped>
    ensures { (rows : List Stamped) (rest : List (List Stamped)) → lists.old.items ≡ rows ∷ rest
        → (result ≡ rows) × (lists.new.items ≡ rest) }
{
    if lists.is_empty() {
        Seq::empty(alloc)
    } else {
        lists.remove(0)
    }
}
