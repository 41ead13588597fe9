//! `ReadyPlan`, a plan with what its joins take from elsewhere: how many columns they join to each
//! row, and the snapshots of references.

ghost use Rattle.std.specs.Prelude.{◌≡◌, ◌+◌, IfOk, map};
ghost use Rattle.query_meaning.specs.Ready as spec;

use event_value::{Copies, Memory, Seq};
use input_types::Inputs;
use query_plan::{Output, Plan, Step, StreamUse};
use std::alloc::Global;
use stream_joins::Versions;

/// A step of a plan that is ready to run.
#[derive(Drop)]
pub struct ReadyStep {
    /// The step.
    pub step: Step,
    /// The number of columns that it joins to each row.
    pub width: u16,
    /// The snapshots in which it looks rows up.
    pub versions: Versions,
}

/// A plan that is ready to run.
#[derive(Drop)]
pub struct ReadyPlan {
    /// The streams that it uses.
    pub streams: Seq<StreamUse>,
    /// Its steps.
    pub steps: Seq<ReadyStep>,
    /// Its outputs.
    pub outputs: Seq<Output>,
}

/// A plan over the inputs of a job, with the snapshots of each reference that it names, in its
/// order.
///
/// # Errors
/// `Memory` where there was none for it, or rows have 2^16 columns or more.
pub fn ready_plan(
    alloc: Global,
    plan: &Plan,
    inputs: &Inputs,
    versions: &[Versions],
) -> Result<ReadyPlan, Memory>
    ensures { IfOk result (λ ready. ready ≡ spec.ready_plan plan.now inputs.now versions.now) }
{
    let streams = stream_widths(alloc, inputs, plan.streams.items())?;
    let references = reference_widths(alloc, inputs, plan.references.items())?;
    ready_over(alloc, plan, streams.items(), references.items(), versions)
}

// How many columns the streams have that a plan uses.
fn stream_widths(alloc: Global, inputs: &Inputs, uses: &[StreamUse]) -> Result<Seq<u16>, Memory>
    ensures { IfOk result (λ widths. widths ≡ map (spec.stream_width inputs.now) uses.now) }
{
    let mut widths = Seq::empty(alloc);
    for used in uses {
        widths.push(stream_width(inputs, used)?)?;
    }
    Ok(widths)
}

fn stream_width(inputs: &Inputs, used: &StreamUse) -> Result<u16, Memory>
    ensures { IfOk result (λ width. width ≡ spec.stream_width inputs.now used.now) }
{
    match inputs.streams.items().get(used.stream as usize) {
        None => Ok(0),
        Some(stream) => sum_of(0, stream.columns.items().len()),
    }
}

// How many columns the references have that a plan names.
fn reference_widths(alloc: Global, inputs: &Inputs, numbers: &[u16]) -> Result<Seq<u16>, Memory>
    ensures { IfOk result (λ widths. widths ≡ map (spec.reference_width inputs.now) numbers.now) }
{
    let mut widths = Seq::empty(alloc);
    for number in numbers {
        widths.push(reference_width(inputs, *number)?)?;
    }
    Ok(widths)
}

fn reference_width(inputs: &Inputs, number: u16) -> Result<u16, Memory>
    ensures { IfOk result (λ width. width ≡ spec.reference_width inputs.now number) }
{
    match inputs.references.items().get(number as usize) {
        None => Ok(0),
        Some(reference) => sum_of(0, reference.columns.items().len()),
    }
}

// A plan over streams and references with so many columns each, and over these snapshots.
pub(crate) fn ready_over(
    alloc: Global,
    plan: &Plan,
    streams: &[u16],
    references: &[u16],
    versions: &[Versions],
) -> Result<ReadyPlan, Memory>
    ensures { IfOk result (λ ready.
        ready ≡ spec.ready_over plan.now streams.now references.now versions.now) }
{
    let steps = plan.steps.items();
    let widths = widths_of(alloc, streams, references, steps)?;
    Ok(ReadyPlan {
        streams: plan.streams.copy()?,
        steps: ready_steps(alloc, references, widths.items(), versions, steps)?,
        outputs: plan.outputs.copy()?,
    })
}

// The steps with what they join, by the numbers of columns of the references and of all steps.
fn ready_steps(
    alloc: Global,
    references: &[u16],
    widths: &[u16],
    versions: &[Versions],
    steps: &[Step],
) -> Result<Seq<ReadyStep>, Memory>
    ensures { IfOk result (λ ready.
        ready ≡ spec.ready_steps references.now widths.now versions.now steps.now) }
{
    let mut ready = Seq::empty(alloc);
    for step in steps {
        ready.push(ready_step(alloc, references, widths, versions, step)?)?;
    }
    Ok(ready)
}

// A step with what it joins.
fn ready_step(
    alloc: Global,
    references: &[u16],
    widths: &[u16],
    versions: &[Versions],
    step: &Step,
) -> Result<ReadyStep, Memory>
    ensures { IfOk result (λ ready.
        ready ≡ spec.ready_step references.now widths.now versions.now step.now) }
{
    Ok(ReadyStep {
        step: step.copy(alloc)?,
        width: joined_width(references, widths, step),
        versions: joined_versions(alloc, versions, step)?,
    })
}

// How many columns a step joins to each row.
fn joined_width(references: &[u16], widths: &[u16], step: &Step) -> u16
    ensures { result ≡ spec.joined_width references.now widths.now step.now }
{
    match step {
        Step::Join { right, .. } => width_at(widths, *right),
        Step::Lookup { reference, .. } => width_at(references, *reference),
        _ => 0,
    }
}

// The snapshots in which a step looks rows up.
fn joined_versions(alloc: Global, versions: &[Versions], step: &Step) -> Result<Versions, Memory>
    ensures { IfOk result (λ joined. joined ≡ spec.joined_snapshots versions.now step.now) }
{
    match step {
        Step::Lookup { reference, .. } => match versions.get(*reference as usize) {
            None => Versions::of(&[], Seq::empty(alloc)),
            Some(versions) => versions.copy(),
        },
        _ => Versions::of(&[], Seq::empty(alloc)),
    }
}

// The number at a place; 0 where there is no such place.
fn width_at(widths: &[u16], place: u16) -> u16
    ensures { result ≡ spec.width_at widths.now place }
{
    match widths.get(place as usize) {
        None => 0,
        Some(width) => *width,
    }
}

// The numbers of columns of the rows of all steps.
fn widths_of(
    alloc: Global,
    streams: &[u16],
    references: &[u16],
    steps: &[Step],
) -> Result<Seq<u16>, Memory>
    ensures { IfOk result (λ widths.
        widths ≡ spec.widths_of streams.now references.now steps.now) }
{
    let mut done = Seq::empty(alloc);
    for step in steps {
        let width = width_of(streams, references, done.items(), step)?;
        done.push(width)?;
    }
    Ok(done)
}

// How many columns the rows of a step have.
fn width_of(streams: &[u16], references: &[u16], done: &[u16], step: &Step) -> Result<u16, Memory>
    ensures { IfOk result (λ width.
        width ≡ spec.width_of streams.now references.now done.now step.now) }
{
    match step {
        Step::Source { index } => Ok(width_at(streams, *index)),
        Step::Filter { from, .. } => Ok(width_at(done, *from)),
        Step::Union { first, .. } => Ok(width_at(done, *first)),
        Step::Project { exprs, .. } => sum_of(0, exprs.items().len()),
        Step::Grid { keys, aggs, .. }
        | Step::Snapshot { keys, aggs, .. }
        | Step::Sliding { keys, aggs, .. }
        | Step::Session { keys, aggs, .. } => sum_of(*keys, aggs.items().len()),
        Step::Join { left, right, .. } => sum_of(
            width_at(done, *left),
            width_at(done, *right) as usize,
        ),
        Step::Lookup {
            left,
            reference,
            ..
        } => sum_of(
            width_at(done, *left),
            width_at(references, *reference) as usize,
        ),
    }
}

// The sum of two numbers; one of 2^16 or more is want of memory.
fn sum_of(first: u16, second: usize) -> Result<u16, Memory>
    ensures { IfOk result (λ sum. sum ≡ first + second) }
{
    match u16::try_from(second) {
        Err(_) => Err(Memory),
        Ok(second) => match first.checked_add(second) {
            None => Err(Memory),
            Some(sum) => Ok(sum),
        },
    }
}
