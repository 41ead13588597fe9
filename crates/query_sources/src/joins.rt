//! The joins of a select: what each adds to the steps, or why it is refused.

ghost use Rattle.std.specs.Prelude.{◌≡◌, IfOk, OnOk};
ghost use Rattle.query_sources.specs.Joins as spec;

use crate::draft::Draft;
use crate::join_conditions::{condition_beside, condition_on, is_outer};
use crate::known::{KnownSource, Origin, known_named};
use crate::sources::{push_scope_source, qualifier, scope_of};
use event_value::{Memory, Seq};
use query_forms::{Cause, Checked};
use query_literals::{Bound, bound_of};
use query_plan::{Cond, Step};
use query_readings::Scope;
use query_tree::{Join, Source, Tail};
use std::alloc::Global;

/// The sources of a select up to a join, and what is joined so far.
#[derive(Drop)]
pub struct Joined {
    /// The sources.
    pub scope: Scope,
    /// Whether a stream is joined.
    pub has_stream: bool,
    /// How many references are joined.
    pub references: usize,
}

// How many references a select may join.
const MAX_REFERENCES: usize = 4;

fn go_on_with_join(
    bound: Bound,
    right: u16,
    outer: bool,
    checked: Checked<Cond>,
    draft: &mut Draft,
) -> Result<(), Memory>
    ensures { OnOk result (draft.new ≡ spec.with_join bound right outer checked draft.old) }
{
    match checked {
        Err(faults) => draft.note_all(faults.items()),
        Ok(cond) => draft.go_on(Step::Join {
            left: draft.last,
            right,
            low: bound.low,
            high: bound.high,
            cond,
            outer,
        }),
    }
}

fn join_bound(
    alloc: Global,
    bound: Bound,
    scope: &Scope,
    right: u16,
    join: &Join,
    draft: &mut Draft,
) -> Result<(), Memory>
    ensures { OnOk result (
        draft.new ≡ spec.bound_joined bound scope.now right join.now draft.old) }
{
    let checked = condition_beside(alloc, scope, bound.part, &join.on)?;
    go_on_with_join(bound, right, is_outer(&join.side), checked, draft)
}

// A second join with a stream isn't built.
fn note_second(second: bool, place: u32, draft: &mut Draft) -> Result<(), Memory>
    ensures { OnOk result (draft.new ≡ spec.second_noted second place draft.old) }
{
    if second {
        return draft.note(place, Cause::Unsupported);
    }
    Ok(())
}

fn join_stream_by(
    alloc: Global,
    bound: Option<Bound>,
    second: bool,
    scope: &Scope,
    right: u16,
    join: &Join,
    draft: &mut Draft,
) -> Result<(), Memory>
    ensures { OnOk result (
        draft.new ≡ spec.stream_joined_by bound second scope.now right join.now draft.old) }
{
    match bound {
        None => {
            note_second(second, join.place, draft)?;
            draft.note(join.join_place, Cause::Bound)
        }
        Some(bound) => {
            if second {
                return draft.note(join.place, Cause::Unsupported);
            }
            join_bound(alloc, bound, scope, right, join, draft)
        }
    }
}

#[tactic(auto, unfolding(crate::specs::Joins::stream_joined))]
fn join_stream(
    alloc: Global,
    left: &[u8],
    second: bool,
    scope: &Scope,
    right: u16,
    join: &Join,
    draft: &mut Draft,
) -> Result<(), Memory>
    ensures { OnOk result (
        draft.new ≡ spec.stream_joined left.now second scope.now right join.now draft.old) }
{
    let name = qualifier(&join.source)?;
    let bound = bound_of(left, name.text.items(), &join.on);
    join_stream_by(alloc, bound, second, scope, right, join, draft)
}

fn go_on_with_lookup(
    reference: u16,
    outer: bool,
    checked: Checked<Cond>,
    draft: &mut Draft,
) -> Result<(), Memory>
    ensures { OnOk result (draft.new ≡ spec.with_lookup reference outer checked draft.old) }
{
    match checked {
        Err(faults) => draft.note_all(faults.items()),
        Ok(cond) => draft.go_on(Step::Lookup {
            left: draft.last,
            reference,
            cond,
            outer,
        }),
    }
}

// The first reference above the limit is refused.
#[tactic(auto, unfolding(crate::specs::Joins::reference_joined))]
fn join_reference(
    alloc: Global,
    before: usize,
    scope: &Scope,
    reference: u16,
    join: &Join,
    draft: &mut Draft,
) -> Result<(), Memory>
    ensures { OnOk result (
        draft.new ≡ spec.reference_joined before scope.now reference join.now draft.old) }
{
    if before == MAX_REFERENCES {
        return draft.note(join.place, Cause::TooMany);
    }
    let checked = condition_on(alloc, scope, &join.on)?;
    go_on_with_lookup(reference, is_outer(&join.side), checked, draft)
}

fn join_known(
    alloc: Global,
    known: &KnownSource,
    left: &[u8],
    so_far: &Joined,
    join: &Join,
    draft: &mut Draft,
) -> Result<(), Memory>
    ensures { OnOk result (draft.new ≡
        spec.joined_as known.now.origin known.now.step left.now so_far.now join.now draft.old) }
{
    let scope = &so_far.scope;
    let second = so_far.has_stream;
    match known.origin {
        Origin::Stream(_) => join_stream(alloc, left, second, scope, known.step, join, draft),
        Origin::Definition => join_stream(alloc, left, second, scope, known.step, join, draft),
        Origin::Reference(number) => {
            join_reference(alloc, so_far.references, scope, number, join, draft)
        }
    }
}

// An unknown source is refused by its name alone.
fn read_join(
    alloc: Global,
    known: &[KnownSource],
    left: &[u8],
    so_far: &Joined,
    join: &Join,
    draft: &mut Draft,
) -> Result<(), Memory>
    ensures { OnOk result (
        draft.new ≡ spec.join_read known.now left.now so_far.now join.now draft.old) }
{
    match known_named(known, join.source.name.text.items()) {
        None => Ok(()),
        Some(found) => join_known(alloc, found, left, so_far, join, draft),
    }
}

fn count_as(origin: Origin, so_far: &mut Joined) -> Result<(), Memory>
    ensures { OnOk result (so_far.new ≡ spec.counted_as origin so_far.old) }
{
    match origin {
        Origin::Stream(_) => {
            so_far.has_stream = true;
            Ok(())
        }
        Origin::Definition => {
            so_far.has_stream = true;
            Ok(())
        }
        Origin::Reference(_) => match so_far.references.checked_add(1) {
            None => Err(Memory),
            Some(references) => {
                so_far.references = references;
                Ok(())
            }
        },
    }
}

fn count(known: &[KnownSource], source: &Source, so_far: &mut Joined) -> Result<(), Memory>
    ensures { OnOk result (so_far.new ≡ spec.join_counted known.now source.now so_far.old) }
{
    match known_named(known, source.name.text.items()) {
        None => Ok(()),
        Some(found) => count_as(found.origin, so_far),
    }
}

// The columns of a joined source are in reach.
fn reach(
    alloc: Global,
    known: &[KnownSource],
    source: &Source,
    so_far: &mut Joined,
) -> Result<(), Memory>
    ensures { OnOk result (so_far.new ≡ spec.reaching known.now source.now so_far.old) }
{
    push_scope_source(alloc, known, &mut so_far.scope.sources, source)
}

fn read_joins_from(
    alloc: Global,
    known: &[KnownSource],
    left: &[u8],
    so_far: &mut Joined,
    joins: &[Join],
    draft: &mut Draft,
) -> Result<(), Memory>
    ensures { OnOk result (
        draft.new ≡ spec.joins_read_from known.now left.now so_far.old joins.now draft.old) }
{
    for join in joins {
        reach(alloc, known, &join.source, so_far)?;
        read_join(alloc, known, left, so_far, join, draft)?;
        count(known, &join.source, so_far)?;
    }
    Ok(())
}

fn first_reach(alloc: Global, known: &[KnownSource], source: &Source) -> Result<Joined, Memory>
    ensures { IfOk result (λ joined. joined ≡ spec.first_reach known.now source.now) }
{
    let mut sources = Seq::empty(alloc);
    push_scope_source(alloc, known, &mut sources, source)?;
    Ok(Joined {
        scope: scope_of(alloc, true, sources),
        has_stream: false,
        references: 0,
    })
}

/// Reads the joins of a select: each takes the rows so far on, and its bound speaks of the time of
/// the source behind FROM.
#[tactic(auto, unfolding(crate::specs::Joins::joins_read))]
pub fn read_joins(
    alloc: Global,
    known: &[KnownSource],
    tail: &Tail,
    draft: &mut Draft,
) -> Result<(), Memory>
    ensures { OnOk result (draft.new ≡ spec.joins_read known.now tail.now draft.old) }
{
    let first = qualifier(&tail.source)?;
    let mut so_far = first_reach(alloc, known, &tail.source)?;
    read_joins_from(
        alloc,
        known,
        first.text.items(),
        &mut so_far,
        tail.joins.items(),
        draft,
    )
}
