//! What stands behind FROM and JOIN: the scope of a select, the streams that it names, the faults.

ghost use Rattle.std.specs.Prelude.{◌≡◌, ◌++◌, ◌∷◌, [], IfOk, OnOk};
ghost use Rattle.std.specs.Option.{option_copied};
ghost use Rattle.query_sources.specs.Sources as spec;

use crate::draft::{Draft, Mention, Stamping, number_of};
use crate::known::{KnownSource, Origin, ResultColumn, known_named};
use crate::names::note_repeats;
use crate::stamps::read_stamp;
use event_value::{Copies, Memory, Seq};
use query_forms::Cause;
use query_readings::{Scope, ScopeColumn, ScopeSource};
use query_tree::{Name, Source, Stamp, Tail};
use std::alloc::Global;

/// The name behind which its columns may stand: its alias, or else its own name.
pub fn qualifier(source: &Source) -> Result<Name, Memory>
    ensures { IfOk result (λ name. name ≡ spec.qualifier source.now) }
{
    match &source.alias {
        None => source.name.copy(),
        Some(alias) => alias.name.copy(),
    }
}

fn scope_columns(
    alloc: Global,
    first: usize,
    columns: &[ResultColumn],
) -> Result<Seq<ScopeColumn>, Memory>
    ensures { IfOk result (λ found. found ≡ spec.columns_at first columns.now) }
{
    let mut found = Seq::empty(alloc);
    let mut number = first;
    for column in columns {
        found.push(ScopeColumn {
            name: column.name.text.copy()?,
            kind: column.kind,
            column: number_of(number)?,
        })?;
        match number.checked_add(1) {
            None => return Err(Memory),
            Some(next) => number = next,
        }
    }
    Ok(found)
}

fn width(sources: &[ScopeSource]) -> Result<usize, Memory>
    ensures { IfOk result (λ width. width ≡ spec.width sources.now) }
{
    let mut width = 0usize;
    for source in sources {
        match width.checked_add(source.columns.items().len()) {
            None => return Err(Memory),
            Some(sum) => width = sum,
        }
    }
    Ok(width)
}

fn scope_source(
    alloc: Global,
    known: Option<&KnownSource>,
    first: usize,
    source: &Source,
) -> Result<ScopeSource, Memory>
    ensures { IfOk result (λ found.
        found ≡ spec.scope_source (option_copied known.entry) first source.now) }
{
    let name = qualifier(source)?;
    match known {
        None => Ok(ScopeSource {
            name: name.text,
            known: false,
            columns: Seq::empty(alloc),
        }),
        Some(known) => Ok(ScopeSource {
            columns: scope_columns(alloc, first, known.columns.items())?,
            name: name.text,
            known: true,
        }),
    }
}

/// Adds a source behind others, with its columns behind theirs.
pub fn push_scope_source(
    alloc: Global,
    known: &[KnownSource],
    sources: &mut Seq<ScopeSource>,
    source: &Source,
) -> Result<(), Memory>
    ensures { OnOk result (
        sources.new ≡ spec.with_scope_source known.now sources.old source.now) }
{
    let first = width(sources.items())?;
    let found = known_named(known, source.name.text.items());
    sources.push(scope_source(alloc, found, first, source)?)
}

/// A scope of these sources alone.
pub fn scope_of(alloc: Global, timed: bool, sources: Seq<ScopeSource>) -> Scope
    ensures { result ≡ spec.scope_of timed sources }
{
    Scope {
        sources,
        timed,
        keys: Seq::empty(alloc),
        aggregates: Seq::empty(alloc),
    }
}

/// The scope of a select: the columns of its sources, one behind the other.
#[tactic(auto, unfolding(crate::specs::Sources::scope_of_tail))]
pub fn scope_of_tail(alloc: Global, known: &[KnownSource], tail: &Tail) -> Result<Scope, Memory>
    ensures { IfOk result (λ scope. scope ≡ spec.scope_of_tail known.now tail.now) }
{
    let mut sources = Seq::empty(alloc);
    push_scope_source(alloc, known, &mut sources, &tail.source)?;
    for join in tail.joins.items() {
        push_scope_source(alloc, known, &mut sources, &join.source)?;
    }
    Ok(scope_of(alloc, true, sources))
}

// Refuses a TIMESTAMP BY where the source is no stream.
fn refuse_stamp(stamp: &Option<Stamp>, draft: &mut Draft) -> Result<(), Memory>
    ensures { OnOk result (draft.new ≡ spec.refused_stamp_noted stamp.now draft.old) }
{
    match stamp {
        None => Ok(()),
        Some(stamp) => draft.note(stamp.place, Cause::Unsupported),
    }
}

fn mention_stream(
    alloc: Global,
    known: &KnownSource,
    stream: u16,
    source: &Source,
    draft: &mut Draft,
) -> Result<(), Memory>
    ensures { OnOk result (
        draft.new ≡ spec.stream_mentioned known.now stream source.now draft.old) }
{
    let place = source.name.place;
    match &source.stamp {
        None => draft.mentions.push(Mention {
            place,
            stream,
            stamping: Stamping::Arrival,
        }),
        Some(stamp) => {
            let mut sources = Seq::empty(alloc);
            sources.push(scope_source(alloc, Some(known), 0, source)?)?;
            let scope = scope_of(alloc, false, sources);
            let stamping = read_stamp(alloc, &scope, stamp, draft)?;
            draft.mentions.push(Mention {
                place,
                stream,
                stamping,
            })
        }
    }
}

fn mention_known(
    alloc: Global,
    known: &KnownSource,
    joined: bool,
    source: &Source,
    draft: &mut Draft,
) -> Result<(), Memory>
    ensures { OnOk result (
        draft.new ≡ spec.known_mentioned known.now joined source.now draft.old) }
{
    match known.origin {
        Origin::Stream(stream) => mention_stream(alloc, known, stream, source, draft),
        Origin::Definition => refuse_stamp(&source.stamp, draft),
        Origin::Reference(_) => {
            if !joined {
                draft.note(source.name.place, Cause::Unsupported)?;
            }
            refuse_stamp(&source.stamp, draft)
        }
    }
}

fn mention_source(
    alloc: Global,
    known: &[KnownSource],
    joined: bool,
    source: &Source,
    draft: &mut Draft,
) -> Result<(), Memory>
    ensures { OnOk result (draft.new ≡ spec.source_mentioned known.now joined source.now draft.old) }
{
    match known_named(known, source.name.text.items()) {
        None => draft.note(source.name.place, Cause::UnknownSource),
        Some(found) => mention_known(alloc, found, joined, source, draft),
    }
}

fn qualifiers(alloc: Global, tail: &Tail) -> Result<Seq<Name>, Memory>
    ensures { IfOk result (λ names. names ≡ spec.qualifiers tail.now) }
{
    let mut names = Seq::empty(alloc);
    names.push(qualifier(&tail.source)?)?;
    for join in tail.joins.items() {
        names.push(qualifier(&join.source)?)?;
    }
    Ok(names)
}

/// Mentions the sources of a select, and notes the faults in them.
#[tactic(auto, unfolding(crate::specs::Sources::tail_mentioned))]
pub fn mention_tail(
    alloc: Global,
    known: &[KnownSource],
    tail: &Tail,
    draft: &mut Draft,
) -> Result<(), Memory>
    ensures { OnOk result (draft.new ≡ spec.tail_mentioned known.now tail.now draft.old) }
{
    mention_source(alloc, known, false, &tail.source, draft)?;
    for join in tail.joins.items() {
        mention_source(alloc, known, true, &join.source, draft)?;
    }
    note_repeats(alloc, qualifiers(alloc, tail)?.items(), draft)
}
