//! The sources that a select may name: streams, references, and the names that WITH defines.

ghost use Rattle.std.specs.Prelude.{◌≡◌, ◌++◌, ◌∷◌, [], IfOk, OnOk};
ghost use Rattle.std.specs.Option.{option_copied};
ghost use Rattle.query_sources.specs.Known as spec;

use crate::draft::number_of;
use crate::names::is_named;
use event_value::{Column, Copies, Kind, Memory, Seq, Text};
use input_types::{Reference, Stream};
use query_plan::Step;
use query_tree::Name;
use std::alloc::Global;

/// A column of what a select or a source gives.
#[derive(Drop)]
pub struct ResultColumn {
    /// Its name, and the place of what names it.
    pub name: Name,
    /// The kind of its values; none where they rest on NULL alone.
    pub kind: Option<Kind>,
}

/// What a source is.
#[derive(Clone, Copy)]
pub enum Origin {
    /// A stream, by its place among those of the inputs.
    Stream(u16),
    /// Reference rows, by their place among those that a script names.
    Reference(u16),
    /// What WITH defines.
    Definition,
}

/// A source that a select may name.
#[derive(Drop)]
pub struct KnownSource {
    /// Its name.
    pub name: Text,
    /// What it is.
    pub origin: Origin,
    /// The step that has its rows.
    pub step: u16,
    /// Its columns.
    pub columns: Seq<ResultColumn>,
}

impl Copies for ResultColumn {
    fn copy(&self) -> Result<Self, Memory> {
        Ok(ResultColumn {
            name: self.name.copy()?,
            kind: self.kind,
        })
    }
}

/// The source of a name.
pub fn known_named<'a>(known: &'a [KnownSource], name: &[u8]) -> Option<&'a KnownSource>
    ensures { option_copied result ≡ spec.known_named known.now name.now }
{
    for source in known {
        if source.name.items() == name {
            return Some(source);
        }
    }
    None
}

fn declared_columns(alloc: Global, columns: &[Column]) -> Result<Seq<ResultColumn>, Memory>
    ensures { IfOk result (λ found. found ≡ spec.declared_columns columns.now) }
{
    let mut found = Seq::empty(alloc);
    for column in columns {
        found.push(ResultColumn {
            name: Name {
                place: 0,
                text: column.name.copy()?,
            },
            kind: Some(column.kind),
        })?;
    }
    Ok(found)
}

// Adds the source of a stream; the streams that are named have their steps in order.
fn push_stream(
    alloc: Global,
    known: &mut Seq<KnownSource>,
    index: usize,
    step: usize,
    stream: &Stream,
) -> Result<(), Memory>
    ensures { OnOk result (
        known.new ≡ known.old ++ spec.stream_source index step stream.now ∷ []) }
{
    known.push(KnownSource {
        name: stream.name.copy()?,
        origin: Origin::Stream(number_of(index)?),
        step: number_of(step)?,
        columns: declared_columns(alloc, stream.columns.items())?,
    })
}

/// The streams of the inputs as sources, and the source steps of those that a script names.
#[derive(Drop)]
pub struct Streams {
    /// All streams, in order.
    pub known: Seq<KnownSource>,
    /// The source steps.
    pub steps: Seq<Step>,
    /// The places of the streams that are named.
    pub used: Seq<u16>,
}

fn push_used(streams: &mut Streams, index: usize) -> Result<(), Memory>
    ensures { OnOk result (streams.new ≡ spec.with_used index streams.old) }
{
    let number = number_of(streams.steps.items().len())?;
    streams.steps.push(Step::Source { index: number })?;
    streams.used.push(number_of(index)?)
}

fn with_stream(
    alloc: Global,
    names: &[Name],
    streams: &mut Streams,
    stream: &Stream,
) -> Result<(), Memory>
    ensures { OnOk result (streams.new ≡ spec.with_stream names.now streams.old stream.now) }
{
    let index = streams.known.items().len();
    let step = streams.steps.items().len();
    push_stream(alloc, &mut streams.known, index, step, stream)?;
    if is_named(names, stream.name.items()) {
        return push_used(streams, index);
    }
    Ok(())
}

/// The streams of the inputs, where these names are named.
#[tactic(auto, unfolding(crate::specs::Known::streams_of))]
pub fn streams_of(alloc: Global, names: &[Name], streams: &[Stream]) -> Result<Streams, Memory>
    ensures { IfOk result (λ found. found ≡ spec.streams_of names.now streams.now) }
{
    let mut found = Streams {
        known: Seq::empty(alloc),
        steps: Seq::empty(alloc),
        used: Seq::empty(alloc),
    };
    for stream in streams {
        with_stream(alloc, names, &mut found, stream)?;
    }
    Ok(found)
}

/// The sources of the inputs, and the places of the references that are named.
#[derive(Drop)]
pub struct References {
    /// All streams, and behind them all references, each in order.
    pub known: Seq<KnownSource>,
    /// The places of the references that are named.
    pub used: Seq<u16>,
}

// Adds the source of a reference; those that are named have their numbers in order.
fn push_reference(
    alloc: Global,
    reference: &Reference,
    references: &mut References,
) -> Result<(), Memory>
    ensures { OnOk result (
        references.new ≡ spec.with_known_reference reference.now references.old) }
{
    references.known.push(KnownSource {
        name: reference.name.copy()?,
        origin: Origin::Reference(number_of(references.used.items().len())?),
        step: 0,
        columns: declared_columns(alloc, reference.columns.items())?,
    })
}

fn with_reference(
    alloc: Global,
    names: &[Name],
    place: usize,
    references: &mut References,
    reference: &Reference,
) -> Result<(), Memory>
    ensures { OnOk result (
        references.new ≡ spec.with_reference names.now place references.old reference.now) }
{
    push_reference(alloc, reference, references)?;
    if is_named(names, reference.name.items()) {
        return references.used.push(number_of(place)?);
    }
    Ok(())
}

/// The references of the inputs behind its streams, where these names are named.
#[tactic(auto, unfolding(crate::specs::Known::references_of))]
pub fn references_of(
    alloc: Global,
    names: &[Name],
    streams: Seq<KnownSource>,
    references: &[Reference],
) -> Result<References, Memory>
    ensures { IfOk result (λ found.
        found ≡ spec.references_of names.now streams references.now) }
{
    let mut found = References {
        known: streams,
        used: Seq::empty(alloc),
    };
    for (place, reference) in references.iter().enumerate() {
        with_reference(alloc, names, place, &mut found, reference)?;
    }
    Ok(found)
}
