//! The names of sources and columns.

ghost use Rattle.std.specs.Prelude.{◌≡◌, [], IfOk, IfErr, Ok, codes, map};
ghost use Rattle.input_book.specs.Checks.{each, is_among, column_names, stream_names, streams_names};
ghost use Rattle.input_book.specs.Checks.{names_check, reference_names, references_names};
ghost use Rattle.input_book.specs.Refusals.{IsRefusal};

use crate::InputErr;
use crate::key::Key;
use crate::refusals::read_inside;
use event_value::{Column, Copies};
use input_types::{Inputs, Reference, Stream};
use std::alloc::Global;

#[tactic(auto, unfolding(crate::specs::Checks::is_among))]
fn has_column(columns: &[Column], name: &[u8]) -> bool
    ensures { result ≡ is_among (map (λ c. c.name) columns.now) name.now }
{
    for column in columns {
        if column.name.items() == name {
            return true;
        }
    }
    false
}

#[tactic(auto, unfolding(crate::specs::Checks::is_among))]
fn has_stream(streams: &[Stream], name: &[u8]) -> bool
    ensures { result ≡ is_among (map (λ s. s.name) streams.now) name.now }
{
    for stream in streams {
        if stream.name.items() == name {
            return true;
        }
    }
    false
}

#[tactic(auto, unfolding(crate::specs::Checks::is_among))]
fn has_reference(references: &[Reference], name: &[u8]) -> bool
    ensures { result ≡ is_among (map (λ r. r.name) references.now) name.now }
{
    for reference in references {
        if reference.name.items() == name {
            return true;
        }
    }
    false
}

// A column behind those that have passed.
fn check_column(passed: &[Column], column: &Column) -> Result<(), InputErr>
    ensures ok { IfOk result (λ x. column_names passed.now column.now ≡ Ok x) }
    ensures err { IfErr result (IsRefusal (column_names passed.now column.now)) }
{
    if has_column(passed, column.name.items()) {
        return Err(InputErr::Twice(column.name.copy()?));
    }
    Ok(())
}

fn check_columns(alloc: Global, columns: &[Column]) -> Result<(), InputErr>
    ensures ok { IfOk result (λ x. each column_names (codes "columns") [] columns.now ≡ Ok x) }
    ensures err { IfErr result (IsRefusal (each column_names (codes "columns") [] columns.now)) }
{
    for (index, column) in columns.iter().enumerate() {
        let (passed, _) = columns.split_at(index);
        read_inside(
            alloc,
            Key::Entry("columns", index),
            check_column(passed, column),
        )?;
    }
    Ok(())
}

// The names of a stream behind those that have passed.
fn check_stream(alloc: Global, passed: &[Stream], stream: &Stream) -> Result<(), InputErr>
    ensures ok { IfOk result (λ x. stream_names passed.now stream.now ≡ Ok x) }
    ensures err { IfErr result (IsRefusal (stream_names passed.now stream.now)) }
{
    if has_stream(passed, stream.name.items()) {
        return Err(InputErr::Twice(stream.name.copy()?));
    }
    check_columns(alloc, stream.columns.items())
}

#[tactic(auto, unfolding(crate::specs::Checks::streams_names))]
fn check_streams(alloc: Global, streams: &[Stream]) -> Result<(), InputErr>
    ensures ok { IfOk result (λ x. streams_names streams.now ≡ Ok x) }
    ensures err { IfErr result (IsRefusal (streams_names streams.now)) }
{
    for (index, stream) in streams.iter().enumerate() {
        let (passed, _) = streams.split_at(index);
        let checked = check_stream(alloc, passed, stream);
        read_inside(alloc, Key::Entry("stream", index), checked)?;
    }
    Ok(())
}

// The names of a reference behind all streams and the references that have passed.
fn check_reference(
    alloc: Global,
    streams: &[Stream],
    passed: &[Reference],
    reference: &Reference,
) -> Result<(), InputErr>
    ensures ok { IfOk result (λ x.
        reference_names streams.now passed.now reference.now ≡ Ok x) }
    ensures err { IfErr result (IsRefusal
        (reference_names streams.now passed.now reference.now)) }
{
    if has_stream(streams, reference.name.items()) {
        return Err(InputErr::Twice(reference.name.copy()?));
    }
    if has_reference(passed, reference.name.items()) {
        return Err(InputErr::Twice(reference.name.copy()?));
    }
    check_columns(alloc, reference.columns.items())
}

#[tactic(auto, unfolding(crate::specs::Checks::references_names))]
fn check_references(
    alloc: Global,
    streams: &[Stream],
    references: &[Reference],
) -> Result<(), InputErr>
    ensures ok { IfOk result (λ x. references_names streams.now references.now ≡ Ok x) }
    ensures err { IfErr result (IsRefusal (references_names streams.now references.now)) }
{
    for (index, reference) in references.iter().enumerate() {
        let (passed, _) = references.split_at(index);
        let checked = check_reference(alloc, streams, passed, reference);
        read_inside(alloc, Key::Entry("reference", index), checked)?;
    }
    Ok(())
}

// No source has the name of one before it, and no column that of one before it in its source.
#[tactic(auto, unfolding(crate::specs::Checks::names_check))]
pub fn check_names(alloc: Global, inputs: &Inputs) -> Result<(), InputErr>
    ensures ok { IfOk result (λ x. names_check inputs.now ≡ Ok x) }
    ensures err { IfErr result (IsRefusal (names_check inputs.now)) }
{
    let streams = inputs.streams.items();
    check_streams(alloc, streams)?;
    check_references(alloc, streams, inputs.references.items())
}
