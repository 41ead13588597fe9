//! The limits on the lists of a document.

ghost use Rattle.std.specs.Prelude.{◌≡◌, ◌+◌, ◌≤◌, [], IfOk, IfErr, OnOk, Ok, codes, length};
ghost use Rattle.input_book.specs.Checks.{each, count_check, partition_limits, stream_limits, partition_count, streams_limits};
ghost use Rattle.input_book.specs.Checks.{limits_check, reference_limits, references_limits, snapshot_count};
ghost use Rattle.input_book.specs.Limits.{max_partitions, max_snapshots};
ghost use Rattle.input_book.specs.Refusals.{IsRefusal};

use crate::InputErr;
use crate::key::Key;
use crate::limits::{
    MAX_COLUMNS, MAX_PARTITIONS, MAX_REFERENCES, MAX_SEGMENTS, MAX_SNAPSHOTS, MAX_STREAMS,
};
use crate::refusals::{read_inside, refused};
use input_types::{Inputs, Partition, Reference, Stream};
use std::alloc::Global;

#[tactic(auto, unfolding(crate::specs::Checks::count_check))]
fn check_count(alloc: Global, most: usize, key: &str, count: usize) -> Result<(), InputErr>
    ensures ok { IfOk result (λ x. count_check most key.now count ≡ Ok x) }
    ensures err { IfErr result (IsRefusal (count_check most key.now count)) }
{
    if count <= most {
        Ok(())
    } else {
        Err(refused(alloc, InputErr::TooMany, Key::Member(key)))
    }
}

fn check_partition(alloc: Global, partition: &Partition) -> Result<(), InputErr>
    ensures ok { IfOk result (λ x. partition_limits partition.now ≡ Ok x) }
    ensures err { IfErr result (IsRefusal (partition_limits partition.now)) }
{
    check_count(
        alloc,
        MAX_SEGMENTS,
        "segments",
        partition.segments.items().len(),
    )
}

fn check_partitions(alloc: Global, partitions: &[Partition]) -> Result<(), InputErr>
    ensures ok { IfOk result (λ x.
        each (λ _ p. partition_limits p) (codes "partition") [] partitions.now ≡ Ok x) }
    ensures err { IfErr result (IsRefusal
        (each (λ _ p. partition_limits p) (codes "partition") [] partitions.now)) }
{
    for (index, partition) in partitions.iter().enumerate() {
        let checked = check_partition(alloc, partition);
        read_inside(alloc, Key::Entry("partition", index), checked)?;
    }
    Ok(())
}

// A stream with so many partitions before its own.
#[tactic(auto, unfolding(crate::specs::Checks::count_check))]
fn check_stream(alloc: Global, before: usize, stream: &Stream) -> Result<(), InputErr>
    requires { before ≤ max_partitions }
    ensures ok { IfOk result (λ x. stream_limits before stream.now ≡ Ok x) }
    ensures err { IfErr result (IsRefusal (stream_limits before stream.now)) }
    ensures within { OnOk result (before + length stream.now.partitions ≤ max_partitions) }
{
    check_count(alloc, MAX_COLUMNS, "columns", stream.columns.items().len())?;
    let partitions = stream.partitions.items();
    if MAX_PARTITIONS - before < partitions.len() {
        return Err(refused(alloc, InputErr::TooMany, Key::Member("partition")));
    }
    check_partitions(alloc, partitions)
}

#[tactic(auto, unfolding(crate::specs::Checks::streams_limits))]
fn check_streams(alloc: Global, streams: &[Stream]) -> Result<(), InputErr>
    ensures ok { IfOk result (λ x. streams_limits streams.now ≡ Ok x) }
    ensures err { IfErr result (IsRefusal (streams_limits streams.now)) }
{
    check_count(alloc, MAX_STREAMS, "stream", streams.len())?;
    let mut before = 0;
    for (index, stream) in streams.iter().enumerate() {
        let checked = check_stream(alloc, before, stream);
        read_inside(alloc, Key::Entry("stream", index), checked)?;
        before += stream.partitions.items().len();
    }
    Ok(())
}

// A reference with so many snapshots before its own.
#[tactic(auto, unfolding(crate::specs::Checks::count_check))]
fn check_reference(alloc: Global, before: usize, reference: &Reference) -> Result<(), InputErr>
    requires { before ≤ max_snapshots }
    ensures ok { IfOk result (λ x. reference_limits before reference.now ≡ Ok x) }
    ensures err { IfErr result (IsRefusal (reference_limits before reference.now)) }
    ensures within { OnOk result (before + length reference.now.snapshots ≤ max_snapshots) }
{
    let columns = reference.columns.items();
    check_count(alloc, MAX_COLUMNS, "columns", columns.len())?;
    if MAX_SNAPSHOTS - before < reference.snapshots.items().len() {
        return Err(refused(alloc, InputErr::TooMany, Key::Member("snapshots")));
    }
    Ok(())
}

#[tactic(auto, unfolding(crate::specs::Checks::references_limits))]
fn check_references(alloc: Global, references: &[Reference]) -> Result<(), InputErr>
    ensures ok { IfOk result (λ x. references_limits references.now ≡ Ok x) }
    ensures err { IfErr result (IsRefusal (references_limits references.now)) }
{
    check_count(alloc, MAX_REFERENCES, "reference", references.len())?;
    let mut before = 0;
    for (index, reference) in references.iter().enumerate() {
        let checked = check_reference(alloc, before, reference);
        read_inside(alloc, Key::Entry("reference", index), checked)?;
        before += reference.snapshots.items().len();
    }
    Ok(())
}

// No list is longer than its limit.
#[tactic(auto, unfolding(crate::specs::Checks::limits_check))]
pub fn check_limits(alloc: Global, inputs: &Inputs) -> Result<(), InputErr>
    ensures ok { IfOk result (λ x. limits_check inputs.now ≡ Ok x) }
    ensures err { IfErr result (IsRefusal (limits_check inputs.now)) }
{
    check_streams(alloc, inputs.streams.items())?;
    check_references(alloc, inputs.references.items())
}
