//! The order of moments in the lists of a document.

ghost use Rattle.std.specs.Prelude.{◌≡◌, [], IfOk, IfErr, Ok, codes};
ghost use Rattle.input_book.specs.Checks.{each, through_check, segment_order, partition_order, stream_order, order_check};
ghost use Rattle.input_book.specs.Refusals.{IsRefusal};

use crate::InputErr;
use crate::key::Key;
use crate::refusals::{read_inside, refused};
use input_types::{Inputs, Partition, SegmentName, Stream};
use std::alloc::Global;
use tick_time::Moment;

// A segment behind one that reaches through this moment.
fn check_segment(alloc: Global, before: Moment, segment: &SegmentName) -> Result<(), InputErr>
    ensures ok { IfOk result (λ x. through_check before segment.now ≡ Ok x) }
    ensures err { IfErr result (IsRefusal (through_check before segment.now)) }
{
    if segment.through < before {
        Err(refused(alloc, InputErr::ThroughOrder, Key::Member("through")))
    } else {
        Ok(())
    }
}

fn check_segments(alloc: Global, segments: &[SegmentName]) -> Result<(), InputErr>
    ensures ok { IfOk result (λ x. each segment_order (codes "segments") [] segments.now ≡ Ok x) }
    ensures err { IfErr result (IsRefusal (each segment_order (codes "segments") [] segments.now)) }
{
    let mut before = Moment::zero();
    for (index, segment) in segments.iter().enumerate() {
        let checked = check_segment(alloc, before, segment);
        read_inside(alloc, Key::Entry("segments", index), checked)?;
        before = segment.through;
    }
    Ok(())
}

fn check_partitions(alloc: Global, partitions: &[Partition]) -> Result<(), InputErr>
    ensures ok { IfOk result (λ x.
        each (λ _ p. partition_order p) (codes "partition") [] partitions.now ≡ Ok x) }
    ensures err { IfErr result (IsRefusal
        (each (λ _ p. partition_order p) (codes "partition") [] partitions.now)) }
{
    for (index, partition) in partitions.iter().enumerate() {
        let checked = check_segments(alloc, partition.segments.items());
        read_inside(alloc, Key::Entry("partition", index), checked)?;
    }
    Ok(())
}

// No segment has a `through` below that of the one before it in its partition.
#[tactic(auto, unfolding(crate::specs::Checks::order_check))]
pub fn check_order(alloc: Global, inputs: &Inputs) -> Result<(), InputErr>
    ensures ok { IfOk result (λ x. order_check inputs.now ≡ Ok x) }
    ensures err { IfErr result (IsRefusal (order_check inputs.now)) }
{
    for (index, stream) in inputs.streams.items().iter().enumerate() {
        let checked = check_partitions(alloc, stream.partitions.items());
        read_inside(alloc, Key::Entry("stream", index), checked)?;
    }
    Ok(())
}
