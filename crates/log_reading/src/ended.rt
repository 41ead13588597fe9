//! `ended_inputs`, inputs whose partitions all count as ended.

ghost use Rattle.std.specs.Prelude.{◌≡◌, IfOk, map};
ghost use Rattle.log_reading.specs.Ended as ended;

use event_value::{Copies, Memory, Seq};
use input_types::{Inputs, Partition, Stream};
use std::alloc::Global;

/// The same inputs, each of whose partitions is ended.
///
/// # Errors
/// `Memory` where there was none for them.
pub fn ended_inputs(alloc: Global, inputs: &Inputs) -> Result<Inputs, Memory>
    ensures { IfOk result (λ all. all ≡ ended.ended_inputs inputs.now) }
{
    let mut streams = Seq::empty(alloc);
    for stream in inputs.streams.items() {
        streams.push(ended_stream(alloc, stream)?)?;
    }
    Ok(Inputs {
        streams,
        references: inputs.references.copy()?,
        policy: inputs.policy,
    })
}

fn ended_stream(alloc: Global, stream: &Stream) -> Result<Stream, Memory>
    ensures { IfOk result (λ all. all ≡ ended.ended_stream stream.now) }
{
    Ok(Stream {
        name: stream.name.copy()?,
        format: stream.format,
        columns: stream.columns.copy()?,
        partitions: ended_partitions(alloc, stream.partitions.items())?,
    })
}

fn ended_partitions(alloc: Global, partitions: &[Partition]) -> Result<Seq<Partition>, Memory>
    ensures { IfOk result (λ all. all ≡ map ended.ended_partition partitions.now) }
{
    let mut all = Seq::empty(alloc);
    for partition in partitions {
        let segments = partition.segments.copy()?;
        let ended = true;
        all.push(Partition { segments, ended })?;
    }
    Ok(all)
}
