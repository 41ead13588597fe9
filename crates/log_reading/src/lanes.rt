//! `feed_lanes`, which feeds each lane of a core what its files hold.

ghost use Rattle.std.specs.Prelude.{◌≡◌, ◌≤◌, All, IfOk};
ghost use Rattle.std.specs.List.{flat_map};
ghost use Rattle.std.specs.Option.{option_map};
ghost use Rattle.log_reading.specs.Asking.{AsksUntil, IsCaused};
ghost use Rattle.log_reading.specs.Feeding.{FeedsLane, FeedsLanes};
ghost use Rattle.log_reading.specs.Places.{IsFresh, lane_files, place_at, place_of};

use crate::NamedReadErr;
use crate::files::feed_segments;
use event_value::Seq;
use input_types::{Inputs, Partition, Stream};
use job_core::Lane;
use outside::Files;
use std::alloc::Global;

/// The lanes, each behind all its segments.
pub fn feed_lanes<F: Files>(
    alloc: Global,
    files: &mut F,
    inputs: &Inputs,
    lanes: Seq<Lane>,
) -> Result<Seq<Lane>, NamedReadErr>
    requires { All (IsFresh inputs.now) lanes }
    ensures fed { IfOk result (λ news. FeedsLanes (F.known files.old) inputs.now lanes news) }
    ensures asked { AsksUntil (flat_map (lane_files inputs.now) lanes) result
        (F.known files.old) (F.known files.new) }
    ensures never_falls { F.faults files.old ≤ F.faults files.new }
    ensures cause { IsCaused result (F.faults files.old) (F.faults files.new) }
{
    let mut news = Seq::empty(alloc);
    for lane in lanes.into_vec() {
        let new = feed_lane(alloc, files, inputs, lane)?;
        news.push(new)?;
    }
    Ok(news)
}

// The lane behind all its segments.
fn feed_lane<F: Files>(
    alloc: Global,
    files: &mut F,
    inputs: &Inputs,
    lane: Lane,
) -> Result<Lane, NamedReadErr>
    requires { IsFresh inputs.now lane }
    ensures fed { IfOk result (λ new. FeedsLane (F.known files.old) inputs.now lane new) }
    ensures asked { AsksUntil (lane_files inputs.now lane) result (F.known files.old) (F.known files.new) }
    ensures never_falls { F.faults files.old ≤ F.faults files.new }
    ensures cause { IsCaused result (F.faults files.old) (F.faults files.new) }
{
    match place_of(inputs, &lane) {
        None => Ok(lane),
        Some((stream, partition)) => {
            feed_segments(alloc, files, stream, lane, partition.segments.items())
        }
    }
}

// The partition of a lane, with its stream, if there is one.
fn place_of<'a>(inputs: &'a Inputs, lane: &Lane) -> Option<(&'a Stream, &'a Partition)>
    ensures { option_map (λ (stream, partition). place_at stream.now partition.now) result
        ≡ place_of inputs.now lane.now }
{
    let stream = inputs.streams.items().get(lane.stream() as usize)?;
    let partition = stream.partitions.items().get(lane.partition() as usize)?;
    Some((stream, partition))
}
