//! The lanes of a core, as a list.

ghost use Rattle.std.specs.Prelude.{◌≡◌, ◌<◌, ◌≤ℤ◌, pos, ◌++◌, ◌^◌, IfOk, All, length, map, min};
ghost use Rattle.input_book.specs.Laws.{IsPartition, IsWellFormed};
ghost use Rattle.job_core.specs.Fresh as fresh;
ghost use Rattle.job_core.specs.Gathered.{joined};
ghost use Rattle.job_core.specs.Lane.{LaneStands, own_watermark};
ghost use Rattle.job_core.specs.Lanes.{AreOfStream, AreOfStreams, AreReleased, HasUnreadIn, IsFedIn};
ghost use Rattle.job_core.specs.Lanes.{LanesStand, kind_of, least, name_of};
ghost use Rattle.job_core.specs.declared.lane.Lane.{Lane as Held};

use crate::Lane;
use crate::lists::push_all;
use event_value::{Copies, Dropped, Item, Memory, Policy, Position, Seq, Stamped};
use input_types::{Inputs, Partition};
use query_plan::StreamUse;
use std::alloc::Global;
use tick_time::{END, Moment};

/// The lanes of all partitions of these streams before their first entries, and how many each
/// stream has.
///
/// # Errors
/// `Memory` where there was none for them.
pub fn fresh_lanes(
    alloc: Global,
    uses: &[StreamUse],
    inputs: &Inputs,
) -> Result<(Seq<usize>, Seq<Lane>), Memory>
    requires { IsWellFormed inputs.now }
    ensures of { IfOk result (λ (counts, lanes). AreOfStreams uses.now counts (map name_of lanes)) }
    ensures counts { IfOk result (λ (counts, lanes). counts ≡ fresh.lane_counts inputs.now uses.now) }
    ensures kinds { IfOk result (λ (counts, lanes).
        map kind_of lanes ≡ fresh.lane_kinds inputs.now uses.now) }
    ensures stand { IfOk result (λ (counts, lanes).
        LanesStand inputs.now.policy lanes (fresh.fresh_heard_of inputs.now uses.now) 0) }
{
    let mut counts = Seq::empty(alloc);
    let mut lanes = Seq::empty(alloc);
    for used in uses {
        let more = stream_lanes(alloc, inputs, used)?;
        counts.push(more.items().len())?;
        push_all(&mut lanes, more)?;
    }
    Ok((counts, lanes))
}

// The lanes of all partitions of a stream before their first entries.
fn stream_lanes(alloc: Global, inputs: &Inputs, used: &StreamUse) -> Result<Seq<Lane>, Memory>
    requires { IsWellFormed inputs.now }
    ensures of { IfOk result (λ lanes. AreOfStream used.now 0 (map name_of lanes)) }
    ensures kinds { IfOk result (λ lanes.
        map kind_of lanes ≡ fresh.kinds_from used.now 0 (fresh.partitions_of inputs.now used.now)) }
    ensures stand { IfOk result (λ lanes. LanesStand inputs.now.policy lanes
        (map fresh.fresh_lane (fresh.partitions_of inputs.now used.now)) 0) }
{
    let lanes = partition_lanes(alloc, &inputs.policy, used, partitions_of(inputs, used))?;
    Ok(lanes)
}

// The partitions of a stream.
fn partitions_of<'a>(inputs: &'a Inputs, used: &StreamUse) -> &'a [Partition]
    ensures { result.now ≡ fresh.partitions_of inputs.now used.now }
{
    match inputs.streams.items().get(used.stream as usize) {
        None => &[],
        Some(stream) => stream.partitions.items(),
    }
}

// The lanes of these partitions of a stream before their first entries.
fn partition_lanes(
    alloc: Global,
    policy: &Policy,
    used: &StreamUse,
    partitions: &[Partition],
) -> Result<Seq<Lane>, Memory>
    requires late { pos 0 ≤ℤ policy.now.late }
    requires disorder { pos 0 ≤ℤ policy.now.disorder }
    requires count { length partitions.now < 2 ^ 16 }
    requires segments { All IsPartition partitions.now }
    ensures of { IfOk result (λ lanes. AreOfStream used.now 0 (map name_of lanes)) }
    ensures kinds { IfOk result (λ lanes. map kind_of lanes ≡ fresh.kinds_from used.now 0 partitions.now) }
    ensures stand { IfOk result (λ lanes.
        LanesStand policy.now lanes (map fresh.fresh_lane partitions.now) 0) }
{
    let mut lanes = Seq::empty(alloc);
    let mut number: u16 = 0;
    for partition in partitions {
        lanes.push(start_lane(alloc, policy, used, number, partition)?)?;
        number += 1;
    }
    Ok(lanes)
}

// The lane of a partition before its first entry.
fn start_lane(
    alloc: Global,
    policy: &Policy,
    used: &StreamUse,
    number: u16,
    partition: &Partition,
) -> Result<Lane, Memory>
    requires late { pos 0 ≤ℤ policy.now.late }
    requires disorder { pos 0 ≤ℤ policy.now.disorder }
    requires segments { length partition.now.segments < 2 ^ 32 }
    ensures kind { IfOk result (λ lane. kind_of lane ≡ fresh.lane_kind used.now number partition.now) }
    ensures stands { IfOk result (λ lane.
        LaneStands policy.now lane (fresh.fresh_lane partition.now) 0) }
{
    let mut throughs = Seq::empty(alloc);
    let segments = partition.segments.items();
    for segment in segments {
        throughs.push(segment.through)?;
    }
    let used = used.copy()?;
    let lane = Lane::start(alloc, policy, used, number, throughs, partition.ended);
    Ok(lane)
}

/// The least of the watermarks of the lanes. It takes no memory.
pub fn least_watermark(lanes: &[Lane]) -> Moment
    ensures { result ≡ least (map own_watermark lanes.now) }
{
    let mut at = lanes.len();
    let mut least = Moment::of_count(END as u64);
    while at > 0 {
        at -= 1;
        least = earlier(lanes[at].watermark(), least);
    }
    least
}

// The earlier of two moments.
fn earlier(a: Moment, b: Moment) -> Moment
    ensures { result ≡ min a b }
{
    if a < b { a } else { b }
}

/// The places before the lanes' next entries.
///
/// # Errors
/// `Memory` where there was none for the list.
pub fn places(alloc: Global, lanes: &[Lane]) -> Result<Seq<Position>, Memory>
    ensures { IfOk result (λ places. places ≡ map (λ (lane : Held). lane.place) lanes.now) }
{
    let mut places = Seq::empty(alloc);
    for lane in lanes {
        places.push(lane.place())?;
    }
    Ok(places)
}

/// Takes the rows below a moment out of the lanes, and the dropped records.
///
/// # Errors
/// `Memory` where there was none for the lists.
pub fn release_lanes(
    alloc: Global,
    lanes: Seq<Lane>,
    upto: Moment,
) -> Result<(Seq<Lane>, Seq<Seq<Stamped>>, Seq<Dropped>), Memory>
    ensures released { IfOk result (λ (left, rows, drops). AreReleased upto lanes left rows) }
    ensures drops { IfOk result (λ (left, rows, drops).
        drops ≡ joined (map (λ (lane : Held). lane.drops) lanes)) }
{
    let mut left = Seq::empty(alloc);
    let mut rows = Seq::empty(alloc);
    let mut drops = Seq::empty(alloc);
    for lane in lanes.into_vec() {
        let released = lane.release(alloc, upto)?;
        left.push(released.lane)?;
        rows.push(released.rows)?;
        push_all(&mut drops, released.drops)?;
    }
    Ok((left, rows, drops))
}

/// Feeds a lane the next entries of its segment, whose items these are.
///
/// # Errors
/// `Memory` where there was none for the events and the dropped records.
pub fn feed_lane(
    alloc: Global,
    lanes: Seq<Lane>,
    place: usize,
    items: &[Item],
    n: u32,
) -> Result<Seq<Lane>, Memory>
    requires { HasUnreadIn lanes place items.now n }
    ensures { IfOk result (λ fed. IsFedIn lanes place items.now n fed) }
{
    let mut rest = lanes.into_vec();
    let lane = rest.remove(place);
    let fed = lane.feed(alloc, items, n)?;
    rest.insert(place, fed)?;
    Ok(Seq::from_vec(rest))
}
