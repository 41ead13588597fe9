//! `feed_segments`, which feeds a lane what its files hold.

ghost use Rattle.std.specs.Prelude.{◌≡◌, ◌≤◌, [], ◌∷◌, IfOk, IfSome, length};
ghost use Rattle.arrival_text.specs.Segments.{max_segment};
ghost use Rattle.log_reading.specs.Asking.{AsksUntil, IsCaused};
ghost use Rattle.log_reading.specs.Feeding.{BeginsWith, FeedsFile, FeedsFiles, IsAtSegment};
ghost use Rattle.log_reading.specs.Log.{files_of_segments, items_of_file};

use crate::items::items_of_segment;
use crate::{NamedReadErr, read_named};
use arrival_text::MAX_SEGMENT;
use event_value::{Item, Seq};
use input_types::{SegmentName, Stream};
use job_core::Lane;
use outside::Files;
use std::alloc::Global;

/// The lane behind all its segments, which are read from their files.
pub fn feed_segments<F: Files>(
    alloc: Global,
    files: &mut F,
    stream: &Stream,
    lane: Lane,
    segments: &[SegmentName],
) -> Result<Lane, NamedReadErr>
    requires { BeginsWith lane segments.now }
    ensures fed { IfOk result (λ new. FeedsFiles (F.known files.old) stream.now segments.now lane new) }
    ensures asked { AsksUntil (files_of_segments segments.now) result (F.known files.old) (F.known files.new) }
    ensures never_falls { F.faults files.old ≤ F.faults files.new }
    ensures cause { IsCaused result (F.faults files.old) (F.faults files.new) }
{
    let mut fed = lane;
    for segment in segments {
        fed = feed_file(alloc, files, stream, fed, segment)?;
    }
    Ok(fed)
}

// The lane behind the segment at whose start it is, which is read from its file.
fn feed_file<F: Files>(
    alloc: Global,
    files: &mut F,
    stream: &Stream,
    lane: Lane,
    segment: &SegmentName,
) -> Result<Lane, NamedReadErr>
    requires { IsAtSegment lane segment.now }
    ensures fed { IfOk result (λ new. FeedsFile (F.known files.old) stream.now segment.now lane new) }
    ensures asked { AsksUntil (segment.now.file ∷ []) result (F.known files.old) (F.known files.new) }
    ensures never_falls { F.faults files.old ≤ F.faults files.new }
    ensures cause { IsCaused result (F.faults files.old) (F.faults files.new) }
{
    let items = read_items(alloc, files, stream, segment.file.items())?;
    let all = items.items().len() as u32 + 1;
    Ok(lane.feed(alloc, items.items(), all)?)
}

// The items of a file of a stream.
fn read_items<F: Files>(
    alloc: Global,
    files: &mut F,
    stream: &Stream,
    name: &[u8],
) -> Result<Seq<Item>, NamedReadErr>
    ensures items { IfOk result (λ items.
        IfSome (F.known files.old) (λ known. items ≡ items_of_file known stream.now name.now)) }
    ensures few { IfOk result (λ items. length items ≤ max_segment) }
    ensures asked { AsksUntil (name.now ∷ []) result (F.known files.old) (F.known files.new) }
    ensures never_falls { F.faults files.old ≤ F.faults files.new }
    ensures cause { IsCaused result (F.faults files.old) (F.faults files.new) }
{
    let segment = read_named(alloc, files, name, MAX_SEGMENT)?;
    Ok(items_of_segment(alloc, stream.format, &stream.columns, &segment)?)
}
