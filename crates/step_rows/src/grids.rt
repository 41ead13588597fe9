//! Tests of grids and snapshots on settled rows, in one piece and in many.
//!
//! An event is written as its second, its key and its number; a row as its second, its key, the
//! number of its events and their sum.

use crate::keyed::{count_and_sum, key_value};
use event_value::{Memory, Seq, Stamped, Value};
use std::alloc::Global;
use std::test::Fail;
use stream_op::{StreamOp, push_rows};
use tick_time::{Moment, Unit, span_of};
use window_grid::{Grid, GridSpec, Snapshot, SnapshotSpec};

/// A second below 1000, a key, NULL where there is none, and a number.
type Event = (u64, Option<i64>, i64);

/// A second below 1000, a key, a count and a sum.
type Row = (u64, Option<i64>, i64, i64);

/// The next events, and the second below which they are then complete.
type Cut<'a> = (&'a [Event], u64);

/// The moment of a second.
fn moment(second: u64) -> Moment {
    Moment::of_count(second % 1000 * 10_000_000)
}

/// The rows of events.
fn rows_of(alloc: Global, events: &[Event]) -> Result<Seq<Stamped>, Memory> {
    let mut rows = Seq::empty(alloc);
    for (second, key, number) in events {
        let mut values = Seq::empty(alloc);
        values.push(key_value(*key))?;
        values.push(Value::Big(*number))?;
        let time = moment(*second);
        rows.push(Stamped { time, values })?;
    }
    Ok(rows)
}

/// Whether a row is this one.
fn is_row(found: &Stamped, wanted: &Row) -> bool {
    let (second, key, count, sum) = wanted;
    found.time == moment(*second)
        && found.values.items()
            == [key_value(*key), Value::Big(*count), Value::Big(*sum)].as_slice()
}

/// Whether the rows are these.
fn are_rows(found: &[Stamped], wanted: &[Row]) -> bool {
    found.len() == wanted.len()
        && found
            .iter()
            .zip(wanted)
            .all(|(row, want)| is_row(row, want))
}

/// The answers of an operator, behind each other.
fn answers<O: StreamOp + Drop>(
    alloc: Global,
    spec: &O::Spec,
    cuts: &[Cut],
) -> Result<Seq<Stamped>, Memory>
    requires { O.fits spec.now }
{
    let mut operator = O::begin(alloc, spec)?;
    let mut rows = Seq::empty(alloc);
    for (events, upto) in cuts {
        let new = rows_of(alloc, events)?;
        let (next, more) = operator.advance(alloc, new.items(), &[], moment(*upto))?;
        operator = next;
        push_rows(&mut rows, more.items())?;
    }
    Ok(rows)
}

/// Whether a grid of windows of this size and hop in seconds gives these rows.
fn grid_gives(
    alloc: Global,
    size: i64,
    hop: i64,
    cuts: &[Cut],
    wanted: &[Row],
) -> Result<bool, Memory> {
    let (Some(size), Some(hop)) = (span_of(Unit::Second, size), span_of(Unit::Second, hop)) else {
        return Ok(false);
    };
    let spec = GridSpec {
        size,
        hop,
        offset: hop,
        keys: 1,
        aggs: count_and_sum(alloc, 1)?,
    };
    if !spec.fits() {
        return Ok(false);
    }
    let rows = answers::<Grid>(alloc, &spec, cuts)?;
    Ok(are_rows(rows.items(), wanted))
}

/// Whether a snapshot gives these rows.
fn snapshot_gives(alloc: Global, cuts: &[Cut], wanted: &[Row]) -> Result<bool, Memory> {
    let spec = SnapshotSpec {
        keys: 1,
        aggs: count_and_sum(alloc, 1)?,
    };
    let rows = answers::<Snapshot>(alloc, &spec, cuts)?;
    Ok(are_rows(rows.items(), wanted))
}

const EVENTS: &[Event] = &[
    (1, Some(2), 70),
    (4, Some(1), 71),
    (5, Some(2), 72),
    (9, Some(2), 73),
];

/// The events in one piece, event by event, and with empty pieces.
const WAYS: [&[Cut]; 3] = [
    &[(EVENTS, 900)],
    &[
        (&[(1, Some(2), 70)], 2),
        (&[(4, Some(1), 71)], 5),
        (&[(5, Some(2), 72)], 6),
        (&[(9, Some(2), 73)], 900),
    ],
    &[
        (&[], 0),
        (&[(1, Some(2), 70), (4, Some(1), 71)], 5),
        (&[], 5),
        (&[(5, Some(2), 72)], 7),
        (&[], 8),
        (&[(9, Some(2), 73)], 10),
        (&[], 11),
    ],
];

#[test]
fn windows_tumble_however_events_come(rt: HostRuntime) -> Result<(), Fail> {
    let wanted = [
        (5, Some(1), 1, 71),
        (5, Some(2), 2, 142),
        (10, Some(2), 1, 73),
    ];
    for &way in &WAYS {
        assert!(rt; grid_gives(rt.alloc(), 5, 5, way, &wanted)?);
    }
    Ok(())
}

#[test]
fn a_window_holds_its_end_and_not_its_start(rt: HostRuntime) -> Result<(), Fail> {
    let events: &[Event] = &[(0, Some(1), 3), (5, Some(1), 4)];
    let wanted = [(0, Some(1), 1, 3), (5, Some(1), 1, 4)];
    assert!(rt; grid_gives(rt.alloc(), 5, 5, &[(events, 900)], &wanted)?);
    Ok(())
}

#[test]
fn windows_hop(rt: HostRuntime) -> Result<(), Fail> {
    let wanted = [(5, Some(1), 1, 7), (10, Some(1), 1, 7)];
    assert!(rt; grid_gives(rt.alloc(), 10, 5, &[(&[(3, Some(1), 7)], 900)], &wanted)?);
    Ok(())
}

#[test]
fn null_keys_are_one_key(rt: HostRuntime) -> Result<(), Fail> {
    let events: &[Event] = &[(1, None, 3), (2, Some(1), 4), (3, None, 5)];
    let wanted = [(5, None, 2, 8), (5, Some(1), 1, 4)];
    assert!(rt; grid_gives(rt.alloc(), 5, 5, &[(events, 900)], &wanted)?);
    Ok(())
}

#[test]
fn a_snapshot_has_a_row_for_each_time_and_key(rt: HostRuntime) -> Result<(), Fail> {
    let events: &[Event] = &[
        (2, Some(2), 1),
        (2, Some(1), 2),
        (2, Some(2), 4),
        (3, Some(2), 8),
    ];
    let wanted = [(2, Some(1), 1, 2), (2, Some(2), 2, 5), (3, Some(2), 1, 8)];
    let ways: [&[Cut]; 2] = [
        &[(events, 900)],
        &[(&events[..3], 3), (&[], 3), (&events[3..], 4)],
    ];
    for &way in &ways {
        assert!(rt; snapshot_gives(rt.alloc(), way, &wanted)?);
    }
    Ok(())
}
