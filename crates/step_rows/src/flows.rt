//! Tests of windows that follow the rows, on settled rows, in one piece and in many: sliding ones
//! here, sessions in flows/sessions.rt.
//!
//! An event is written as its time, its part, its key and its number; a row as its time, its key,
//! the number of its events and their sum.

mod sessions;

use crate::keyed::{count_and_sum, key_value};
use event_value::{Memory, Seq, Stamped, Value};
use std::alloc::Global;
use std::test::Fail;
use stream_op::{StreamOp, push_rows};
use tick_time::{Moment, Unit, span_of};
use window_flow::{Sliding, SlidingSpec};

/// A time in ticks, below a day, a part, a key, NULL where there is none, and a number.
type Event = (u64, i64, Option<i64>, i64);

/// A time, a key, a count and a sum.
type Row = (u64, Option<i64>, i64, i64);

/// The next events, and the time below which they are then complete.
type Cut<'a> = (&'a [Event], u64);

const SECOND: u64 = 10_000_000;

const MINUTE: u64 = 60 * SECOND;

const LATE: u64 = 1000 * MINUTE;

/// The moment of so many ticks.
fn moment(ticks: u64) -> Moment {
    Moment::of_count(ticks % (1440 * MINUTE))
}

/// The rows of events.
fn rows_of(alloc: Global, events: &[Event]) -> Result<Seq<Stamped>, Memory> {
    let mut rows = Seq::empty(alloc);
    for (ticks, part, key, number) in events {
        let mut values = Seq::empty(alloc);
        values.push(Value::Big(*part))?;
        values.push(key_value(*key))?;
        values.push(Value::Big(*number))?;
        let time = moment(*ticks);
        rows.push(Stamped { time, values })?;
    }
    Ok(rows)
}

/// Whether a row has this time, and ends with these values.
fn is_row(found: &Stamped, wanted: &Row) -> bool {
    let (ticks, key, count, sum) = wanted;
    let values = [key_value(*key), Value::Big(*count), Value::Big(*sum)];
    found.time == moment(*ticks) && found.values.items().ends_with(&values)
}

/// Whether the rows are these.
fn are_rows(found: &[Stamped], wanted: &[Row]) -> bool {
    found.len() == wanted.len()
        && found
            .iter()
            .zip(wanted)
            .all(|(row, want)| is_row(row, want))
}

/// The answers of an operator, behind each other.
fn answers<O: StreamOp + Drop>(
    alloc: Global,
    spec: &O::Spec,
    cuts: &[Cut],
) -> Result<Seq<Stamped>, Memory>
    requires { O.fits spec.now }
{
    let mut operator = O::begin(alloc, spec)?;
    let mut rows = Seq::empty(alloc);
    for (events, upto) in cuts {
        let new = rows_of(alloc, events)?;
        let (next, more) = operator.advance(alloc, new.items(), &[], moment(*upto))?;
        operator = next;
        push_rows(&mut rows, more.items())?;
    }
    Ok(rows)
}

/// Whether a window of 10 seconds that slides for each part and key gives these rows.
fn slides(alloc: Global, cuts: &[Cut], wanted: &[Row]) -> Result<bool, Memory> {
    let Some(size) = span_of(Unit::Second, 10) else {
        return Ok(false);
    };
    let spec = SlidingSpec {
        size,
        keys: 2,
        aggs: count_and_sum(alloc, 2)?,
    };
    if !spec.fits() {
        return Ok(false);
    }
    let rows = answers::<Sliding>(alloc, &spec, cuts)?;
    Ok(are_rows(rows.items(), wanted))
}

const A: Option<i64> = Some(1);

const B: Option<i64> = Some(2);

#[test]
fn rows_slide_in_and_out_however_events_come(rt: HostRuntime) -> Result<(), Fail> {
    let events: &[Event] = &[(SECOND, 0, A, 3), (5 * SECOND, 0, A, 4)];
    let wanted = [
        (SECOND, A, 1, 3),
        (5 * SECOND, A, 2, 7),
        (11 * SECOND, A, 1, 4),
    ];
    let ways: [&[Cut]; 3] = [
        &[(events, LATE)],
        &[
            (&events[..1], 2 * SECOND),
            (&events[1..], 6 * SECOND),
            (&[], 11 * SECOND),
            (&[], 11 * SECOND + 1),
            (&[], LATE),
        ],
        &[(&[], 0), (events, 5 * SECOND + 1), (&[], 30 * SECOND)],
    ];
    for &way in &ways {
        assert!(rt; slides(rt.alloc(), way, &wanted)?);
    }
    Ok(())
}

#[test]
fn the_leaving_row_is_out_and_the_entering_one_in(rt: HostRuntime) -> Result<(), Fail> {
    let events: &[Event] = &[
        (SECOND, 0, A, 3),
        (11 * SECOND, 0, A, 4),
        (11 * SECOND, 0, A, 5),
        (21 * SECOND - 1, 0, A, 6),
    ];
    let wanted = [
        (SECOND, A, 1, 3),
        (11 * SECOND, A, 2, 9),
        (21 * SECOND - 1, A, 3, 15),
        (21 * SECOND, A, 1, 6),
    ];
    assert!(rt; slides(rt.alloc(), &[(events, LATE)], &wanted)?);
    Ok(())
}

#[test]
fn each_key_slides_by_itself(rt: HostRuntime) -> Result<(), Fail> {
    let events: &[Event] = &[
        (SECOND, 0, A, 1),
        (5 * SECOND, 0, A, 2),
        (9 * SECOND, 0, B, 4),
        (13 * SECOND, 0, B, 8),
        (19 * SECOND, 0, None, 16),
    ];
    let wanted = [
        (SECOND, A, 1, 1),
        (5 * SECOND, A, 2, 3),
        (9 * SECOND, B, 1, 4),
        (11 * SECOND, A, 1, 2),
        (13 * SECOND, B, 2, 12),
        (19 * SECOND, None, 1, 16),
        (19 * SECOND, B, 1, 8),
    ];
    assert!(rt; slides(rt.alloc(), &[(events, LATE)], &wanted)?);
    Ok(())
}
