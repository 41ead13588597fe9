//! The rows of plans.
//!
//! An event is written as its second, its device and its reading; the device is NULL where none
//! is given. A row is written as its second and its values.

mod many;

use crate::parts::moment;
use crate::plans::{COUNT, GREATEST, Spelt, plan};
use event_value::{Memory, Seq, Stamped, Value};
use query_meaning::Pipeline;
use std::alloc::Global;
use std::test::Fail;

/// A second, a device, NULL where there is none, and a reading.
type Event = (u64, Option<i64>, i64);

/// A second and the values of a row.
type Row<'a> = (u64, &'a [Option<i64>]);

/// The value of a number, NULL where there is none.
fn value(number: Option<i64>) -> Value {
    match number {
        Some(number) => Value::Big(number),
        None => Value::Null,
    }
}

/// The rows of events.
fn stream(alloc: Global, events: &[Event]) -> Result<Seq<Stamped>, Memory> {
    let mut rows = Seq::empty(alloc);
    for (second, device, reading) in events {
        let mut values = Seq::empty(alloc);
        values.push(value(*device))?;
        values.push(Value::Big(*reading))?;
        let time = moment(*second);
        rows.push(Stamped { time, values })?;
    }
    Ok(rows)
}

/// Whether the values are these.
fn has_values(found: &[Value], wanted: &[Option<i64>]) -> bool {
    found.len() == wanted.len()
        && found.iter().zip(wanted).all(|(value, number)| match (value, number) {
            (Value::Null, None) => true,
            (Value::Big(found), Some(wanted)) => found == wanted,
            _ => false,
        })
}

/// Whether the rows are these.
fn are_rows(found: &[Stamped], wanted: &[Row]) -> bool {
    found.len() == wanted.len()
        && found.iter().zip(wanted).all(|(row, (second, values))| {
            row.time == moment(*second) && has_values(row.values.items(), values)
        })
}

/// Whether the rows of the outputs are these.
fn are_outputs(found: &[Seq<Stamped>], wanted: &[&[Row]]) -> bool {
    found.len() == wanted.len()
        && found
            .iter()
            .zip(wanted)
            .all(|(rows, wanted)| are_rows(rows.items(), wanted))
}

/// Whether a plan over one stream of these events, which are in order of time, has these outputs.
fn gives(
    alloc: Global,
    steps: &[Spelt],
    places: &[u16],
    events: &[Event],
    wanted: &[&[Row]],
) -> Result<bool, Memory> {
    let rows = stream(alloc, events)?;
    gives_over(alloc, steps, places, rows, wanted)
}

/// Whether a plan over one stream of these rows, which are in order of time, has these outputs.
fn gives_over(
    alloc: Global,
    steps: &[Spelt],
    places: &[u16],
    rows: Seq<Stamped>,
    wanted: &[&[Row]],
) -> Result<bool, Memory> {
    let plan = plan(alloc, steps, places)?;
    let pipeline = Pipeline::begin(alloc, &plan)?;
    let mut sources = Seq::empty(alloc);
    sources.push(rows)?;
    let (_, rows) = pipeline.advance(alloc, &plan, sources.items(), moment(99_999))?;
    Ok(are_outputs(rows.items(), wanted))
}

/// The readings of devices 1 and 2.
const READINGS: [Event; 4] = [
    (1, Some(1), 70),
    (4, Some(2), 71),
    (5, Some(1), 72),
    (9, Some(1), 73),
];

#[test]
fn windows_count_each_device(rt: HostRuntime) -> Result<(), Fail> {
    let steps = [Spelt::Source(0), Spelt::Grid(0, 5, 5, 1, COUNT)];
    let wanted: [Row; 3] = [
        (5, &[Some(1), Some(2)]),
        (5, &[Some(2), Some(1)]),
        (10, &[Some(1), Some(1)]),
    ];
    assert!(rt; gives(rt.alloc(), &steps, &[1], &READINGS, &[&wanted])?);
    Ok(())
}

#[test]
fn having_is_a_filter_behind_the_windows(rt: HostRuntime) -> Result<(), Fail> {
    let steps = [
        Spelt::Source(0),
        Spelt::Grid(0, 5, 5, 1, COUNT),
        Spelt::Above(1, 1, 1),
    ];
    let wanted: [Row; 1] = [(5, &[Some(1), Some(2)])];
    assert!(rt; gives(rt.alloc(), &steps, &[2], &READINGS, &[&wanted])?);
    Ok(())
}

#[test]
fn where_is_a_filter_before_the_windows(rt: HostRuntime) -> Result<(), Fail> {
    let steps = [
        Spelt::Source(0),
        Spelt::Above(0, 1, 70),
        Spelt::Grid(1, 5, 5, 0, COUNT),
    ];
    let wanted: [Row; 2] = [(5, &[Some(2)]), (10, &[Some(1)])];
    assert!(rt; gives(rt.alloc(), &steps, &[2], &READINGS, &[&wanted])?);
    Ok(())
}

#[test]
fn a_union_has_the_first_select_first(rt: HostRuntime) -> Result<(), Fail> {
    let steps = [
        Spelt::Source(0),
        Spelt::Column(0, 0),
        Spelt::Column(0, 1),
        Spelt::Union(1, 2),
    ];
    let events: [Event; 2] = [(0, Some(1), 10), (1, Some(2), 20)];
    let wanted: [Row; 4] = [
        (0, &[Some(1)]),
        (0, &[Some(10)]),
        (1, &[Some(2)]),
        (1, &[Some(20)]),
    ];
    assert!(rt; gives(rt.alloc(), &steps, &[3], &events, &[&wanted])?);
    Ok(())
}

#[test]
fn windows_stand_over_windows_and_each_output_has_its_step(rt: HostRuntime) -> Result<(), Fail> {
    let steps = [
        Spelt::Source(0),
        Spelt::Grid(0, 5, 5, 0, COUNT),
        Spelt::Grid(1, 10, 10, 0, GREATEST),
    ];
    let first: [Row; 2] = [(5, &[Some(3)]), (10, &[Some(1)])];
    let second: [Row; 1] = [(10, &[Some(3)])];
    assert!(rt;
        gives(
            rt.alloc(),
            &steps,
            &[2, 1, 2],
            &READINGS,
            &[&second, &first, &second]
        )?
    );
    Ok(())
}

#[test]
fn windows_hop_and_null_is_a_key(rt: HostRuntime) -> Result<(), Fail> {
    let steps = [Spelt::Source(0), Spelt::Grid(0, 10, 5, 1, COUNT)];
    let events: [Event; 2] = [(1, None, 1), (6, Some(1), 2)];
    let wanted: [Row; 4] = [
        (5, &[None, Some(1)]),
        (10, &[None, Some(1)]),
        (10, &[Some(1), Some(1)]),
        (15, &[Some(1), Some(1)]),
    ];
    assert!(rt; gives(rt.alloc(), &steps, &[1], &events, &[&wanted])?);
    Ok(())
}

#[test]
fn a_snapshot_has_the_rows_of_each_time(rt: HostRuntime) -> Result<(), Fail> {
    let steps = [Spelt::Source(0), Spelt::Snapshot(0, 0, COUNT)];
    let events: [Event; 3] = [(3, Some(1), 1), (3, Some(2), 2), (4, Some(1), 3)];
    let wanted: [Row; 2] = [(3, &[Some(2)]), (4, &[Some(1)])];
    assert!(rt; gives(rt.alloc(), &steps, &[1], &events, &[&wanted])?);
    Ok(())
}

#[test]
fn steps_without_an_earlier_step_have_no_rows(rt: HostRuntime) -> Result<(), Fail> {
    let steps = [
        Spelt::Source(1),
        Spelt::Column(1, 0),
        Spelt::Grid(0, 0, 5, 0, COUNT),
    ];
    assert!(rt;
        gives(
            rt.alloc(),
            &steps,
            &[0, 1, 2, 7],
            &READINGS,
            &[&[], &[], &[], &[]]
        )?
    );
    Ok(())
}

#[test]
fn a_plan_over_no_rows_has_none(rt: HostRuntime) -> Result<(), Fail> {
    let steps = [Spelt::Source(0), Spelt::Grid(0, 5, 5, 0, COUNT)];
    assert!(rt; gives(rt.alloc(), &steps, &[1], &[], &[&[]])?);
    Ok(())
}
