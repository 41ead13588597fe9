//! Tests on rows of equal and of different times.

ghost use Rattle.std.specs.Prelude.{◌<◌};

use crate::marks::{Mark, have_marks, moment, rows_of};
use event_value::{Event, Seq};
use row_order::put_in_order;
use std::test::Fail;

#[test]
fn equal_times_keep_their_order(rt: HostRuntime) -> Result<(), Fail> {
    let alloc = rt.alloc();
    let table: [(&[Mark], &[Mark]); 5] = [
        (&[], &[]),
        (&[(7, 1)], &[(7, 1)]),
        (&[(3, 1), (3, 2), (3, 3)], &[(3, 1), (3, 2), (3, 3)]),
        (&[(9, 1), (5, 2), (1, 3)], &[(1, 3), (5, 2), (9, 1)]),
        (
            &[(5, 1), (2, 2), (5, 3), (2, 4), (0, 5)],
            &[(0, 5), (2, 2), (2, 4), (5, 1), (5, 3)],
        ),
    ];
    for &(marks, wanted) in &table {
        let ordered = put_in_order(rows_of(alloc, marks)?)?;
        assert!(rt; have_marks(ordered.items(), wanted));
    }
    Ok(())
}

/// The places and times of events.
const EVENTS: [(u32, u64); 3] = [(0, 20), (1, 10), (2, 20)];

#[test]
fn events_are_ordered_by_their_time(rt: HostRuntime) -> Result<(), Fail> {
    let alloc = rt.alloc();
    let mut events = Seq::empty(alloc);
    for &(index, time) in &EVENTS {
        events.push(Event {
            time: moment(time),
            partition: 0,
            segment: 0,
            index,
            values: Seq::empty(alloc),
        })?;
    }
    let ordered = put_in_order(events)?;
    let places: [u32; 3] = [1, 0, 2];
    assert_eq!(rt; ordered.items().len(), places.len());
    let same = ordered
        .items()
        .iter()
        .zip(&places)
        .all(|(event, place)| event.index == *place);
    assert!(rt; same);
    Ok(())
}
