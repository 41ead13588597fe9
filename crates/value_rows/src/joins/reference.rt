//! Tests of the join with a reference.

use super::{Joined, Row, are_joined, equal_keys, moment, rows_of};
use event_value::{Memory, Seq, Stamped};
use std::alloc::Global;
use std::test::Fail;
use stream_joins::{Matches, ReferenceJoin, ReferenceSpec, Versions};
use stream_op::{StreamOp, push_rows};
use tick_time::Moment;

/// Snapshots that are effective at the ticks 10 and 20.
fn tariff(alloc: Global, first: &[Row], second: &[Row]) -> Result<Versions, Memory> {
    let effective = [Moment::of_count(10), Moment::of_count(20)];
    let first = rows_of(alloc, first)?;
    let second = rows_of(alloc, second)?;
    let mut rows = Seq::empty(alloc);
    rows.push(first)?;
    rows.push(second)?;
    Versions::of(&effective, rows)
}

/// Whether the places in force are these.
fn are_in_force(alloc: Global, versions: &Versions, wanted: &[(u64, Option<u32>)]) -> bool {
    wanted
        .iter()
        .all(|(time, place)| versions.in_force(moment(*time)) == *place)
}

#[test]
fn the_last_snapshot_at_or_before_a_time_is_in_force(rt: HostRuntime) -> Result<(), Fail> {
    let versions = tariff(rt.alloc(), &[], &[])?;
    let wanted = [
        (0, None),
        (9, None),
        (10, Some(0)),
        (19, Some(0)),
        (20, Some(1)),
        (900, Some(1)),
    ];
    assert!(rt; are_in_force(rt.alloc(), &versions, &wanted));
    Ok(())
}

#[test]
fn without_snapshots_none_is_in_force(rt: HostRuntime) -> Result<(), Fail> {
    let versions = Versions::of(&[], Seq::empty(rt.alloc()))?;
    assert!(rt; are_in_force(rt.alloc(), &versions, &[(0, None), (900, None)]));
    Ok(())
}

const FIRST: &[Row] = &[(0, Some(1), 101), (0, None, 102), (0, Some(2), 103)];

const SECOND_ONE: &[Row] = &[(0, Some(1), 201), (0, Some(1), 202)];

const LEFT: &[Row] = &[
    (9, Some(1), 1),
    (10, Some(1), 2),
    (10, None, 3),
    (19, Some(2), 4),
    (20, Some(2), 5),
    (20, Some(1), 6),
];

/// The next rows, and below which time they are then complete.
type Cut<'a> = (&'a [Row], u64);

/// The answers of a join, behind each other.
fn answers<M: Matches>(
    alloc: Global,
    spec: &ReferenceSpec<M>,
    cuts: &[Cut],
) -> Result<Seq<Stamped>, Memory> {
    let mut join = ReferenceJoin::<M>::begin(alloc, spec)?;
    let mut rows = Seq::empty(alloc);
    for (left, upto) in cuts {
        let left = rows_of(alloc, left)?;
        let (next, more) = join.advance(alloc, left.items(), &[], moment(*upto))?;
        join = next;
        push_rows(&mut rows, more.items())?;
    }
    Ok(rows)
}

/// Whether a join with the tariff gives these rows.
fn gives<M: Matches>(
    alloc: Global,
    matches: M,
    outer: bool,
    cuts: &[Cut],
    wanted: &[Joined],
) -> Result<bool, Memory> {
    let versions = tariff(alloc, FIRST, SECOND_ONE)?;
    let spec = ReferenceSpec {
        matches,
        versions,
        outer,
        width: 2,
    };
    let rows = answers(alloc, &spec, cuts)?;
    Ok(are_joined(rows.items(), wanted))
}

/// Whether a join with the tariff on equal keys gives these rows.
fn gives_by_keys(
    alloc: Global,
    outer: bool,
    cuts: &[Cut],
    wanted: &[Joined],
) -> Result<bool, Memory> {
    gives(alloc, equal_keys(alloc)?, outer, cuts, wanted)
}

const WAYS: [&[Cut]; 2] = [
    &[(LEFT, 900)],
    &[
        (&[(9, Some(1), 1)], 10),
        (&[(10, Some(1), 2), (10, None, 3)], 15),
        (&[], 15),
        (&[(19, Some(2), 4)], 20),
        (&[(20, Some(2), 5), (20, Some(1), 6)], 21),
    ],
];

#[test]
fn a_row_meets_the_snapshot_in_force_at_its_time(rt: HostRuntime) -> Result<(), Fail> {
    let wanted = [
        (10, 2, Some(101)),
        (19, 4, Some(103)),
        (20, 6, Some(201)),
        (20, 6, Some(202)),
    ];
    for &way in &WAYS {
        assert!(rt; gives_by_keys(rt.alloc(), false, way, &wanted)?);
    }
    Ok(())
}

#[test]
fn a_row_without_a_match_comes_alone_at_its_time(rt: HostRuntime) -> Result<(), Fail> {
    let wanted = [
        (9, 1, None),
        (10, 2, Some(101)),
        (10, 3, None),
        (19, 4, Some(103)),
        (20, 5, None),
        (20, 6, Some(201)),
        (20, 6, Some(202)),
    ];
    for &way in &WAYS {
        assert!(rt; gives_by_keys(rt.alloc(), true, way, &wanted)?);
    }
    Ok(())
}
