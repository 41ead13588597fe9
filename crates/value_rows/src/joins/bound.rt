//! Tests of the join within a bound, in one piece and in many; those in one piece alone stand in
//! bound/cases.rt.

mod cases;

ghost use Rattle.std.specs.Prelude.{true};

use super::{Joined, Row, SECOND, are_joined, equal_keys, moment, rows_of};
use event_value::{Copies, Memory, Seq, Stamped, Value};
use std::alloc::Global;
use std::test::Fail;
use stream_joins::{BoundJoin, BoundSpec, Matches};
use stream_op::{StreamOp, push_rows};
use tick_time::{Moment, Unit, span_of};

/// The next left rows, the next right rows, and below which time both are then complete.
type Cut<'a> = (&'a [Row], &'a [Row], u64);

/// How many seconds behind the left row the right one is at least, and at most, and whether left
/// rows come alone.
type Within = (i64, i64, bool);

/// The answers of a join, behind each other.
fn answers<M: Matches>(
    alloc: Global,
    spec: &BoundSpec<M>,
    cuts: &[Cut],
) -> Result<Seq<Stamped>, Memory> {
    let mut join = BoundJoin::<M>::begin(alloc, spec)?;
    let mut rows = Seq::empty(alloc);
    for (left, right, upto) in cuts {
        let left = rows_of(alloc, left)?;
        let right = rows_of(alloc, right)?;
        let (next, more) = join.advance(alloc, left.items(), right.items(), moment(*upto))?;
        join = next;
        push_rows(&mut rows, more.items())?;
    }
    Ok(rows)
}

/// Whether a join gives these rows.
fn gives<M: Matches>(
    alloc: Global,
    matches: M,
    within: Within,
    cuts: &[Cut],
    wanted: &[Joined],
) -> Result<bool, Memory> {
    let (low, high, outer) = within;
    let (Some(low), Some(high)) = (span_of(Unit::Second, low), span_of(Unit::Second, high)) else {
        return Ok(false);
    };
    let spec = BoundSpec {
        matches,
        low,
        high,
        outer,
        width: 2,
    };
    let rows = answers(alloc, &spec, cuts)?;
    Ok(are_joined(rows.items(), wanted))
}

/// Whether a join on equal keys gives these rows.
fn gives_by_keys(
    alloc: Global,
    within: Within,
    cuts: &[Cut],
    wanted: &[Joined],
) -> Result<bool, Memory> {
    gives(alloc, equal_keys(alloc)?, within, cuts, wanted)
}

const LAST: u64 = 999 * SECOND;

const LEFT: &[Row] = &[(0, Some(1), 1), (30 * SECOND, Some(2), 2)];

const RIGHT: &[Row] = &[
    (0, Some(1), 11),
    (10 * SECOND, Some(1), 12),
    (10 * SECOND + 1, Some(1), 13),
];

/// The rows in one piece, row by row, and the left ones before the right ones.
const WAYS: [&[Cut]; 3] = [
    &[(LEFT, RIGHT, LAST)],
    &[
        (&[(0, Some(1), 1)], &[(0, Some(1), 11)], 1),
        (&[], &[(10 * SECOND, Some(1), 12)], 10 * SECOND + 1),
        (&[], &[(10 * SECOND + 1, Some(1), 13)], 30 * SECOND),
        (&[(30 * SECOND, Some(2), 2)], &[], 40 * SECOND),
        (&[], &[], 40 * SECOND + 1),
        (&[], &[], LAST),
    ],
    &[
        (&[], &[], 0),
        (&[(0, Some(1), 1)], &[], 0),
        (&[], &[(0, Some(1), 11)], 5 * SECOND),
        (&[], &[], 5 * SECOND),
        (
            &[(30 * SECOND, Some(2), 2)],
            &[(10 * SECOND, Some(1), 12), (10 * SECOND + 1, Some(1), 13)],
            50 * SECOND,
        ),
    ],
];

#[test]
fn near_pairs_join_and_left_rows_without_come_alone(rt: HostRuntime) -> Result<(), Fail> {
    let wanted = [
        (0, 1, Some(11)),
        (10 * SECOND, 1, Some(12)),
        (40 * SECOND, 2, None),
    ];
    for &way in &WAYS {
        assert!(rt; gives_by_keys(rt.alloc(), (0, 10, true), way, &wanted)?);
    }
    Ok(())
}

#[test]
fn an_inner_join_has_pairs_alone(rt: HostRuntime) -> Result<(), Fail> {
    let wanted = [(0, 1, Some(11)), (10 * SECOND, 1, Some(12))];
    for &way in &WAYS {
        assert!(rt; gives_by_keys(rt.alloc(), (0, 10, false), way, &wanted)?);
    }
    Ok(())
}

#[test]
fn a_left_row_comes_alone_when_no_match_can_come_any_more(rt: HostRuntime) -> Result<(), Fail> {
    let pairs: &[Joined] = &[(0, 1, Some(11)), (10 * SECOND, 1, Some(12))];
    let early: &[Cut] = &[(LEFT, RIGHT, 40 * SECOND)];
    assert!(rt; gives_by_keys(rt.alloc(), (0, 10, true), early, pairs)?);
    let late_match: &[Cut] = &[
        (LEFT, RIGHT, 40 * SECOND),
        (&[], &[(40 * SECOND, Some(2), 14)], LAST),
    ];
    let wanted: &[Joined] = &[
        (0, 1, Some(11)),
        (10 * SECOND, 1, Some(12)),
        (40 * SECOND, 2, Some(14)),
    ];
    assert!(rt; gives_by_keys(rt.alloc(), (0, 10, true), late_match, wanted)?);
    Ok(())
}

/// Matches all rows, and fails on right rows of numbers from 1000 on.
#[derive(Drop)]
struct NearRows;

impl Copies for NearRows {
    fn copy(&self) -> Result<Self, Memory> {
        Ok(NearRows)
    }
}

impl Matches for NearRows {
    ghost pairs = { λ matches left right time. true };

    fn pair(
        &self,
        alloc: Global,
        left: &[Value],
        right: &[Value],
        time: Moment,
    ) -> Result<bool, Memory> {
        match right.get(1) {
            Some(Value::Big(number)) if *number >= 1000 => Err(Memory),
            _ => Ok(true),
        }
    }
}

#[test]
fn rows_outside_the_bound_are_passed_over_by_their_times(rt: HostRuntime) -> Result<(), Fail> {
    let right: &[Row] = &[
        (0, Some(1), 1001),
        (100 * SECOND - 1, Some(1), 1002),
        (100 * SECOND, Some(1), 11),
        (110 * SECOND, Some(1), 12),
        (110 * SECOND + 1, Some(1), 1003),
        (200 * SECOND, Some(1), 1004),
    ];
    let cuts: &[Cut] = &[(&[(100 * SECOND, Some(1), 1)], right, LAST)];
    let wanted = [(100 * SECOND, 1, Some(11)), (110 * SECOND, 1, Some(12))];
    assert!(rt; gives(rt.alloc(), NearRows, (0, 10, true), cuts, &wanted)?);
    Ok(())
}
