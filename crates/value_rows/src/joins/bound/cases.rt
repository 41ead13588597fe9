//! Joins of all rows in one piece.

use super::super::{Joined, Row, SECOND};
use super::{LAST, Within, gives_by_keys};
use event_value::Memory;
use std::alloc::Global;
use std::test::Fail;

/// Bounds, left and right rows, and the rows of their join.
type Case<'a> = (Within, &'a [Row], &'a [Row], &'a [Joined]);

/// Whether the joins of all cases have these rows.
fn all_give(alloc: Global, cases: &[Case]) -> Result<bool, Memory> {
    for (within, left, right, wanted) in cases {
        if !gives_by_keys(alloc, *within, &[(*left, *right, LAST)], wanted)? {
            return Ok(false);
        }
    }
    Ok(true)
}

#[test]
fn a_bound_may_look_back(rt: HostRuntime) -> Result<(), Fail> {
    assert!(rt; all_give(rt.alloc(), &BACK)?);
    Ok(())
}

/// Bounds that look back, wholly or both ways.
const BACK: [Case<'static>; 3] = [
    // up to ten seconds back, as where the two sides of the bound are exchanged
    (
        (-10, 0, true),
        &[(10 * SECOND, Some(1), 1)],
        &[
            (0, Some(1), 11),
            (10 * SECOND, Some(1), 12),
            (10 * SECOND + 1, Some(1), 13),
        ],
        &[(10 * SECOND, 1, Some(11)), (10 * SECOND, 1, Some(12))],
    ),
    // wholly back: a left row without a match comes at its own time
    (
        (-10, -5, true),
        &[(20 * SECOND, Some(1), 1), (21 * SECOND, Some(3), 2)],
        &[
            (10 * SECOND - 1, Some(1), 11),
            (10 * SECOND, Some(1), 12),
            (15 * SECOND, Some(1), 13),
            (15 * SECOND + 1, Some(1), 14),
        ],
        &[
            (20 * SECOND, 1, Some(12)),
            (20 * SECOND, 1, Some(13)),
            (21 * SECOND, 2, None),
        ],
    ),
    // both ways
    (
        (-5, 5, true),
        &[(10 * SECOND, Some(1), 1)],
        &[
            (4 * SECOND, Some(1), 11),
            (5 * SECOND, Some(1), 12),
            (15 * SECOND, Some(1), 13),
            (16 * SECOND, Some(1), 14),
        ],
        &[(10 * SECOND, 1, Some(12)), (15 * SECOND, 1, Some(13))],
    ),
];

#[test]
fn rows_of_one_time_go_by_left_and_then_right_places(rt: HostRuntime) -> Result<(), Fail> {
    assert!(rt; all_give(rt.alloc(), &TIES)?);
    Ok(())
}

/// Rows that are joined at one time.
const TIES: [Case<'static>; 3] = [
    (
        (0, 10, true),
        &[(5 * SECOND, Some(1), 1), (5 * SECOND, Some(1), 2)],
        &[(5 * SECOND, Some(1), 11)],
        &[(5 * SECOND, 1, Some(11)), (5 * SECOND, 2, Some(11))],
    ),
    (
        (0, 10, true),
        &[(4 * SECOND, Some(1), 1), (5 * SECOND, Some(1), 2)],
        &[(6 * SECOND, Some(1), 11), (6 * SECOND, Some(1), 12)],
        &[
            (6 * SECOND, 1, Some(11)),
            (6 * SECOND, 1, Some(12)),
            (6 * SECOND, 2, Some(11)),
            (6 * SECOND, 2, Some(12)),
        ],
    ),
    (
        (0, 10, true),
        &[(30 * SECOND, Some(2), 1), (35 * SECOND, Some(1), 2)],
        &[(40 * SECOND, Some(1), 11)],
        &[(40 * SECOND, 1, None), (40 * SECOND, 2, Some(11))],
    ),
];

#[test]
fn null_keys_never_match(rt: HostRuntime) -> Result<(), Fail> {
    assert!(rt; all_give(rt.alloc(), &NO_KEYS)?);
    Ok(())
}

/// Rows without a key.
const NO_KEYS: [Case<'static>; 1] = [(
    (0, 10, true),
    &[(0, None, 1)],
    &[(0, None, 11)],
    &[(10 * SECOND, 1, None)],
)];
