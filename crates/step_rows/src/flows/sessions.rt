//! Sessions.

use super::{A, B, Cut, Event, LATE, MINUTE, Row, answers, are_rows};
use crate::keyed::count_and_sum;
use event_value::Memory;
use std::alloc::Global;
use std::test::Fail;
use tick_time::{Unit, span_of};
use window_flow::{Session, SessionSpec};

/// Whether sessions of each part, with a timeout of 5 minutes and a maximum of 10, give these rows.
fn sessions_give(alloc: Global, cuts: &[Cut], wanted: &[Row]) -> Result<bool, Memory> {
    let (Some(timeout), Some(most)) = (span_of(Unit::Minute, 5), span_of(Unit::Minute, 10)) else {
        return Ok(false);
    };
    let spec = SessionSpec {
        timeout,
        most,
        parts: 1,
        keys: 1,
        aggs: count_and_sum(alloc, 2)?,
    };
    if !spec.fits() {
        return Ok(false);
    }
    let rows = answers::<Session>(alloc, &spec, cuts)?;
    Ok(are_rows(rows.items(), wanted))
}

#[test]
fn a_session_ends_at_its_timeout_or_its_maximum(rt: HostRuntime) -> Result<(), Fail> {
    let events: &[Event] = &[
        (MINUTE, 0, A, 1),
        (5 * MINUTE, 0, A, 2),
        (9 * MINUTE, 0, A, 4),
        (13 * MINUTE, 0, A, 8),
        (17 * MINUTE, 0, A, 16),
        (21 * MINUTE, 0, A, 32),
    ];
    let wanted = [(20 * MINUTE, A, 5, 31), (26 * MINUTE, A, 1, 32)];
    let ways: [&[Cut]; 3] = [
        &[(events, LATE)],
        &[
            (&events[..3], 10 * MINUTE),
            (&events[3..5], 20 * MINUTE),
            (&[], 20 * MINUTE + 1),
            (&events[5..], 22 * MINUTE),
            (&[], LATE),
        ],
        &[(&[], 0), (&events[..5], 21 * MINUTE), (&events[5..], LATE)],
    ];
    for &way in &ways {
        assert!(rt; sessions_give(rt.alloc(), way, &wanted)?);
    }
    Ok(())
}

#[test]
fn a_session_is_given_once_its_end_is_past(rt: HostRuntime) -> Result<(), Fail> {
    let events: &[Event] = &[(MINUTE, 0, A, 1)];
    let wanted = [(6 * MINUTE, A, 1, 1)];
    assert!(rt; sessions_give(rt.alloc(), &[(events, 6 * MINUTE)], &[])?);
    assert!(rt; sessions_give(rt.alloc(), &[(events, 6 * MINUTE + 1)], &wanted)?);
    Ok(())
}

#[test]
fn a_gap_of_the_timeout_goes_on(rt: HostRuntime) -> Result<(), Fail> {
    let events: &[Event] = &[(MINUTE, 0, A, 1), (6 * MINUTE, 0, A, 2)];
    let wanted = [(11 * MINUTE, A, 2, 3)];
    assert!(rt; sessions_give(rt.alloc(), &[(events, LATE)], &wanted)?);
    let events: &[Event] = &[(MINUTE, 0, A, 1), (6 * MINUTE + 1, 0, A, 2)];
    let wanted = [(6 * MINUTE, A, 1, 1), (11 * MINUTE + 1, A, 1, 2)];
    assert!(rt; sessions_give(rt.alloc(), &[(events, LATE)], &wanted)?);
    Ok(())
}

#[test]
fn each_part_has_its_own_sessions(rt: HostRuntime) -> Result<(), Fail> {
    let events: &[Event] = &[
        (MINUTE, 7, A, 1),
        (3 * MINUTE, 8, A, 2),
        (6 * MINUTE, 7, B, 4),
        (9 * MINUTE, 8, None, 8),
        (9 * MINUTE, 7, A, 16),
    ];
    let wanted = [
        (8 * MINUTE, A, 1, 2),
        (14 * MINUTE, A, 2, 17),
        (14 * MINUTE, B, 1, 4),
        (14 * MINUTE, None, 1, 8),
    ];
    assert!(rt; sessions_give(rt.alloc(), &[(events, LATE)], &wanted)?);
    Ok(())
}
