//! Tests on worked lanes.

use event_value::{Memory, Policy, Rule, Value};
use std::alloc::Global;
use std::test::Fail;
use tick_time::Moment;
use time_policy::{PolicyState, Verdict};

/// Ticks in a second.
const SECOND: i64 = 10_000_000;

/// Seconds to noon.
const NOON: u32 = 43_200;

/// This many seconds after the start of 1970.
fn at(seconds: u32) -> Moment {
    Moment::of_count(u64::from(seconds) * 10_000_000)
}

/// One tick later.
fn just_after(seconds: u32) -> Moment {
    Moment::of_count(u64::from(seconds) * 10_000_000 + 1)
}

/// Kept at this second.
fn kept(seconds: u32) -> Verdict {
    Verdict::Kept(at(seconds))
}

/// Dropped by this rule.
fn dropped(rule: Rule) -> Verdict {
    Verdict::Dropped(rule)
}

/// A record of a lane: when it was enqueued, its stamp, its device, and what becomes of it.
#[derive(Clone, Copy)]
struct Record {
    enqueued: u32,
    stamp: Option<Moment>,
    device: i64,
    wanted: Verdict,
}

impl Record {
    /// A stamped record of device 0.
    fn new(enqueued: u32, stamp: Moment, wanted: Verdict) -> Record {
        Record {
            enqueued,
            stamp: Some(stamp),
            device: 0,
            wanted,
        }
    }
}

/// One stamped record of device 0.
fn one(enqueued: u32, stamp: Moment, wanted: Verdict) -> [Record; 1] {
    [Record::new(enqueued, stamp, wanted)]
}

/// The state after the records, and whether each had the verdict that was wanted.
fn state_after(
    alloc: Global,
    start: PolicyState,
    records: &[Record],
) -> Result<(PolicyState, bool), Memory> {
    let mut state = start;
    let mut same = true;
    for row in records {
        let moment = at(row.enqueued);
        let key = [Value::Big(row.device)];
        let (next, verdict) = state.take(alloc, moment, moment, row.stamp, &key)?;
        state = next;
        same &= verdict == row.wanted;
    }
    Ok((state, same))
}

/// A lane with these tolerances in seconds, stamped or not, with OVER or not.
fn lane(
    alloc: Global,
    tolerances: (u32, u32),
    adjust: bool,
    stamped: bool,
    over: bool,
) -> PolicyState {
    let (late, disorder) = tolerances;
    let policy = Policy {
        late: i64::from(late) * SECOND,
        disorder: i64::from(disorder) * SECOND,
        adjust,
        skew: 0,
    };
    PolicyState::start(alloc, &policy, stamped, over)
}

#[test]
fn late_and_early_records_have_their_verdicts(rt: HostRuntime) -> Result<(), Fail> {
    let alloc = rt.alloc();
    let after = NOON + 20;
    let table = [
        (true, one(after, at(NOON), kept(NOON + 15))),
        (true, one(after, at(NOON + 15), kept(NOON + 15))),
        (true, one(after, at(NOON + 16), kept(NOON + 16))),
        (false, one(after, at(NOON), dropped(Rule::Late))),
        (false, one(after, at(NOON + 15), kept(NOON + 15))),
        (true, one(NOON, at(NOON + 300), kept(NOON + 300))),
        (
            true,
            one(NOON, just_after(NOON + 300), dropped(Rule::Early)),
        ),
        (false, one(NOON, at(NOON + 300), kept(NOON + 300))),
        (
            false,
            one(NOON, just_after(NOON + 300), dropped(Rule::Early)),
        ),
    ];
    for (adjust, rows) in &table {
        let start = lane(alloc, (5, 0), *adjust, true, false);
        let (_state, same) = state_after(alloc, start, rows)?;
        assert!(rt; same);
    }
    Ok(())
}

#[test]
fn disorder_keeps_at_the_mark(rt: HostRuntime) -> Result<(), Fail> {
    let alloc = rt.alloc();
    let fourth = [(true, kept(11)), (false, dropped(Rule::Disorder))];
    for &(adjust, wanted) in &fourth {
        let rows = [
            Record::new(10, at(10), kept(10)),
            Record::new(13, at(13), kept(13)),
            Record::new(13, at(11), kept(11)),
            Record::new(13, at(10), wanted),
        ];
        let (state, same) = state_after(alloc, lane(alloc, (5, 2), adjust, true, false), &rows)?;
        assert!(rt; same);
        assert!(rt; state.watermark() == at(11));
        assert!(rt; state.arrival() == at(13));
    }
    Ok(())
}

#[test]
fn substreams_have_their_own_marks(rt: HostRuntime) -> Result<(), Fail> {
    let alloc = rt.alloc();
    for &(over, wanted) in &[(true, NOON), (false, NOON + 60)] {
        let rows = [
            Record::new(NOON + 60, at(NOON + 60), kept(NOON + 60)),
            Record {
                enqueued: NOON + 61,
                stamp: Some(at(NOON)),
                device: 1,
                wanted: kept(wanted),
            },
        ];
        let start = lane(alloc, (120, 0), true, true, over);
        let (_state, same) = state_after(alloc, start, &rows)?;
        assert!(rt; same);
    }
    Ok(())
}

#[test]
fn records_without_a_stamp_and_marks_move_the_lane(rt: HostRuntime) -> Result<(), Fail> {
    let alloc = rt.alloc();
    let missing = Record {
        enqueued: 30,
        stamp: None,
        device: 0,
        wanted: dropped(Rule::NoTime),
    };
    let (state, same) = state_after(alloc, lane(alloc, (5, 0), true, true, false), &[missing])?;
    assert!(rt; same);
    assert!(rt; state.arrival() == at(30));
    assert!(rt; state.watermark() == at(0));
    let state = state.mark(at(40));
    assert!(rt; state.arrival() == at(40));
    assert!(rt; state.watermark() == at(35));
    let unstamped = Record {
        enqueued: 30,
        stamp: None,
        device: 0,
        wanted: kept(30),
    };
    let start = lane(alloc, (5, 0), true, false, false);
    let (state, same) = state_after(alloc, start, &[unstamped])?;
    assert!(rt; same);
    assert!(rt; state.mark(at(40)).watermark() == at(40));
    Ok(())
}
