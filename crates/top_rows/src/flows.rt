//! Sliding and session windows over one lane.

use crate::cases::{Case, previews};
use event_value::Memory;
use std::alloc::Global;
use std::test::Fail;

const METER: &str = "[policy]
late_seconds = 3600

[[stream]]
name = \"meter\"
format = \"csv\"
columns = [
    { name = \"time\", kind = \"datetime\" },
    { name = \"dev\", kind = \"nvarchar(max)\" },
]

[[stream.partition]]
ended = true
segments = [{ file = \"m.csv\", through = \"2024-01-01T01:00:00Z\" }]
";

/// Whether a query over the meter's records prints this text.
fn prints(alloc: Global, query: &str, records: &str, text: &str) -> Result<bool, Memory> {
    let case = Case {
        query: query.as_bytes(),
        inputs: METER.as_bytes(),
        files: &[("m.csv", records.as_bytes())],
    };
    previews(alloc, case, text)
}

#[test]
fn a_sliding_window_has_a_row_where_a_reading_enters_or_leaves(
    rt: HostRuntime,
) -> Result<(), Fail> {
    let query =
        "SELECT System.Timestamp() AS w, COUNT(*) AS n INTO out FROM meter TIMESTAMP BY time GROUP BY SlidingWindow(second, 10)";
    let records = "EventEnqueuedUtcTime,time,dev
2024-01-01T00:01:00Z,2024-01-01T00:00:01Z,A
2024-01-01T00:01:00Z,2024-01-01T00:00:05Z,A
";
    let text = "output out
{\"w\":\"2024-01-01T00:00:01.0000000Z\",\"n\":1}
{\"w\":\"2024-01-01T00:00:05.0000000Z\",\"n\":2}
{\"w\":\"2024-01-01T00:00:11.0000000Z\",\"n\":1}
drops
";
    assert!(rt; prints(rt.alloc(), query, records, text)?);
    Ok(())
}

#[test]
fn the_exit_of_one_key_stands_between_the_entries_of_another(rt: HostRuntime) -> Result<(), Fail> {
    let query =
        "SELECT System.Timestamp() AS w, dev, COUNT(*) AS n INTO out FROM meter TIMESTAMP BY time GROUP BY dev, SlidingWindow(second, 10)";
    let records = "EventEnqueuedUtcTime,time,dev
2024-01-01T00:01:00Z,2024-01-01T00:00:01Z,A
2024-01-01T00:01:00Z,2024-01-01T00:00:05Z,A
2024-01-01T00:01:00Z,2024-01-01T00:00:09Z,B
2024-01-01T00:01:00Z,2024-01-01T00:00:13Z,B
";
    let text = "output out
{\"w\":\"2024-01-01T00:00:01.0000000Z\",\"dev\":\"A\",\"n\":1}
{\"w\":\"2024-01-01T00:00:05.0000000Z\",\"dev\":\"A\",\"n\":2}
{\"w\":\"2024-01-01T00:00:09.0000000Z\",\"dev\":\"B\",\"n\":1}
{\"w\":\"2024-01-01T00:00:11.0000000Z\",\"dev\":\"A\",\"n\":1}
{\"w\":\"2024-01-01T00:00:13.0000000Z\",\"dev\":\"B\",\"n\":2}
{\"w\":\"2024-01-01T00:00:19.0000000Z\",\"dev\":\"B\",\"n\":1}
drops
";
    assert!(rt; prints(rt.alloc(), query, records, text)?);
    Ok(())
}

const SESSIONS: &str =
    "SELECT System.Timestamp() AS w, COUNT(*) AS n INTO out FROM meter TIMESTAMP BY time GROUP BY SessionWindow(minute, 5, 10)";

#[test]
fn a_session_ends_at_its_maximum_and_the_next_reading_begins_another(
    rt: HostRuntime,
) -> Result<(), Fail> {
    let records = "EventEnqueuedUtcTime,time,dev
2024-01-01T01:00:00Z,2024-01-01T00:01:00Z,A
2024-01-01T01:00:00Z,2024-01-01T00:05:00Z,A
2024-01-01T01:00:00Z,2024-01-01T00:09:00Z,A
2024-01-01T01:00:00Z,2024-01-01T00:13:00Z,A
2024-01-01T01:00:00Z,2024-01-01T00:17:00Z,A
2024-01-01T01:00:00Z,2024-01-01T00:21:00Z,A
";
    let text = "output out
{\"w\":\"2024-01-01T00:20:00.0000000Z\",\"n\":5}
{\"w\":\"2024-01-01T00:26:00.0000000Z\",\"n\":1}
drops
";
    assert!(rt; prints(rt.alloc(), SESSIONS, records, text)?);
    Ok(())
}

#[test]
fn a_gap_of_exactly_the_timeout_goes_on_and_one_tick_more_does_not(
    rt: HostRuntime,
) -> Result<(), Fail> {
    let exact = "EventEnqueuedUtcTime,time,dev
2024-01-01T01:00:00Z,2024-01-01T00:01:00Z,A
2024-01-01T01:00:00Z,2024-01-01T00:06:00Z,A
";
    let one = "output out
{\"w\":\"2024-01-01T00:11:00.0000000Z\",\"n\":2}
drops
";
    let later = "EventEnqueuedUtcTime,time,dev
2024-01-01T01:00:00Z,2024-01-01T00:01:00Z,A
2024-01-01T01:00:00Z,2024-01-01T00:06:00.0000001Z,A
";
    let two = "output out
{\"w\":\"2024-01-01T00:06:00.0000000Z\",\"n\":1}
{\"w\":\"2024-01-01T00:11:00.0000001Z\",\"n\":1}
drops
";
    assert!(rt; prints(rt.alloc(), SESSIONS, exact, one)?);
    assert!(rt; prints(rt.alloc(), SESSIONS, later, two)?);
    Ok(())
}

#[test]
fn each_part_has_its_own_sessions(rt: HostRuntime) -> Result<(), Fail> {
    let query =
        "SELECT System.Timestamp() AS w, dev, COUNT(*) AS n INTO out FROM meter TIMESTAMP BY time GROUP BY dev, SessionWindow(minute, 5, 10) OVER (PARTITION BY dev)";
    let records = "EventEnqueuedUtcTime,time,dev
2024-01-01T01:00:00Z,2024-01-01T00:01:00Z,A
2024-01-01T01:00:00Z,2024-01-01T00:03:00Z,B
2024-01-01T01:00:00Z,2024-01-01T00:05:00Z,A
2024-01-01T01:00:00Z,2024-01-01T00:09:00Z,B
";
    let text = "output out
{\"w\":\"2024-01-01T00:08:00.0000000Z\",\"dev\":\"B\",\"n\":1}
{\"w\":\"2024-01-01T00:10:00.0000000Z\",\"dev\":\"A\",\"n\":2}
{\"w\":\"2024-01-01T00:14:00.0000000Z\",\"dev\":\"B\",\"n\":1}
drops
";
    assert!(rt; prints(rt.alloc(), query, records, text)?);
    Ok(())
}
