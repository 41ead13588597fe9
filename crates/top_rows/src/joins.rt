//! Joins of two streams within a bound.
//!
//! A row is a query over the streams l and r, their records as times and keys, and the text.

use crate::cases::{Case, previews};
use event_value::Memory;
use std::alloc::Global;
use std::test::Fail;

const TWO: &str = "[policy]
late_seconds = 3600

[[stream]]
name = \"l\"
format = \"csv\"
columns = [{ name = \"t\", kind = \"datetime\" }, { name = \"k\", kind = \"bigint\" }]

[[stream.partition]]
segments = [{ file = \"l.csv\", through = \"2024-01-01T01:00:00Z\" }]

[[stream]]
name = \"r\"
format = \"csv\"
columns = [{ name = \"u\", kind = \"datetime\" }, { name = \"k\", kind = \"bigint\" }]

[[stream.partition]]
segments = [{ file = \"r.csv\", through = \"2024-01-01T01:00:00Z\" }]
";

/// A query, the records of l and of r, and the text of the preview.
type Row<'a> = (&'a str, &'a str, &'a str, &'a str);

/// Whether the query of a row over its records prints its text.
fn prints(alloc: Global, row: Row<'_>) -> Result<bool, Memory> {
    let (query, left, right, text) = row;
    let case = Case {
        query: query.as_bytes(),
        inputs: TWO.as_bytes(),
        files: &[("l.csv", left.as_bytes()), ("r.csv", right.as_bytes())],
    };
    previews(alloc, case, text)
}

const LEFT: &str = "EventEnqueuedUtcTime,t,k
2024-01-01T00:01:00Z,2024-01-01T00:00:00Z,1
2024-01-01T00:01:00Z,2024-01-01T00:00:30Z,2
";

const RIGHT: &str = "EventEnqueuedUtcTime,u,k
2024-01-01T00:01:00Z,2024-01-01T00:00:00Z,1
2024-01-01T00:01:00Z,2024-01-01T00:00:10Z,1
2024-01-01T00:01:00Z,2024-01-01T00:00:10.0000001Z,1
";

const ALL_THREE: &str = "output out
{\"w\":\"2024-01-01T00:00:00.0000000Z\",\"a\":1,\"b\":1}
{\"w\":\"2024-01-01T00:00:10.0000000Z\",\"a\":1,\"b\":1}
{\"w\":\"2024-01-01T00:00:40.0000000Z\",\"a\":2,\"b\":null}
drops
";

#[test]
fn rows_within_the_bound_join_and_a_left_row_without_a_match_comes_alone(
    rt: HostRuntime,
) -> Result<(), Fail> {
    let rows = [
        "SELECT System.Timestamp() AS w, l.k AS a, r.k AS b INTO out FROM l TIMESTAMP BY t LEFT JOIN r TIMESTAMP BY u ON DATEDIFF(second, l, r) BETWEEN 0 AND 10 AND l.k = r.k",
        "SELECT System.Timestamp() AS w, l.k AS a, r.k AS b INTO out FROM l TIMESTAMP BY t LEFT JOIN r TIMESTAMP BY u ON l.k = r.k AND DATEDIFF(second, r, l) BETWEEN -10 AND 0",
    ];
    for &query in &rows {
        assert!(rt; prints(rt.alloc(), (query, LEFT, RIGHT, ALL_THREE))?);
    }
    Ok(())
}

const LATER_LEFT: &str = "EventEnqueuedUtcTime,t,k
2024-01-01T00:01:00Z,2024-01-01T00:00:10Z,1
2024-01-01T00:01:00Z,2024-01-01T00:00:10Z,
2024-01-01T00:01:00Z,2024-01-01T00:00:40Z,3
";

const EARLIER_RIGHT: &str = "EventEnqueuedUtcTime,u,k
2024-01-01T00:01:00Z,2024-01-01T00:00:00Z,1
2024-01-01T00:01:00Z,2024-01-01T00:00:02Z,
2024-01-01T00:01:00Z,2024-01-01T00:00:05Z,1
2024-01-01T00:01:00Z,2024-01-01T00:00:06Z,1
";

#[test]
fn a_bound_below_zero_looks_back_and_null_keys_never_match(rt: HostRuntime) -> Result<(), Fail> {
    let query =
        "SELECT System.Timestamp() AS w, l.k AS a, u AS b INTO out FROM l TIMESTAMP BY t LEFT JOIN r TIMESTAMP BY u ON DATEDIFF(second, l, r) BETWEEN -10 AND -5 AND l.k = r.k";
    let text = "output out
{\"w\":\"2024-01-01T00:00:10.0000000Z\",\"a\":1,\"b\":\"2024-01-01T00:00:00.0000000Z\"}
{\"w\":\"2024-01-01T00:00:10.0000000Z\",\"a\":1,\"b\":\"2024-01-01T00:00:05.0000000Z\"}
{\"w\":\"2024-01-01T00:00:10.0000000Z\",\"a\":null,\"b\":null}
{\"w\":\"2024-01-01T00:00:40.0000000Z\",\"a\":3,\"b\":null}
drops
";
    assert!(rt; prints(rt.alloc(), (query, LATER_LEFT, EARLIER_RIGHT, text))?);
    Ok(())
}

const TWINS: &str = "EventEnqueuedUtcTime,t,k
2024-01-01T00:01:00Z,2024-01-01T00:00:01Z,7
2024-01-01T00:01:00Z,2024-01-01T00:00:01Z,8
2024-01-01T00:01:00Z,2024-01-01T00:00:09Z,9
";

const ONE: &str = "EventEnqueuedUtcTime,u,k
2024-01-01T00:01:00Z,2024-01-01T00:00:03Z,5
";

#[test]
fn joined_rows_go_on_through_filters_and_windows(rt: HostRuntime) -> Result<(), Fail> {
    let rows = [
        (
            "SELECT l.k AS a, r.k AS b INTO out FROM l TIMESTAMP BY t JOIN r TIMESTAMP BY u ON DATEDIFF(second, l, r) BETWEEN 0 AND 5",
            "output out\n{\"a\":7,\"b\":5}\n{\"a\":8,\"b\":5}\ndrops\n",
        ),
        (
            "SELECT l.k AS a INTO out FROM l TIMESTAMP BY t JOIN r TIMESTAMP BY u ON DATEDIFF(second, l, r) BETWEEN -10 AND 5 WHERE l.k + r.k > 12",
            "output out\n{\"a\":8}\n{\"a\":9}\ndrops\n",
        ),
        (
            "SELECT r.k AS b, COUNT(*) AS n INTO out FROM l TIMESTAMP BY t LEFT JOIN r TIMESTAMP BY u ON DATEDIFF(second, l, r) BETWEEN 0 AND 5 GROUP BY r.k, TumblingWindow(second, 10)",
            "output out\n{\"b\":5,\"n\":2}\n{\"b\":null,\"n\":1}\ndrops\n",
        ),
        (
            "SELECT System.Timestamp() AS w, COUNT(*) AS n INTO out FROM l TIMESTAMP BY t JOIN r TIMESTAMP BY u ON DATEDIFF(second, l, r) BETWEEN -10 AND 5 GROUP BY SessionWindow(second, 4, 60)",
            "output out\n{\"w\":\"2024-01-01T00:00:07.0000000Z\",\"n\":2}\n{\"w\":\"2024-01-01T00:00:13.0000000Z\",\"n\":1}\ndrops\n",
        ),
    ];
    for &(query, text) in &rows {
        assert!(rt; prints(rt.alloc(), (query, TWINS, ONE, text))?);
    }
    Ok(())
}
