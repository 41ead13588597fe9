//! Several partitions, segments and streams, with late and early records.

use crate::cases::{Case, previews};
use event_value::Memory;
use std::alloc::Global;
use std::test::Fail;

const LANES: &str = "[[stream]]
name = \"src\"
format = \"json\"
columns = [{ name = \"t\", kind = \"datetime\" }, { name = \"v\", kind = \"bigint\" }]

[[stream.partition]]
segments = [
    { file = \"a0\", through = \"2024-01-01T00:00:10Z\" },
    { file = \"a1\", through = \"2024-01-01T00:00:20Z\" },
    { file = \"a2\", through = \"2024-01-01T00:00:30Z\" },
]

[[stream.partition]]
segments = [
    { file = \"b0\", through = \"2024-01-01T00:00:10Z\" },
    { file = \"b1\", through = \"2024-01-01T00:00:20Z\" },
    { file = \"b2\", through = \"2024-01-01T00:00:30Z\" },
]
";

const A0: &str =
    "{\"t\":\"2024-01-01T00:00:05Z\",\"v\":1,\"EventEnqueuedUtcTime\":\"2024-01-01T00:00:05Z\"}
{\"t\":\"2024-01-01T00:00:00Z\",\"v\":2,\"EventEnqueuedUtcTime\":\"2024-01-01T00:00:10Z\"}
";

const A1: &str =
    "{\"t\":\"2024-01-01T00:05:30Z\",\"v\":3,\"EventEnqueuedUtcTime\":\"2024-01-01T00:00:12Z\"}
{\"t\":\"2024-01-01T00:00:15Z\",\"v\":4,\"EventEnqueuedUtcTime\":\"2024-01-01T00:00:16Z\"}
";

const A2: &str =
    "{\"t\":\"2024-01-01T00:00:14Z\",\"v\":5,\"EventEnqueuedUtcTime\":\"2024-01-01T00:00:21Z\"}
";

const B0: &str =
    "{\"t\":\"2024-01-01T00:00:03Z\",\"v\":6,\"EventEnqueuedUtcTime\":\"2024-01-01T00:00:03Z\"}
";

const B1: &str =
    "{\"t\":\"2024-01-01T00:00:02Z\",\"v\":7,\"EventEnqueuedUtcTime\":\"2024-01-01T00:00:11Z\"}
{\"t\":\"2024-01-01T00:10:00Z\",\"v\":8,\"EventEnqueuedUtcTime\":\"2024-01-01T00:00:12Z\"}
";

const B2: &str =
    "{\"t\":\"2024-01-01T00:00:25Z\",\"v\":9,\"EventEnqueuedUtcTime\":\"2024-01-01T00:00:25Z\"}
{\"v\":10,\"EventEnqueuedUtcTime\":\"2024-01-01T00:00:26Z\"}
";

/// Whether a query over the six segments prints this text.
fn lanes_print(alloc: Global, query: &str, text: &str) -> Result<bool, Memory> {
    let case = Case {
        query: query.as_bytes(),
        inputs: LANES.as_bytes(),
        files: &[
            ("b2", B2.as_bytes()),
            ("b1", B1.as_bytes()),
            ("b0", B0.as_bytes()),
            ("a2", A2.as_bytes()),
            ("a1", A1.as_bytes()),
            ("a0", A0.as_bytes()),
        ],
    };
    previews(alloc, case, text)
}

#[test]
fn the_events_of_two_partitions_come_in_order_of_time(rt: HostRuntime) -> Result<(), Fail> {
    let query = "SELECT System.Timestamp() AS w, v INTO out FROM src TIMESTAMP BY t";
    let text = "output out
{\"w\":\"2024-01-01T00:00:03.0000000Z\",\"v\":6}
{\"w\":\"2024-01-01T00:00:05.0000000Z\",\"v\":1}
{\"w\":\"2024-01-01T00:00:05.0000000Z\",\"v\":2}
{\"w\":\"2024-01-01T00:00:06.0000000Z\",\"v\":7}
{\"w\":\"2024-01-01T00:00:15.0000000Z\",\"v\":4}
{\"w\":\"2024-01-01T00:00:16.0000000Z\",\"v\":5}
{\"w\":\"2024-01-01T00:00:25.0000000Z\",\"v\":9}
drops
{\"input\":\"src\",\"partition\":0,\"segment\":1,\"index\":0,\"rule\":\"Early\"}
{\"input\":\"src\",\"partition\":1,\"segment\":1,\"index\":1,\"rule\":\"Early\"}
{\"input\":\"src\",\"partition\":1,\"segment\":2,\"index\":1,\"rule\":\"NoTime\"}
";
    assert!(rt; lanes_print(rt.alloc(), query, text)?);
    Ok(())
}

#[test]
fn a_window_counts_the_events_of_both_partitions(rt: HostRuntime) -> Result<(), Fail> {
    let query =
        "SELECT System.Timestamp() AS w, COUNT(*) AS n, SUM(v) AS s INTO out FROM src TIMESTAMP BY t WHERE v < 9 GROUP BY TumblingWindow(second, 10)";
    let text = "output out
{\"w\":\"2024-01-01T00:00:10.0000000Z\",\"n\":4,\"s\":16}
{\"w\":\"2024-01-01T00:00:20.0000000Z\",\"n\":2,\"s\":9}
drops
{\"input\":\"src\",\"partition\":0,\"segment\":1,\"index\":0,\"rule\":\"Early\"}
{\"input\":\"src\",\"partition\":1,\"segment\":1,\"index\":1,\"rule\":\"Early\"}
{\"input\":\"src\",\"partition\":1,\"segment\":2,\"index\":1,\"rule\":\"NoTime\"}
";
    assert!(rt; lanes_print(rt.alloc(), query, text)?);
    Ok(())
}

const DROPPING: &str = "[policy]
action = \"drop\"
late_seconds = 5

[[stream]]
name = \"src\"
format = \"json\"
columns = [{ name = \"t\", kind = \"datetime\" }, { name = \"v\", kind = \"bigint\" }]
partition = [{ segments = [{ file = \"a0\", through = \"2024-01-01T00:00:10Z\" }] }]
";

#[test]
fn with_the_action_drop_late_and_disordered_records_are_dropped(
    rt: HostRuntime,
) -> Result<(), Fail> {
    let records =
        "{\"t\":\"2024-01-01T00:00:05Z\",\"v\":1,\"EventEnqueuedUtcTime\":\"2024-01-01T00:00:05Z\"}
{\"t\":\"2024-01-01T00:00:04Z\",\"v\":2,\"EventEnqueuedUtcTime\":\"2024-01-01T00:00:06Z\"}
{\"t\":\"2024-01-01T00:00:00Z\",\"v\":3,\"EventEnqueuedUtcTime\":\"2024-01-01T00:00:10Z\"}
";
    let text = "output out
{\"v\":1}
drops
{\"input\":\"src\",\"partition\":0,\"segment\":0,\"index\":1,\"rule\":\"Disorder\"}
{\"input\":\"src\",\"partition\":0,\"segment\":0,\"index\":2,\"rule\":\"Late\"}
";
    let case = Case {
        query: b"SELECT v INTO out FROM src TIMESTAMP BY t",
        inputs: DROPPING.as_bytes(),
        files: &[("a0", records.as_bytes())],
    };
    assert!(rt; previews(rt.alloc(), case, text)?);
    Ok(())
}

const STREAMS: &str = "[[stream]]
name = \"one\"
format = \"json\"
columns = [{ name = \"a\", kind = \"bigint\" }]
partition = [{}, { segments = [{ file = \"one\", through = \"2024-01-01T00:00:02Z\" }] }]

[[stream]]
name = \"unnamed\"
format = \"json\"
columns = [{ name = \"a\", kind = \"bigint\" }]
partition = [{ segments = [{ file = \"none\", through = \"2024-01-01T00:00:02Z\" }] }]

[[stream]]
name = \"two\"
format = \"csv\"
columns = [{ name = \"a\", kind = \"bigint\" }]
partition = [{ segments = [{ file = \"two\", through = \"2024-01-01T00:00:02Z\" }] }]
";

#[test]
fn streams_are_read_in_the_order_of_the_document_and_only_where_the_query_names_them(
    rt: HostRuntime,
) -> Result<(), Fail> {
    let one = "{\"a\":1,\"EventEnqueuedUtcTime\":\"2024-01-01T00:00:02Z\"}\n{}\n";
    let two =
        "a,EventEnqueuedUtcTime\nx,2024-01-01T00:00:01Z\n2,2024-01-01T00:00:01Z\n3,2024-01-01T00:00:02Z\n";
    let text = "output out
{\"a\":2}
{\"a\":3}
{\"a\":1}
drops
{\"input\":\"one\",\"partition\":1,\"segment\":0,\"index\":1,\"rule\":\"Enqueued\"}
{\"input\":\"two\",\"partition\":0,\"segment\":0,\"index\":0,\"rule\":\"Field\"}
";
    let case = Case {
        query: b"SELECT a INTO out FROM two UNION SELECT a FROM one",
        inputs: STREAMS.as_bytes(),
        files: &[("one", one.as_bytes()), ("two", two.as_bytes())],
    };
    assert!(rt; previews(rt.alloc(), case, text)?);
    Ok(())
}

const PAIR: &str = "[[stream]]
name = \"src\"
format = \"json\"
columns = [{ name = \"a\", kind = \"bigint\" }]
partition = [
    { segments = [{ file = \"a\", through = \"2024-01-01T00:00:03Z\" }] },
    { segments = [{ file = \"a\", through = \"2024-01-01T00:00:03Z\" }] },
]
";

#[test]
fn a_snapshot_takes_the_events_of_both_partitions(rt: HostRuntime) -> Result<(), Fail> {
    let record = "{\"a\":1,\"EventEnqueuedUtcTime\":\"2024-01-01T00:00:03Z\"}";
    let text = "output out
{\"w\":\"2024-01-01T00:00:03.0000000Z\",\"n\":2}
drops
";
    let case = Case {
        query: b"SELECT System.Timestamp() AS w, COUNT(*) AS n INTO out FROM src GROUP BY SnapshotWindow()",
        inputs: PAIR.as_bytes(),
        files: &[("a", record.as_bytes())],
    };
    assert!(rt; previews(rt.alloc(), case, text)?);
    Ok(())
}
