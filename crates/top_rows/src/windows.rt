//! Windows, WITH, UNION, HAVING and OVER over one lane.

use crate::cases::{Case, previews};
use event_value::Memory;
use std::alloc::Global;
use std::test::Fail;

const SENSOR: &str = "[[stream]]
name = \"sensor\"
format = \"json\"
columns = [
    { name = \"time\", kind = \"datetime\" },
    { name = \"dspl\", kind = \"nvarchar(max)\" },
    { name = \"temp\", kind = \"bigint\" },
    { name = \"hmdt\", kind = \"bigint\" },
]

[[stream.partition]]
ended = true
segments = [{ file = \"s.json\", through = \"2024-01-01T00:00:10Z\" }]
";

const READINGS: &str =
    "{\"time\":\"2024-01-01T00:00:01Z\",\"dspl\":\"A\",\"temp\":70,\"hmdt\":40,\"EventEnqueuedUtcTime\":\"2024-01-01T00:00:01Z\"}
{\"time\":\"2024-01-01T00:00:04Z\",\"dspl\":\"B\",\"temp\":71,\"hmdt\":41,\"EventEnqueuedUtcTime\":\"2024-01-01T00:00:04Z\"}
{\"time\":\"2024-01-01T00:00:05Z\",\"dspl\":\"A\",\"temp\":72,\"hmdt\":42,\"EventEnqueuedUtcTime\":\"2024-01-01T00:00:05Z\"}
{\"time\":\"2024-01-01T00:00:09Z\",\"dspl\":\"A\",\"temp\":73,\"hmdt\":43,\"EventEnqueuedUtcTime\":\"2024-01-01T00:00:09Z\"}
";

/// Whether a query over the sensor's records prints this text.
fn prints(alloc: Global, query: &str, records: &str, text: &str) -> Result<bool, Memory> {
    let case = Case {
        query: query.as_bytes(),
        inputs: SENSOR.as_bytes(),
        files: &[("s.json", records.as_bytes())],
    };
    previews(alloc, case, text)
}

#[test]
fn a_count_per_key_and_tumbling_window_has_a_row_each(rt: HostRuntime) -> Result<(), Fail> {
    let query =
        "SELECT System.Timestamp() AS w, dspl, COUNT(*) AS n INTO out FROM sensor TIMESTAMP BY time GROUP BY dspl, TumblingWindow(second, 5)";
    let text = "output out
{\"w\":\"2024-01-01T00:00:05.0000000Z\",\"dspl\":\"A\",\"n\":2}
{\"w\":\"2024-01-01T00:00:05.0000000Z\",\"dspl\":\"B\",\"n\":1}
{\"w\":\"2024-01-01T00:00:10.0000000Z\",\"dspl\":\"A\",\"n\":1}
drops
";
    assert!(rt; prints(rt.alloc(), query, READINGS, text)?);
    Ok(())
}

#[test]
fn having_keeps_the_groups_for_which_it_is_true(rt: HostRuntime) -> Result<(), Fail> {
    let query =
        "SELECT System.Timestamp() AS w, dspl, COUNT(*) AS n INTO out FROM sensor TIMESTAMP BY time GROUP BY dspl, TumblingWindow(second, 5) HAVING COUNT(*) > 1";
    let text = "output out
{\"w\":\"2024-01-01T00:00:05.0000000Z\",\"dspl\":\"A\",\"n\":2}
drops
";
    assert!(rt; prints(rt.alloc(), query, READINGS, text)?);
    Ok(())
}

#[test]
fn where_is_asked_before_the_window(rt: HostRuntime) -> Result<(), Fail> {
    let query =
        "SELECT dspl, COUNT(*) AS n, MIN(temp) AS low INTO out FROM sensor TIMESTAMP BY time WHERE temp > 70 GROUP BY dspl, TumblingWindow(second, 10)";
    let text = "output out
{\"dspl\":\"A\",\"n\":2,\"low\":72}
{\"dspl\":\"B\",\"n\":1,\"low\":71}
drops
";
    assert!(rt; prints(rt.alloc(), query, READINGS, text)?);
    Ok(())
}

#[test]
fn a_window_over_a_window_takes_the_rows_at_their_ends(rt: HostRuntime) -> Result<(), Fail> {
    let query =
        "WITH c AS (SELECT COUNT(*) AS n FROM sensor TIMESTAMP BY time GROUP BY TumblingWindow(second, 5)) SELECT System.Timestamp() AS w, MAX(n) AS m INTO out FROM c GROUP BY TumblingWindow(second, 10)";
    let text = "output out
{\"w\":\"2024-01-01T00:00:10.0000000Z\",\"m\":3}
drops
";
    assert!(rt; prints(rt.alloc(), query, READINGS, text)?);
    Ok(())
}

#[test]
fn two_outputs_are_made_of_one_definition(rt: HostRuntime) -> Result<(), Fail> {
    let query =
        "WITH c AS (SELECT dspl, temp FROM sensor TIMESTAMP BY time) SELECT dspl INTO warm FROM c WHERE temp > 71; SELECT temp INTO b FROM c WHERE dspl = 'B'";
    let text = "output warm
{\"dspl\":\"A\"}
{\"dspl\":\"A\"}
output b
{\"temp\":71}
drops
";
    assert!(rt; prints(rt.alloc(), query, READINGS, text)?);
    Ok(())
}

#[test]
fn hopping_windows_overlap(rt: HostRuntime) -> Result<(), Fail> {
    let query =
        "SELECT System.Timestamp() AS w, COUNT(*) AS n INTO out FROM sensor TIMESTAMP BY time GROUP BY HoppingWindow(second, 10, 5)";
    let text = "output out
{\"w\":\"2024-01-01T00:00:05.0000000Z\",\"n\":3}
{\"w\":\"2024-01-01T00:00:10.0000000Z\",\"n\":4}
{\"w\":\"2024-01-01T00:00:15.0000000Z\",\"n\":1}
drops
";
    assert!(rt; prints(rt.alloc(), query, READINGS, text)?);
    Ok(())
}

const KEYLESS: &str =
    "{\"time\":\"2024-01-01T00:00:01Z\",\"temp\":1,\"EventEnqueuedUtcTime\":\"2024-01-01T00:00:01Z\"}
{\"time\":\"2024-01-01T00:00:01Z\",\"dspl\":\"A\",\"temp\":2,\"EventEnqueuedUtcTime\":\"2024-01-01T00:00:02Z\"}
{\"time\":\"2024-01-01T00:00:03Z\",\"dspl\":null,\"EventEnqueuedUtcTime\":\"2024-01-01T00:00:03Z\"}
";

#[test]
fn rows_without_a_key_are_one_group(rt: HostRuntime) -> Result<(), Fail> {
    let query =
        "SELECT dspl, COUNT(*) AS n, COUNT(temp) AS t, SUM(temp) AS s INTO out FROM sensor TIMESTAMP BY time GROUP BY dspl, TumblingWindow(second, 5)";
    let text = "output out
{\"dspl\":null,\"n\":2,\"t\":1,\"s\":1}
{\"dspl\":\"A\",\"n\":1,\"t\":1,\"s\":2}
drops
";
    assert!(rt; prints(rt.alloc(), query, KEYLESS, text)?);
    Ok(())
}

#[test]
fn a_snapshot_groups_the_rows_of_one_time(rt: HostRuntime) -> Result<(), Fail> {
    let text = "output out
{\"w\":\"2024-01-01T00:00:01.0000000Z\",\"n\":2}
{\"w\":\"2024-01-01T00:00:03.0000000Z\",\"n\":1}
drops
";
    let rows = [
        "SELECT System.Timestamp() AS w, COUNT(*) AS n INTO out FROM sensor TIMESTAMP BY time GROUP BY SnapshotWindow()",
        "SELECT System.Timestamp() AS w, COUNT(*) AS n INTO out FROM sensor TIMESTAMP BY time GROUP BY System.Timestamp()",
    ];
    for &query in &rows {
        assert!(rt; prints(rt.alloc(), query, KEYLESS, text)?);
    }
    Ok(())
}

const DEVICES: &str = "[policy]
late_seconds = 120

[[stream]]
name = \"src\"
format = \"json\"
columns = [{ name = \"dev\", kind = \"nvarchar(max)\" }, { name = \"t\", kind = \"datetime\" }]

[[stream.partition]]
segments = [{ file = \"d.json\", through = \"2024-01-01T12:02:00Z\" }]
";

const TWO_DEVICES: &str =
    "{\"dev\":\"A\",\"t\":\"2024-01-01T12:01:00Z\",\"EventEnqueuedUtcTime\":\"2024-01-01T12:01:00Z\"}
{\"dev\":\"B\",\"t\":\"2024-01-01T12:00:00Z\",\"EventEnqueuedUtcTime\":\"2024-01-01T12:01:01Z\"}
";

/// Whether a query over both devices prints this text.
fn devices_print(alloc: Global, query: &str, text: &str) -> Result<bool, Memory> {
    let case = Case {
        query: query.as_bytes(),
        inputs: DEVICES.as_bytes(),
        files: &[("d.json", TWO_DEVICES.as_bytes())],
    };
    previews(alloc, case, text)
}

#[test]
fn with_over_each_device_is_judged_by_itself(rt: HostRuntime) -> Result<(), Fail> {
    let apart = "output out
{\"dev\":\"B\",\"w\":\"2024-01-01T12:00:00.0000000Z\"}
{\"dev\":\"A\",\"w\":\"2024-01-01T12:01:00.0000000Z\"}
drops
";
    let together = "output out
{\"dev\":\"A\",\"w\":\"2024-01-01T12:01:00.0000000Z\"}
{\"dev\":\"B\",\"w\":\"2024-01-01T12:01:00.0000000Z\"}
drops
";
    let rows = [
        (
            "SELECT dev, System.Timestamp() AS w INTO out FROM src TIMESTAMP BY t OVER dev",
            apart,
        ),
        (
            "SELECT dev, System.Timestamp() AS w INTO out FROM src TIMESTAMP BY t",
            together,
        ),
    ];
    for &(query, text) in &rows {
        assert!(rt; devices_print(rt.alloc(), query, text)?);
    }
    Ok(())
}
