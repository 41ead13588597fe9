//! examples/meters.

use crate::cases::{Case, previews};
use event_value::Memory;
use std::alloc::Global;
use std::test::Fail;

const METERS_QUERY: &str = "-- What each meter used, minute by minute.
SELECT System.Timestamp() AS minute, meter, SUM(wh) AS wh, COUNT(*) AS readings
INTO usage
FROM meter TIMESTAMP BY time
GROUP BY meter, TumblingWindow(minute, 1)
";

const METERS_INPUTS: &str =
    "# A reading may be up to 30 seconds late and up to 40 seconds out of order; what is later is dropped.
[policy]
late_seconds = 30
disorder_seconds = 40
action = \"drop\"

[[stream]]
name = \"meter\"
format = \"json\"
columns = [
  {name = \"time\", kind = \"datetime\"},
  {name = \"meter\", kind = \"nvarchar(max)\"},
  {name = \"wh\", kind = \"bigint\"},
]

[[stream.partition]]
ended = true
segments = [
  {file = \"examples/meters/north-1.json\", through = \"2024-03-01T12:01:00Z\"},
  {file = \"examples/meters/north-2.json\", through = \"2024-03-01T12:02:00Z\"},
]

[[stream.partition]]
ended = true
segments = [{file = \"examples/meters/south.json\", through = \"2024-03-01T12:02:00Z\"}]

[[stream.partition]]
ended = true
segments = [{file = \"examples/meters/west.json\", through = \"2024-03-01T12:02:30Z\"}]
";

const METERS_EXPECTED: &str = "output usage
{\"minute\":\"2024-03-01T12:01:00.0000000Z\",\"meter\":\"n1\",\"wh\":13,\"readings\":2}
{\"minute\":\"2024-03-01T12:01:00.0000000Z\",\"meter\":\"n2\",\"wh\":16,\"readings\":2}
{\"minute\":\"2024-03-01T12:01:00.0000000Z\",\"meter\":\"s1\",\"wh\":41,\"readings\":2}
{\"minute\":\"2024-03-01T12:02:00.0000000Z\",\"meter\":\"n1\",\"wh\":14,\"readings\":1}
{\"minute\":\"2024-03-01T12:02:00.0000000Z\",\"meter\":\"n2\",\"wh\":8,\"readings\":1}
{\"minute\":\"2024-03-01T12:02:00.0000000Z\",\"meter\":\"s1\",\"wh\":22,\"readings\":1}
{\"minute\":\"2024-03-01T12:03:00.0000000Z\",\"meter\":\"n2\",\"wh\":6,\"readings\":1}
{\"minute\":\"2024-03-01T12:03:00.0000000Z\",\"meter\":\"w1\",\"wh\":31,\"readings\":1}
drops
{\"input\":\"meter\",\"partition\":0,\"segment\":1,\"index\":2,\"rule\":\"Late\"}
{\"input\":\"meter\",\"partition\":0,\"segment\":1,\"index\":5,\"rule\":\"Disorder\"}
{\"input\":\"meter\",\"partition\":1,\"segment\":0,\"index\":3,\"rule\":\"NoTime\"}
{\"input\":\"meter\",\"partition\":2,\"segment\":0,\"index\":1,\"rule\":\"Early\"}
";

const METERS_NORTH_1: &str =
    "{\"time\":\"2024-03-01T12:00:10Z\",\"meter\":\"n1\",\"wh\":12,\"EventEnqueuedUtcTime\":\"2024-03-01T12:00:11Z\"}
{\"time\":\"2024-03-01T12:00:40Z\",\"meter\":\"n2\",\"wh\":7,\"EventEnqueuedUtcTime\":\"2024-03-01T12:00:41Z\"}
";

const METERS_NORTH_2: &str =
    "{\"time\":\"2024-03-01T12:01:10Z\",\"meter\":\"n1\",\"wh\":14,\"EventEnqueuedUtcTime\":\"2024-03-01T12:01:12Z\"}
{\"time\":\"2024-03-01T12:00:55Z\",\"meter\":\"n2\",\"wh\":9,\"EventEnqueuedUtcTime\":\"2024-03-01T12:01:14Z\"}
{\"time\":\"2024-03-01T12:00:20Z\",\"meter\":\"n1\",\"wh\":3,\"EventEnqueuedUtcTime\":\"2024-03-01T12:01:20Z\"}
{\"time\":\"2024-03-01T12:01:50Z\",\"meter\":\"n2\",\"wh\":8,\"EventEnqueuedUtcTime\":\"2024-03-01T12:01:51Z\"}
{\"time\":\"2024-03-01T12:02:35Z\",\"meter\":\"n2\",\"wh\":6,\"EventEnqueuedUtcTime\":\"2024-03-01T12:01:55Z\"}
{\"time\":\"2024-03-01T12:01:45Z\",\"meter\":\"n1\",\"wh\":2,\"EventEnqueuedUtcTime\":\"2024-03-01T12:01:56Z\"}
";

const METERS_SOUTH: &str =
    "{\"time\":\"2024-03-01T12:00:30Z\",\"meter\":\"s1\",\"wh\":20,\"EventEnqueuedUtcTime\":\"2024-03-01T12:00:30Z\"}
{\"time\":\"2024-03-01T12:01:00Z\",\"meter\":\"s1\",\"wh\":21,\"EventEnqueuedUtcTime\":\"2024-03-01T12:01:01Z\"}
{\"time\":\"2024-03-01T12:01:30Z\",\"meter\":\"s1\",\"wh\":\"22\",\"EventEnqueuedUtcTime\":\"2024-03-01T12:01:31Z\"}
{\"time\":null,\"meter\":\"s1\",\"wh\":23,\"EventEnqueuedUtcTime\":\"2024-03-01T12:01:40Z\"}
";

const METERS_WEST: &str =
    "{\"time\":\"2024-03-01T12:00:05Z\",\"meter\":\"n1\",\"wh\":1,\"EventEnqueuedUtcTime\":\"2024-03-01T12:00:06Z\"}
{\"time\":\"2024-03-01T12:07:00Z\",\"meter\":\"w1\",\"wh\":30,\"EventEnqueuedUtcTime\":\"2024-03-01T12:01:00Z\"}
{\"time\":\"2024-03-01T12:02:10Z\",\"meter\":\"w1\",\"wh\":31,\"EventEnqueuedUtcTime\":\"2024-03-01T12:02:12Z\"}
";

/// Whether the example prints its expected text.
fn meters_prints(alloc: Global) -> Result<bool, Memory> {
    let case = Case {
        query: METERS_QUERY.as_bytes(),
        inputs: METERS_INPUTS.as_bytes(),
        files: &[
            ("examples/meters/north-1.json", METERS_NORTH_1.as_bytes()),
            ("examples/meters/north-2.json", METERS_NORTH_2.as_bytes()),
            ("examples/meters/south.json", METERS_SOUTH.as_bytes()),
            ("examples/meters/west.json", METERS_WEST.as_bytes()),
        ],
    };
    previews(alloc, case, METERS_EXPECTED)
}

#[test]
fn the_meters_example_prints_what_its_folder_says(rt: HostRuntime) -> Result<(), Fail> {
    assert!(rt; meters_prints(rt.alloc())?);
    Ok(())
}
