//! The examples of the repository: each prints the text beside it. The texts here, and in
//! examples/meters.rt and examples/tariff.rt, are those of the files in examples/, which
//! .ci/examples.py compares.

mod meters;
mod tariff;

use crate::cases::{CHECK, Case, ends, previews};
use event_value::Memory;
use jobs_top::Status;
use std::alloc::Global;
use std::test::Fail;

const FIRST_QUERY: &str = "SELECT a, b INTO out FROM src
";

const FIRST_INPUTS: &str = "[[stream]]
name = \"src\"
format = \"json\"
columns = [{name = \"a\", kind = \"bigint\"}, {name = \"b\", kind = \"nvarchar(max)\"}]

[[stream.partition]]
ended = true
segments = [{file = \"examples/first/a.json\", through = \"2024-01-01T00:00:01Z\"}]
";

const FIRST_EXPECTED: &str = "output out
{\"a\":1,\"b\":\"x\"}
{\"a\":2,\"b\":null}
drops
{\"input\":\"src\",\"partition\":0,\"segment\":0,\"index\":1,\"rule\":\"Syntax\"}
";

const FIRST_A: &str = "{\"a\":1,\"b\":\"x\",\"EventEnqueuedUtcTime\":\"2024-01-01T00:00:00Z\"}
not json
{\"a\":2,\"b\":null,\"EventEnqueuedUtcTime\":\"2024-01-01T00:00:01Z\"}
";

/// Whether the example prints its expected text.
fn first_prints(alloc: Global) -> Result<bool, Memory> {
    let case = Case {
        query: FIRST_QUERY.as_bytes(),
        inputs: FIRST_INPUTS.as_bytes(),
        files: &[("examples/first/a.json", FIRST_A.as_bytes())],
    };
    previews(alloc, case, FIRST_EXPECTED)
}

#[test]
fn the_first_example_prints_what_its_folder_says(rt: HostRuntime) -> Result<(), Fail> {
    assert!(rt; first_prints(rt.alloc())?);
    Ok(())
}

const SENSOR_QUERY: &str = "-- How many readings each display sent, every five seconds.
SELECT System.Timestamp() AS w, dspl, COUNT(*) AS n
INTO out
FROM sensor TIMESTAMP BY time
GROUP BY dspl, TumblingWindow(second, 5)
";

const SENSOR_INPUTS: &str = "[[stream]]
name = \"sensor\"
format = \"json\"
columns = [
  {name = \"time\", kind = \"datetime\"},
  {name = \"dspl\", kind = \"nvarchar(max)\"},
  {name = \"temp\", kind = \"bigint\"},
  {name = \"hmdt\", kind = \"bigint\"},
]

[[stream.partition]]
ended = true
segments = [{file = \"examples/sensor/sensor.json\", through = \"2024-01-01T00:00:10Z\"}]
";

const SENSOR_EXPECTED: &str = "output out
{\"w\":\"2024-01-01T00:00:05.0000000Z\",\"dspl\":\"A\",\"n\":2}
{\"w\":\"2024-01-01T00:00:05.0000000Z\",\"dspl\":\"B\",\"n\":1}
{\"w\":\"2024-01-01T00:00:10.0000000Z\",\"dspl\":\"A\",\"n\":1}
drops
";

const SENSOR_SENSOR: &str =
    "{\"time\":\"2024-01-01T00:00:01Z\",\"dspl\":\"A\",\"temp\":70,\"hmdt\":40,\"EventEnqueuedUtcTime\":\"2024-01-01T00:00:01Z\"}
{\"time\":\"2024-01-01T00:00:04Z\",\"dspl\":\"B\",\"temp\":71,\"hmdt\":41,\"EventEnqueuedUtcTime\":\"2024-01-01T00:00:04Z\"}
{\"time\":\"2024-01-01T00:00:05Z\",\"dspl\":\"A\",\"temp\":72,\"hmdt\":42,\"EventEnqueuedUtcTime\":\"2024-01-01T00:00:05Z\"}
{\"time\":\"2024-01-01T00:00:09Z\",\"dspl\":\"A\",\"temp\":73,\"hmdt\":43,\"EventEnqueuedUtcTime\":\"2024-01-01T00:00:09Z\"}
";

/// Whether the example prints its expected text.
fn sensor_prints(alloc: Global) -> Result<bool, Memory> {
    let case = Case {
        query: SENSOR_QUERY.as_bytes(),
        inputs: SENSOR_INPUTS.as_bytes(),
        files: &[("examples/sensor/sensor.json", SENSOR_SENSOR.as_bytes())],
    };
    previews(alloc, case, SENSOR_EXPECTED)
}

#[test]
fn the_sensor_example_prints_what_its_folder_says(rt: HostRuntime) -> Result<(), Fail> {
    assert!(rt; sensor_prints(rt.alloc())?);
    Ok(())
}

const TILLS_QUERY: &str = "-- The tills that sold more than once within ten minutes.
SELECT System.Timestamp() AS until, till, COUNT(*) AS sales, SUM(amount) AS total, AVG(amount) AS mean
INTO busy
FROM sale TIMESTAMP BY sold
WHERE amount > 0
GROUP BY till, TumblingWindow(minute, 10)
HAVING COUNT(*) > 1
";

const TILLS_INPUTS: &str = "[[stream]]
name = \"sale\"
format = \"csv\"
delimiter = \";\"
columns = [
  {name = \"sold\", kind = \"datetime\"},
  {name = \"till\", kind = \"nvarchar(max)\"},
  {name = \"amount\", kind = \"fixed\"},
]

[[stream.partition]]
ended = true
segments = [{file = \"examples/tills/sales.csv\", through = \"2024-05-04T09:30:00Z\"}]
";

const TILLS_EXPECTED: &str = "output busy
{\"until\":\"2024-05-04T09:10:00.0000000Z\",\"till\":\"east\",\"sales\":3,\"total\":33.25,\"mean\":11.083333}
{\"until\":\"2024-05-04T09:20:00.0000000Z\",\"till\":\"west\",\"sales\":2,\"total\":8.3,\"mean\":4.15}
drops
{\"input\":\"sale\",\"partition\":0,\"segment\":0,\"index\":6,\"rule\":\"Field\"}
{\"input\":\"sale\",\"partition\":0,\"segment\":0,\"index\":8,\"rule\":\"Syntax\"}
";

const TILLS_SALES: &str = "EventEnqueuedUtcTime;sold;till;amount
2024-05-04T09:01:02Z;2024-05-04T09:01:00Z;east;12.50
2024-05-04T09:04:31Z;2024-05-04T09:04:30Z;west;3
2024-05-04T09:06:00Z;2024-05-04T09:06:00Z;east;0.75
2024-05-04T09:09:01Z;2024-05-04T09:09:00Z;west;-3
2024-05-04T09:10:00Z;2024-05-04T09:10:00Z;east;20
2024-05-04T09:11:00Z;2024-05-04T09:11:00Z;east;4.10
2024-05-04T09:12:40Z;2024-05-04T09:12:38Z;west;ten
2024-05-04T09:13:00Z;2024-05-04T09:12:50Z;west;7.25
2024-05-04T09:15:00Z;2024-05-04T09:15:00Z;west
2024-05-04T09:19:59Z;2024-05-04T09:19:58Z;west;1.05
";

/// Whether the example prints its expected text.
fn tills_prints(alloc: Global) -> Result<bool, Memory> {
    let case = Case {
        query: TILLS_QUERY.as_bytes(),
        inputs: TILLS_INPUTS.as_bytes(),
        files: &[("examples/tills/sales.csv", TILLS_SALES.as_bytes())],
    };
    previews(alloc, case, TILLS_EXPECTED)
}

#[test]
fn the_tills_example_prints_what_its_folder_says(rt: HostRuntime) -> Result<(), Fail> {
    assert!(rt; tills_prints(rt.alloc())?);
    Ok(())
}

#[test]
fn check_prints_the_query_of_the_guide(rt: HostRuntime) -> Result<(), Fail> {
    let case = Case {
        query: SENSOR_QUERY.as_bytes(),
        inputs: SENSOR_INPUTS.as_bytes(),
        files: &[],
    };
    let text =
        "SELECT System.Timestamp() AS w, dspl, COUNT(*) AS n INTO out FROM sensor TIMESTAMP BY time GROUP BY dspl, TumblingWindow(second, 5)\n";
    assert!(rt; ends(rt.alloc(), &CHECK, case, Status::Done, text)?);
    Ok(())
}
