//! examples/tariff.

use crate::cases::{Case, previews};
use event_value::Memory;
use std::alloc::Global;
use std::test::Fail;

const TARIFF_QUERY: &str =
    "-- What each reading costs by the tariff in force at its time; a plan without a tariff costs NULL.
SELECT System.Timestamp() AS time, meter, kwh * price AS cost
INTO bill
FROM reading TIMESTAMP BY time
LEFT JOIN tariff ON reading.plan = tariff.plan
";

const TARIFF_INPUTS: &str = "[[stream]]
name = \"reading\"
format = \"csv\"
columns = [
  {name = \"time\", kind = \"datetime\"},
  {name = \"meter\", kind = \"nvarchar(max)\"},
  {name = \"plan\", kind = \"nvarchar(max)\"},
  {name = \"kwh\", kind = \"fixed\"},
]

[[stream.partition]]
ended = true
segments = [{file = \"examples/tariff/readings.csv\", through = \"2024-07-01T01:00:00Z\"}]

[[reference]]
name = \"tariff\"
format = \"csv\"
columns = [
  {name = \"plan\", kind = \"nvarchar(max)\"},
  {name = \"price\", kind = \"fixed\"},
]
snapshots = [
  {file = \"examples/tariff/june.csv\", effective = \"2024-06-01T00:00:00Z\"},
  {file = \"examples/tariff/july.csv\", effective = \"2024-07-01T00:00:00Z\"},
]
";

const TARIFF_EXPECTED: &str = "output bill
{\"time\":\"2024-06-30T23:45:00.0000000Z\",\"meter\":\"m1\",\"cost\":0.45}
{\"time\":\"2024-07-01T00:00:00.0000000Z\",\"meter\":\"m1\",\"cost\":0.64}
{\"time\":\"2024-07-01T00:15:00.0000000Z\",\"meter\":\"m2\",\"cost\":0.85}
{\"time\":\"2024-07-01T00:30:00.0000000Z\",\"meter\":\"m3\",\"cost\":null}
drops
";

const TARIFF_READINGS: &str = "EventEnqueuedUtcTime,time,meter,plan,kwh
2024-06-30T23:45:01Z,2024-06-30T23:45:00Z,m1,day,1.5
2024-07-01T00:00:01Z,2024-07-01T00:00:00Z,m1,day,2
2024-07-01T00:15:02Z,2024-07-01T00:15:00Z,m2,night,4.25
2024-07-01T00:30:01Z,2024-07-01T00:30:00Z,m3,solar,1
";

const TARIFF_JUNE: &str = "plan,price
day,0.30
night,0.18
";

const TARIFF_JULY: &str = "plan,price
day,0.32
night,0.20
";

/// Whether the example prints its expected text.
fn tariff_prints(alloc: Global) -> Result<bool, Memory> {
    let case = Case {
        query: TARIFF_QUERY.as_bytes(),
        inputs: TARIFF_INPUTS.as_bytes(),
        files: &[
            ("examples/tariff/readings.csv", TARIFF_READINGS.as_bytes()),
            ("examples/tariff/june.csv", TARIFF_JUNE.as_bytes()),
            ("examples/tariff/july.csv", TARIFF_JULY.as_bytes()),
        ],
    };
    previews(alloc, case, TARIFF_EXPECTED)
}

#[test]
fn the_tariff_example_prints_what_its_folder_says(rt: HostRuntime) -> Result<(), Fail> {
    assert!(rt; tariff_prints(rt.alloc())?);
    Ok(())
}
