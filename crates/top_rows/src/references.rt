//! Joins with the snapshots of a reference.

use crate::cases::{Case, PREVIEW, ends, previews};
use event_value::Memory;
use jobs_top::Status;
use std::alloc::Global;
use std::test::Fail;

const TARIFFS: &str = "[policy]
late_seconds = 3600

[[stream]]
name = \"meter\"
format = \"csv\"
columns = [{ name = \"t\", kind = \"datetime\" }, { name = \"k\", kind = \"bigint\" }]

[[stream.partition]]
segments = [{ file = \"m.csv\", through = \"2024-01-01T01:00:00Z\" }]

[[reference]]
name = \"tariff\"
format = \"csv\"
columns = [{ name = \"k\", kind = \"bigint\" }, { name = \"price\", kind = \"fixed\" }]
snapshots = [
    { file = \"winter.csv\", effective = \"2024-01-01T00:00:10Z\" },
    { file = \"spring.csv\", effective = \"2024-01-01T00:00:20Z\" },
]
";

const READINGS: &str = "EventEnqueuedUtcTime,t,k
2024-01-01T00:01:00Z,2024-01-01T00:00:09Z,1
2024-01-01T00:01:00Z,2024-01-01T00:00:10Z,1
2024-01-01T00:01:00Z,2024-01-01T00:00:19Z,1
2024-01-01T00:01:00Z,2024-01-01T00:00:20Z,1
2024-01-01T00:01:00Z,2024-01-01T00:00:20Z,2
";

// The second record has a price that is none, and the third lacks it.
const WINTER: &str = "k,price
1,0.25
1,dear
2
";

const SPRING: &str = "k,price
1,0.5
3,0.75
";

/// Whether a query over the readings and the tariffs prints this text.
fn prints(alloc: Global, query: &str, text: &str) -> Result<bool, Memory> {
    let case = Case {
        query: query.as_bytes(),
        inputs: TARIFFS.as_bytes(),
        files: &[
            ("m.csv", READINGS.as_bytes()),
            ("winter.csv", WINTER.as_bytes()),
            ("spring.csv", SPRING.as_bytes()),
        ],
    };
    previews(alloc, case, text)
}

#[test]
fn a_reading_meets_the_tariff_in_force_and_nothing_before_the_first(
    rt: HostRuntime,
) -> Result<(), Fail> {
    let rows = [
        (
            "SELECT System.Timestamp() AS w, price INTO out FROM meter TIMESTAMP BY t JOIN tariff ON meter.k = tariff.k",
            "output out
{\"w\":\"2024-01-01T00:00:10.0000000Z\",\"price\":0.25}
{\"w\":\"2024-01-01T00:00:19.0000000Z\",\"price\":0.25}
{\"w\":\"2024-01-01T00:00:20.0000000Z\",\"price\":0.5}
drops
",
        ),
        (
            "SELECT meter.k AS k, price INTO out FROM meter TIMESTAMP BY t LEFT JOIN tariff ON meter.k = tariff.k",
            "output out
{\"k\":1,\"price\":null}
{\"k\":1,\"price\":0.25}
{\"k\":1,\"price\":0.25}
{\"k\":1,\"price\":0.5}
{\"k\":2,\"price\":null}
drops
",
        ),
    ];
    for &(query, text) in &rows {
        assert!(rt; prints(rt.alloc(), query, text)?);
    }
    Ok(())
}

#[test]
fn snapshots_are_read_before_the_segments(rt: HostRuntime) -> Result<(), Fail> {
    let case = Case {
        query: b"SELECT price INTO out FROM meter JOIN tariff ON meter.k = tariff.k",
        inputs: TARIFFS.as_bytes(),
        files: &[("winter.csv", WINTER.as_bytes())],
    };
    let line = "error 5 ReadFault spring.csv\n";
    assert!(rt; ends(rt.alloc(), &PREVIEW, case, Status::ReadFault, line)?);
    Ok(())
}
