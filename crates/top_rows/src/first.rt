//! The first example: two columns, three lines of which one is no record.

use crate::cases::{CHECK, Case, PREVIEW, ends, previews};
use event_value::Memory;
use jobs_top::Status;
use std::alloc::Global;
use std::test::Fail;

pub const INPUTS: &str = "[[stream]]
name = \"src\"
format = \"json\"
columns = [{ name = \"a\", kind = \"bigint\" }, { name = \"b\", kind = \"nvarchar(max)\" }]

[[stream.partition]]
segments = [{ file = \"a.json\", through = \"2024-01-01T00:00:01Z\" }]
";

pub const RECORDS: &[u8] = b"{\"a\":1,\"b\":\"x\",\"EventEnqueuedUtcTime\":\"2024-01-01T00:00:00Z\"}
not json
{\"a\":2,\"b\":null,\"EventEnqueuedUtcTime\":\"2024-01-01T00:00:01Z\"}
";

pub const DROP: &str =
    "{\"input\":\"src\",\"partition\":0,\"segment\":0,\"index\":1,\"rule\":\"Syntax\"}\n";

/// A query over the example's document and records.
pub fn case_of(query: &str) -> Case<'_> {
    Case {
        query: query.as_bytes(),
        inputs: INPUTS.as_bytes(),
        files: &[("a.json", RECORDS)],
    }
}

#[test]
fn the_first_example_prints_its_rows_and_its_drop(rt: HostRuntime) -> Result<(), Fail> {
    let text = "output out
{\"a\":1,\"b\":\"x\"}
{\"a\":2,\"b\":null}
drops
{\"input\":\"src\",\"partition\":0,\"segment\":0,\"index\":1,\"rule\":\"Syntax\"}
";
    let case = case_of("SELECT a, b INTO out FROM src");
    assert!(rt; previews(rt.alloc(), case, text)?);
    Ok(())
}

#[test]
fn expressions_are_computed_over_the_rows_that_pass(rt: HostRuntime) -> Result<(), Fail> {
    let text = "output out
{\"h\":0,\"c\":\"x\"}
{\"h\":1,\"c\":\"none\"}
drops
{\"input\":\"src\",\"partition\":0,\"segment\":0,\"index\":1,\"rule\":\"Syntax\"}
";
    let case = case_of(
        "SELECT a / 2 AS h, CASE WHEN b IS NULL THEN 'none' ELSE b END AS c INTO out FROM src WHERE a > 0",
    );
    assert!(rt; previews(rt.alloc(), case, text)?);
    Ok(())
}

#[test]
fn a_row_for_which_the_condition_is_unknown_is_left_out(rt: HostRuntime) -> Result<(), Fail> {
    let text = "output out
{\"a\":1}
drops
{\"input\":\"src\",\"partition\":0,\"segment\":0,\"index\":1,\"rule\":\"Syntax\"}
";
    let case = case_of("SELECT a INTO out FROM src WHERE b = 'x'");
    assert!(rt; previews(rt.alloc(), case, text)?);
    Ok(())
}

#[test]
fn a_union_has_the_rows_of_both_selects(rt: HostRuntime) -> Result<(), Fail> {
    let text = "output out
{\"a\":1}
{\"a\":1}
{\"a\":2}
{\"a\":2}
drops
{\"input\":\"src\",\"partition\":0,\"segment\":0,\"index\":1,\"rule\":\"Syntax\"}
";
    let case = case_of("SELECT a INTO out FROM src UNION SELECT a FROM src");
    assert!(rt; previews(rt.alloc(), case, text)?);
    Ok(())
}

#[test]
fn of_rows_of_equal_time_those_of_the_first_select_stand_first(
    rt: HostRuntime,
) -> Result<(), Fail> {
    let text = "output out
{\"n\":1}
{\"n\":-1}
{\"n\":2}
{\"n\":-2}
drops
{\"input\":\"src\",\"partition\":0,\"segment\":0,\"index\":1,\"rule\":\"Syntax\"}
";
    let case = case_of("SELECT a AS n INTO out FROM src UNION SELECT -a FROM src");
    assert!(rt; previews(rt.alloc(), case, text)?);
    Ok(())
}

/// Whether check of a query prints this canonical text.
fn checks(alloc: Global, query: &str, text: &str) -> Result<bool, Memory> {
    ends(alloc, &CHECK, case_of(query), Status::Done, text)
}

#[test]
fn check_prints_the_canonical_query(rt: HostRuntime) -> Result<(), Fail> {
    let rows = [
        (
            "select  a as x into out from src where a!=1",
            "SELECT a AS x INTO out FROM src WHERE a <> 1\n",
        ),
        (
            "SELECT [a], b INTO [out]\nFROM src -- all\n;",
            "SELECT a, b INTO out FROM src;\n",
        ),
    ];
    for &(query, text) in &rows {
        assert!(rt; checks(rt.alloc(), query, text)?);
    }
    Ok(())
}

/// Whether a query is refused by both commands with this line.
fn is_refused(alloc: Global, query: &str, line: &str) -> Result<bool, Memory> {
    let case = case_of(query);
    let by_preview = ends(alloc, &PREVIEW, case, Status::Refused, line)?;
    let by_check = ends(alloc, &CHECK, case, Status::Refused, line)?;
    Ok(by_preview && by_check)
}

const SIXTY_FIVE_NOTS: &str = "SELECT a INTO out FROM src WHERE \
NOT NOT NOT NOT NOT NOT NOT NOT NOT NOT NOT NOT NOT NOT NOT NOT \
NOT NOT NOT NOT NOT NOT NOT NOT NOT NOT NOT NOT NOT NOT NOT NOT \
NOT NOT NOT NOT NOT NOT NOT NOT NOT NOT NOT NOT NOT NOT NOT NOT \
NOT NOT NOT NOT NOT NOT NOT NOT NOT NOT NOT NOT NOT NOT NOT NOT \
NOT a = 1";

#[test]
fn a_query_is_refused_at_its_place(rt: HostRuntime) -> Result<(), Fail> {
    let rows = [
        (
            "SELECT z INTO out FROM src",
            "error 3 Query.UnknownColumn 7\n",
        ),
        (
            "SELECT a b c INTO out FROM src",
            "error 3 Query.Expected 11\n",
        ),
        (SIXTY_FIVE_NOTS, "error 3 Query.Deep 289\n"),
        ("", "error 3 Query.Expected 0\n"),
        ("SELECT a INTO out FROM src ?", "error 3 Query.Token 27\n"),
        (
            "SELECT a INTO out FROM other",
            "error 3 Query.UnknownSource 23\n",
        ),
        ("SELECT a + b INTO out FROM src", "error 3 Query.Kind 7\n"),
        (
            "SELECT COUNT(*) AS n INTO out FROM src",
            "error 3 Query.Aggregate 7\n",
        ),
        (
            "SELECT a, COUNT(*) AS n INTO out FROM src GROUP BY b, SnapshotWindow()",
            "error 3 Query.NotGrouped 7\n",
        ),
        (
            "SELECT b INTO out FROM src GROUP BY b",
            "error 3 Query.Window 27\n",
        ),
        (
            "SELECT a, a INTO out FROM src",
            "error 3 Query.NameTwice 10\n",
        ),
        (
            "SELECT FOO(a) AS f INTO out FROM src",
            "error 3 Query.Unsupported 7\n",
        ),
    ];
    for &(query, line) in &rows {
        assert!(rt; is_refused(rt.alloc(), query, line)?);
    }
    Ok(())
}
