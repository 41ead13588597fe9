//! Which refusal and which fault of the two documents comes first, and what a document says.

use crate::cases::{CHECK, Case, PREVIEW, ends};
use crate::first::{INPUTS, RECORDS};
use event_value::Memory;
use jobs_top::Status;
use std::alloc::Global;
use std::test::Fail;

/// Whether both commands over these documents are refused with this line.
fn are_refused(alloc: Global, query: &str, inputs: &str, line: &str) -> Result<bool, Memory> {
    let case = Case {
        query: query.as_bytes(),
        inputs: inputs.as_bytes(),
        files: &[],
    };
    let by_preview = ends(alloc, &PREVIEW, case, Status::Refused, line)?;
    let by_check = ends(alloc, &CHECK, case, Status::Refused, line)?;
    Ok(by_preview && by_check)
}

const GOOD: &str = "SELECT a INTO out FROM src";

#[test]
fn a_document_is_refused_at_its_key(rt: HostRuntime) -> Result<(), Fail> {
    let rows = [
        ("stream", "error 3 Inputs.Toml\n"),
        ("", "error 3 Inputs.Missing stream\n"),
        ("a = 1\n[policy]\n", "error 3 Inputs.Unknown a\n"),
        (
            "stream = [{ name = 1 }]",
            "error 3 Inputs.Shape stream[0].name\n",
        ),
        (
            "[policy]\ndisorder_seconds = 601",
            "error 3 Inputs.Range policy.disorder_seconds\n",
        ),
        (
            "[[stream]]\nname = \"s\"\nformat = \"avro\"",
            "error 3 Inputs.Range stream[0].format\n",
        ),
        (
            "[[stream]]\nname = \"s\"\nformat = \"json\"\ncolumns = [{ name = \"a\", kind = \"bit\" }, { name = \"a\", kind = \"bit\" }]\npartition = [{}]",
            "error 3 Inputs.Twice a\n",
        ),
        (
            "[[stream]]\nname = \"s\"\nformat = \"json\"\ncolumns = [{ name = \"a\", kind = \"bit\" }]\npartition = [{ segments = [{ file = \"x\", through = \"2024-01-02\" }, { file = \"y\", through = \"2024-01-01\" }] }]",
            "error 3 Inputs.ThroughOrder stream[0].partition[0].segments[1].through\n",
        ),
    ];
    for &(inputs, line) in &rows {
        assert!(rt; are_refused(rt.alloc(), GOOD, inputs, line)?);
    }
    Ok(())
}

#[test]
fn the_text_of_the_query_is_refused_before_the_document_and_its_columns_after(
    rt: HostRuntime,
) -> Result<(), Fail> {
    let rows = [
        ("SELECT", "stream", "error 3 Query.Expected 6\n"),
        (
            "SELECT z INTO out FROM src",
            "stream",
            "error 3 Inputs.Toml\n",
        ),
        (
            "SELECT z INTO out FROM src",
            INPUTS,
            "error 3 Query.UnknownColumn 7\n",
        ),
    ];
    for &(query, inputs, line) in &rows {
        assert!(rt; are_refused(rt.alloc(), query, inputs, line)?);
    }
    Ok(())
}

/// Whether the words over the first example with this query end with this status and text.
fn first_ends(
    alloc: Global,
    words: [&str; 4],
    query: &str,
    status: Status,
    text: &str,
) -> Result<bool, Memory> {
    let case = Case {
        query: query.as_bytes(),
        inputs: INPUTS.as_bytes(),
        files: &[("b.json", RECORDS)],
    };
    ends(alloc, &words, case, status, text)
}

#[test]
fn a_file_that_is_missing_is_named_whatever_the_query_is(rt: HostRuntime) -> Result<(), Fail> {
    let rows = [
        (
            ["-", "preview", "none.txt", "i.toml"],
            GOOD,
            "error 5 ReadFault none.txt\n",
        ),
        (
            ["-", "check", "q.txt", "none.toml"],
            GOOD,
            "error 5 ReadFault none.toml\n",
        ),
        (
            ["-", "preview", "q.txt", "none.toml"],
            "SELECT",
            "error 5 ReadFault none.toml\n",
        ),
        (PREVIEW, GOOD, "error 5 ReadFault a.json\n"),
    ];
    for &(words, query, line) in &rows {
        assert!(rt; first_ends(rt.alloc(), words, query, Status::ReadFault, line)?);
    }
    Ok(())
}

#[test]
fn a_refused_query_and_check_ask_for_no_segment(rt: HostRuntime) -> Result<(), Fail> {
    let line = "error 3 Query.UnknownColumn 7\n";
    let refused = "SELECT z INTO out FROM src";
    assert!(rt; first_ends(rt.alloc(), PREVIEW, refused, Status::Refused, line)?);
    let text = "SELECT a INTO out FROM src\n";
    assert!(rt; first_ends(rt.alloc(), CHECK, GOOD, Status::Done, text)?);
    Ok(())
}
