//! What is one byte above a limit.

use crate::cases::{Case, PREVIEW, ends};
use crate::first::INPUTS;
use event_value::Memory;
use jobs_top::Status;
use std::alloc::Global;
use std::test::Fail;

const QUERY: &[u8] = b"SELECT a INTO out FROM src";

/// A line of this many bytes, a record with a long member.
fn long_line(alloc: Global, length: usize) -> Result<Vec<u8>, Memory> {
    let mut line = Vec::from_slice(
        alloc,
        b"{\"a\":1,\"EventEnqueuedUtcTime\":\"2024-01-01\",\"c\":\"",
    )?;
    line.resize(length.max(60) - 2, b'x')?;
    line.extend_from_slice(b"\"}")?;
    Ok(line)
}

/// A text with blanks behind it up to this many bytes.
fn padded(alloc: Global, text: &[u8], length: usize) -> Result<Vec<u8>, Memory> {
    let mut bytes = Vec::from_slice(alloc, text)?;
    bytes.resize(length, b' ')?;
    Ok(bytes)
}

/// Whether these documents and this file end with this status and text.
fn files_end(
    alloc: Global,
    query: &[u8],
    inputs: &[u8],
    records: &[u8],
    status: Status,
    text: &str,
) -> Result<bool, Memory> {
    let case = Case {
        query,
        inputs,
        files: &[("a.json", records)],
    };
    ends(alloc, &PREVIEW, case, status, text)
}

/// Whether the preview of a line of this many bytes is this text.
fn line_gives(alloc: Global, length: usize, text: &str) -> Result<bool, Memory> {
    let line = long_line(alloc, length)?;
    files_end(
        alloc,
        QUERY,
        INPUTS.as_bytes(),
        line.as_slice(),
        Status::Done,
        text,
    )
}

#[test]
fn a_long_record_and_a_long_file_are_dropped(rt: HostRuntime) -> Result<(), Fail> {
    let rows = [
        (65_536, "output out\n{\"a\":1}\ndrops\n"),
        (
            65_537,
            "output out\ndrops\n{\"input\":\"src\",\"partition\":0,\"segment\":0,\"index\":0,\"rule\":\"Long\"}\n",
        ),
        (
            4_194_305,
            "output out\ndrops\n{\"input\":\"src\",\"partition\":0,\"segment\":0,\"index\":0,\"rule\":\"SegmentTooLong\"}\n",
        ),
    ];
    for &(length, text) in &rows {
        assert!(rt; line_gives(rt.alloc(), length, text)?);
    }
    Ok(())
}

/// Whether a query with blanks up to this many bytes ends with this status and text.
fn query_ends(alloc: Global, length: usize, status: Status, text: &str) -> Result<bool, Memory> {
    let query = padded(alloc, QUERY, length)?;
    files_end(
        alloc,
        query.as_slice(),
        INPUTS.as_bytes(),
        b"",
        status,
        text,
    )
}

/// Whether a document with blanks up to this many bytes ends with this status and text.
fn document_ends(alloc: Global, length: usize, status: Status, text: &str) -> Result<bool, Memory> {
    let inputs = padded(alloc, INPUTS.as_bytes(), length)?;
    files_end(alloc, QUERY, inputs.as_slice(), b"", status, text)
}

#[test]
fn a_document_above_its_limit_is_refused(rt: HostRuntime) -> Result<(), Fail> {
    let empty = "output out\ndrops\n";
    assert!(rt; query_ends(rt.alloc(), 65_536, Status::Done, empty)?);
    let line = "error 3 Query.TooLong\n";
    assert!(rt; query_ends(rt.alloc(), 65_537, Status::Refused, line)?);
    assert!(rt; document_ends(rt.alloc(), 1_048_576, Status::Done, empty)?);
    let line = "error 3 Inputs.TooLong\n";
    assert!(rt; document_ends(rt.alloc(), 1_048_577, Status::Refused, line)?);
    Ok(())
}
