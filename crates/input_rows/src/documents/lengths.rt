//! Lists and texts at their limits and one past them.

use super::check;
use event_value::{Memory, Text};
use std::alloc::Global;
use std::test::Fail;

/// A front, a piece, how often it stands, a back, and what the document is answered with.
type Case = (
    &'static str,
    &'static str,
    usize,
    &'static str,
    &'static str,
);

const STREAM: &str =
    "{name = 's', format = 'csv', columns = [{name = 'a', kind = 'bit'}], partition = [{}]}, ";

const COLUMN: &str = "{name = 'a', kind = 'bit'}, ";

const SEGMENT: &str = "{file = 'f', through = '2024-01-01'}, ";

const COLUMNS: &str = "stream = [{name = 's', format = 'csv', columns = [";

const PARTITIONS: &str =
    "stream = [{name = 's', format = 'csv', columns = [{name = 'a', kind = 'bit'}], partition = [";

const SEGMENTS: &str =
    "stream = [{name = 's', format = 'csv', columns = [{name = 'a', kind = 'bit'}], partition = [{segments = [";

const FILE: &str =
    "stream = [{name = 's', format = 'csv', columns = [{name = 'a', kind = 'bit'}], partition = [{segments = [{file = '";

const FURTHER: &str =
    "stream = [{name = 's', format = 'csv', columns = [{name = 'a', kind = 'bit'}], partition = [{}, {}]}, \
    {name = 't', format = 'csv', columns = [{name = 'a', kind = 'bit'}], partition = [";

/// The document of a case.
fn document_of(alloc: Global, case: &Case) -> Result<Text, Memory> {
    let (front, piece, count, back, _) = *case;
    let mut document = Text::of(alloc, front.as_bytes())?;
    for _ in 0..count {
        document.extend(piece.as_bytes())?;
    }
    document.extend(back.as_bytes())?;
    Ok(document)
}

#[test]
fn lengths_of_lists_and_texts(rt: HostRuntime) -> Result<(), Fail> {
    for case in &CASES {
        let (.., wanted) = *case;
        let document = document_of(rt.alloc(), case)?;
        check(&rt, rt.alloc(), document.items(), wanted)?;
    }
    Ok(())
}

/// Each list and text at its limit, and one past it.
const CASES: [Case; 16] = [
    ("stream = [", STREAM, 8, "]", "Twice s"),
    ("stream = [", STREAM, 9, "]", "TooMany stream"),
    (COLUMNS, COLUMN, 64, "], partition = [{}]}]", "Twice a"),
    (
        COLUMNS,
        COLUMN,
        65,
        "], partition = [{}]}]",
        "TooMany stream[0].columns",
    ),
    (PARTITIONS, "{}, ", 32, "]}]", "Inputs"),
    (PARTITIONS, "{}, ", 33, "]}]", "TooMany stream[0].partition"),
    (FURTHER, "{}, ", 30, "]}]", "Inputs"),
    (FURTHER, "{}, ", 31, "]}]", "TooMany stream[1].partition"),
    (SEGMENTS, SEGMENT, 4096, "]}]}]", "Inputs"),
    (
        SEGMENTS,
        SEGMENT,
        4097,
        "]}]}]",
        "TooMany stream[0].partition[0].segments",
    ),
    (
        SEGMENTS,
        SEGMENT,
        4097,
        "]}]}, {}]",
        "Missing stream[1].name",
    ),
    (
        FILE,
        "f",
        255,
        "'}]}]}]",
        "Missing stream[0].partition[0].segments[0].through",
    ),
    (
        FILE,
        "f",
        256,
        "'}]}]}]",
        "Range stream[0].partition[0].segments[0].file",
    ),
    ("", " ", 1_048_576, "", "Missing stream"),
    ("", " ", 1_048_576, "?", "TooLong"),
    ("", "\n", 1_048_575, "?", "Toml"),
];

#[test]
fn a_text_that_is_no_document(rt: HostRuntime) -> Result<(), Fail> {
    check(&rt, rt.alloc(), b"# \xFF", "Toml")?;
    check(&rt, rt.alloc(), b"a = 1\na = 2", "Toml")?;
    check(&rt, rt.alloc(), b"stream = []\n[[stream]]", "Toml")?;
    check(&rt, rt.alloc(), b"stream = 1\nx = 2\nb = 3", "Unknown b")
}
