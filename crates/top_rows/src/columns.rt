//! Columns of each kind, with good, NULL, wrong and absent values, in JSON and in CSV.

use crate::cases::{Case, previews};
use event_value::{Memory, Text};
use std::alloc::Global;
use std::test::Fail;

const KINDS: &str = "[[stream]]
name = \"src\"
format = \"json\"
columns = [
    { name = \"i\", kind = \"bigint\" },
    { name = \"f\", kind = \"fixed\" },
    { name = \"t\", kind = \"nvarchar(max)\", path = [\"in\", \"t\"] },
    { name = \"d\", kind = \"datetime\" },
    { name = \"b\", kind = \"bit\" },
]

[[stream.partition]]
segments = [{ file = \"k.json\", through = \"2024-01-01\" }]
";

/// A record with these members and an enqueue moment, on a line.
fn record_of(alloc: Global, members: &str) -> Result<Text, Memory> {
    let mut record = Text::of(alloc, b"{")?;
    record.extend(members.as_bytes())?;
    record.extend(b"\"EventEnqueuedUtcTime\":\"2024-01-01\"}\r\n")?;
    Ok(record)
}

/// The preview of one record: its row, or the rule that drops it, or neither.
fn preview_of(alloc: Global, row: &str, rule: &str) -> Result<Text, Memory> {
    let mut text = Text::of(alloc, b"output out\n")?;
    text.extend(row.as_bytes())?;
    text.extend(b"drops\n")?;
    if !rule.is_empty() {
        text.extend(b"{\"input\":\"src\",\"partition\":0,\"segment\":0,\"index\":0,\"rule\":\"")?;
        text.extend(rule.as_bytes())?;
        text.extend(b"\"}\n")?;
    }
    Ok(text)
}

/// Whether the text is UTF-8 and is the preview of all columns over these bytes of the file.
fn is_preview(alloc: Global, records: &[u8], text: &[u8]) -> Result<bool, Memory> {
    let case = Case {
        query: b"SELECT * INTO out FROM src",
        inputs: KINDS.as_bytes(),
        files: &[("k.json", records)],
    };
    match std::str::from_utf8(text) {
        Ok(text) => previews(alloc, case, text),
        Err(_) => Ok(false),
    }
}

/// Whether the preview of a file is this row, or a drop by this rule.
fn file_gives(alloc: Global, records: &[u8], row: &str, rule: &str) -> Result<bool, Memory> {
    let text = preview_of(alloc, row, rule)?;
    is_preview(alloc, records, text.items())
}

/// Whether the preview of a record with these members is this row, or a drop by this rule.
fn members_give(alloc: Global, members: &str, row: &str, rule: &str) -> Result<bool, Memory> {
    let record = record_of(alloc, members)?;
    file_gives(alloc, record.items(), row, rule)
}

const NULLS: &str = "{\"i\":null,\"f\":null,\"t\":null,\"d\":null,\"b\":null}\n";

#[test]
fn members_are_values_of_their_columns_kind(rt: HostRuntime) -> Result<(), Fail> {
    for &(members, row, rule) in &MEMBERS {
        assert!(rt; members_give(rt.alloc(), members, row, rule)?);
    }
    Ok(())
}

/// The members of a record, its row, and the rule by which it is dropped.
const MEMBERS: [(&str, &str, &str); 15] = [
    (
        "\"i\":5,\"f\":\"1.50\",\"in\":{\"t\":\"x\"},\"d\":\"2024-01-01\",\"b\":true,",
        "{\"i\":5,\"f\":1.5,\"t\":\"x\",\"d\":\"2024-01-01T00:00:00.0000000Z\",\"b\":1}\n",
        "",
    ),
    (
        "\"i\":\"-12\",\"f\":3,\"in\":{\"t\":7},\"d\":\"1970-01-01T00:00:00.1Z\",\"b\":\"false\",",
        "{\"i\":-12,\"f\":3,\"t\":\"7\",\"d\":\"1970-01-01T00:00:00.1000000Z\",\"b\":0}\n",
        "",
    ),
    (
        "\"i\":null,\"f\":null,\"in\":{\"t\":null},\"d\":null,\"b\":null,",
        NULLS,
        "",
    ),
    ("", NULLS, ""),
    ("\"in\":3,\"t\":\"not here\",", NULLS, ""),
    ("\"i\":1.5,\"f\":[],", "", "Number"),
    ("\"i\":9223372036854775808,", "", "Number"),
    ("\"i\":\"x\",\"f\":1.5,", "", "Field"),
    ("\"f\":\"1.5.\",", "", "Field"),
    ("\"in\":{\"t\":[1]},", "", "Field"),
    ("\"in\":{\"t\":true},", "", "Field"),
    ("\"d\":5,", "", "Field"),
    ("\"d\":\"2024-02-30\",", "", "Field"),
    ("\"b\":2,", "", "Field"),
    ("\"i\":{\"t\":1},", "", "Field"),
];

#[test]
fn a_line_is_dropped_by_the_first_rule_that_it_breaks(rt: HostRuntime) -> Result<(), Fail> {
    for &(records, row, rule) in &LINES {
        assert!(rt; file_gives(rt.alloc(), records.as_bytes(), row, rule)?);
    }
    Ok(())
}

/// The lines of a file, their row, and the rule by which one is dropped.
const LINES: [(&str, &str, &str); 8] = [
    ("{\"i\":1.5,\"b\":2}\n", "", "Enqueued"),
    (
        "{\"i\":[],\"EventEnqueuedUtcTime\":1704067200}\n",
        "",
        "Enqueued",
    ),
    ("[1,2]\n", "", "Syntax"),
    ("{\"i\":1,}\n", "", "Syntax"),
    (
        "\u{feff}{\"i\":1,\"EventEnqueuedUtcTime\":\"2024-01-01\"}",
        "{\"i\":1,\"f\":null,\"t\":null,\"d\":null,\"b\":null}\n",
        "",
    ),
    (" \r", "", "Syntax"),
    ("", "", ""),
    (" \t\n\r\n", "", ""),
];

const TABLE: &str = "[[stream]]
name = \"src\"
format = \"csv\"
delimiter = \";\"
columns = [{ name = \"v\", kind = \"fixed\" }]

[[stream.partition]]
segments = [{ file = \"v.csv\", through = \"2024-01-01T00:00:02Z\" }]
";

#[test]
fn fields_of_csv_are_values_and_a_short_record_is_dropped(rt: HostRuntime) -> Result<(), Fail> {
    let records =
        "EventEnqueuedUtcTime;v\n2024-01-01T00:00:00Z;1.5\n2024-01-01T00:00:01Z;\n2024-01-01T00:00:02Z\n";
    let text = "output out
{\"w\":\"2024-01-01T00:00:00.0000000Z\",\"v\":1.5}
{\"w\":\"2024-01-01T00:00:01.0000000Z\",\"v\":null}
drops
{\"input\":\"src\",\"partition\":0,\"segment\":0,\"index\":2,\"rule\":\"Syntax\"}
";
    let case = Case {
        query: b"SELECT System.Timestamp() AS w, v INTO out FROM src",
        inputs: TABLE.as_bytes(),
        files: &[("v.csv", records.as_bytes())],
    };
    assert!(rt; previews(rt.alloc(), case, text)?);
    Ok(())
}
