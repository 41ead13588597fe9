//! JSON lines: the order of the rules, lines and their ends, limits.

use super::{filled, one_column, shows, two_columns};
use arrival_text::json_items;
use event_value::{Columns, Kind, Memory};
use std::alloc::Global;
use std::test::Fail;

/// Whether a file has these items.
pub fn gives(
    alloc: Global,
    columns: &Columns,
    stamped: bool,
    bytes: &[u8],
    wanted: &str,
) -> Result<bool, Memory> {
    let items = json_items(alloc, columns, stamped, bytes)?;
    shows(alloc, items.items(), wanted)
}

#[test]
fn the_first_rule_that_a_record_breaks_drops_it(rt: HostRuntime) -> Result<(), Fail> {
    let alloc = rt.alloc();
    let columns = two_columns(alloc)?;
    for &(line, wanted) in &RULES {
        assert!(rt;
            gives(alloc, &columns, true, line.as_bytes(), wanted)?,
            "{line}"
        );
    }
    Ok(())
}

const RULES: [(&str, &str); 14] = [
    (
        "{\"EventEnqueuedUtcTime\":\"1970-01-01T00:00:01Z\",\"b\":\"x\",\"a\":1}",
        "10000000 bigint 1 nvarchar \"x\"|",
    ),
    ("{\"EventEnqueuedUtcTime\":\"1970-01-01\"}", "0 null null|"),
    ("{\"a\":1.5,\"b\":[]}", "Enqueued|"),
    ("{\"EventEnqueuedUtcTime\":null,\"a\":1}", "Enqueued|"),
    ("{\"EventEnqueuedUtcTime\":0,\"a\":1}", "Enqueued|"),
    ("{\"EventEnqueuedUtcTime\":\"1969-12-31\"}", "Enqueued|"),
    (
        "{\"x\":{\"EventEnqueuedUtcTime\":\"1970-01-01\"}}",
        "Enqueued|",
    ),
    ("{\"eventEnqueuedUtcTime\":\"1970-01-01\"}", "Enqueued|"),
    (
        "{\"EventEnqueuedUtcTime\":\"1970-01-01\",\"b\":[],\"a\":1.5}",
        "Number|",
    ),
    (
        "{\"EventEnqueuedUtcTime\":\"1970-01-01\",\"b\":1.5,\"a\":[]}",
        "Field|",
    ),
    ("{\"a\":1e400,\"a\":1}", "Syntax|"),
    ("[{\"a\":1}]", "Syntax|"),
    ("1", "Syntax|"),
    ("{\"a\":1", "Syntax|"),
];

#[test]
fn lines_end_at_line_feeds(rt: HostRuntime) -> Result<(), Fail> {
    let alloc = rt.alloc();
    let columns = one_column(alloc, Kind::Big, &["v"])?;
    for &(bytes, wanted) in &LINES {
        assert!(rt; gives(alloc, &columns, false, bytes, wanted)?, "{bytes:?}");
    }
    Ok(())
}

const LINES: [(&[u8], &str); 14] = [
    (b"", ""),
    (b"\xEF\xBB\xBF", ""),
    (b"\xEF\xBB\xBF{\"v\":1}", "0 bigint 1|"),
    (b"\xEF\xBB\xBF\xEF\xBB\xBF{\"v\":1}", "Syntax|"),
    (b"{\"v\":1}\n\xEF\xBB\xBF{\"v\":2}", "0 bigint 1|Syntax|"),
    (b"{\"v\":1}\n{\"v\":2}\n", "0 bigint 1|0 bigint 2|"),
    (
        b"{\"v\":1}\r\n\r\n \t\r\n\n{\"v\":2}",
        "0 bigint 1|0 bigint 2|",
    ),
    (b" {\"v\":1} \r\n", "0 bigint 1|"),
    (b"{\"v\":1}\r{\"v\":2}\n", "Syntax|"),
    (b"\r\r\n", "Syntax|"),
    (b"{\"v\":1}\r", "0 bigint 1|"),
    (b" \r", "Syntax|"),
    (b"{\"v\":\"\xFF\"}\n{}", "Syntax|0 null|"),
    (b"{\"\xFF\":1}", "Syntax|"),
];

/// Whether a line of this length, with this end, has these items.
fn gives_at_length(alloc: Global, length: usize, end: &str, wanted: &str) -> Result<bool, Memory> {
    let line = filled(alloc, "{\"v\":1", b' ', length.saturating_sub(6), end)?;
    gives(
        alloc,
        &one_column(alloc, Kind::Big, &["v"])?,
        false,
        line.items(),
        wanted,
    )
}

#[test]
fn a_line_above_65536_bytes_is_long(rt: HostRuntime) -> Result<(), Fail> {
    let alloc = rt.alloc();
    assert!(rt; gives_at_length(alloc, 65_535, "}", "0 bigint 1|")?);
    assert!(rt; gives_at_length(alloc, 65_535, "}\r\n", "0 bigint 1|")?);
    assert!(rt; gives_at_length(alloc, 65_536, "}", "Long|")?);
    assert!(rt; gives_at_length(alloc, 65_536, "}\r\n", "Long|")?);
    assert!(rt; gives_at_length(alloc, 65_536, "", "Syntax|")?);
    assert!(rt; gives_at_length(alloc, 65_536, "\r", "Long|")?);
    Ok(())
}

/// Whether a line that nests so many arrays in its object has these items.
fn gives_at_depth(alloc: Global, depth: usize, wanted: &str) -> Result<bool, Memory> {
    let mut line = filled(alloc, "{\"w\":", b'[', depth, "")?;
    line.extend(filled(alloc, "", b']', depth, "}")?.items())?;
    gives(
        alloc,
        &one_column(alloc, Kind::Big, &["v"])?,
        false,
        line.items(),
        wanted,
    )
}

#[test]
fn a_line_nests_127_deep(rt: HostRuntime) -> Result<(), Fail> {
    let alloc = rt.alloc();
    assert!(rt; gives_at_depth(alloc, 126, "0 null|")?);
    assert!(rt; gives_at_depth(alloc, 127, "Syntax|")?);
    Ok(())
}
