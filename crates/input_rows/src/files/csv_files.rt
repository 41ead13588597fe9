//! CSV: values of each kind, the header, the order of the rules, records and their ends, limits.

use super::{filled, one_column, shows, two_columns};
use arrival_text::csv_items;
use event_value::{Columns, Kind, Memory, Text};
use std::alloc::Global;
use std::process::Abort;
use std::test::Fail;

/// Whether a file with this delimiter has these items.
fn gives(
    alloc: Global,
    columns: &Columns,
    stamped: bool,
    delimiter: u8,
    bytes: &[u8],
    wanted: &str,
) -> Result<bool, Memory> {
    let items = csv_items(alloc, columns, stamped, delimiter, bytes)?;
    shows(alloc, items.items(), wanted)
}

/// Whether the record with this field under `v` has this item.
fn reads(alloc: Global, kind: Kind, field: &str, wanted: &str) -> Result<bool, Memory> {
    let mut text = Text::of(alloc, b"k,v\nx,")?;
    text.extend(field.as_bytes())?;
    gives(
        alloc,
        &one_column(alloc, kind, &["v"])?,
        false,
        b',',
        text.items(),
        wanted,
    )
}

/// Asserts what a field is as a value of a kind, row by row.
fn check_kind(
    rt: &impl Abort,
    alloc: Global,
    kind: Kind,
    rows: &[(&str, &str)],
) -> Result<(), Fail> {
    for (field, wanted) in rows {
        assert!(rt; reads(alloc, kind, field, wanted)?, "{field}");
    }
    Ok(())
}

#[test]
fn whole_numbers(rt: HostRuntime) -> Result<(), Fail> {
    check_kind(&rt, rt.alloc(), Kind::Big, &BIGINTS)
}

const BIGINTS: [(&str, &str); 7] = [
    ("", "0 null|"),
    ("\"\"", "0 null|"),
    ("-7", "0 bigint -7|"),
    ("\"12\"", "0 bigint 12|"),
    ("9223372036854775808", "Field|"),
    (" 1", "Field|"),
    ("1.0", "Field|"),
];

#[test]
fn other_kinds(rt: HostRuntime) -> Result<(), Fail> {
    let alloc = rt.alloc();
    check_kind(&rt, alloc, Kind::Fixed, &FIXEDS)?;
    check_kind(&rt, alloc, Kind::Text, &TEXTS)?;
    check_kind(&rt, alloc, Kind::Moment, &MOMENTS)?;
    check_kind(&rt, alloc, Kind::Bit, &BITS)
}

const FIXEDS: [(&str, &str); 4] = [
    ("", "0 null|"),
    ("-0.25", "0 fixed -0.25|"),
    ("3", "0 fixed 3|"),
    ("1e3", "Field|"),
];

const TEXTS: [(&str, &str); 4] = [
    ("", "0 nvarchar \"\"|"),
    ("\"\"", "0 nvarchar \"\"|"),
    ("null", "0 nvarchar \"null\"|"),
    (" x ", "0 nvarchar \" x \"|"),
];

const MOMENTS: [(&str, &str); 3] = [
    ("", "0 null|"),
    (
        "1970-01-01 00:00:01",
        "0 datetime \"1970-01-01T00:00:01.0000000Z\"|",
    ),
    ("1", "Field|"),
];

const BITS: [(&str, &str); 5] = [
    ("", "0 null|"),
    ("False", "0 bit 0|"),
    ("1", "0 bit 1|"),
    ("2", "Field|"),
    ("x", "Field|"),
];

#[test]
fn records_are_those_of_the_crate(rt: HostRuntime) -> Result<(), Fail> {
    let alloc = rt.alloc();
    let columns = two_columns(alloc)?;
    for &(bytes, wanted) in &RECORDS {
        assert!(rt;
            gives(alloc, &columns, false, b';', bytes, wanted)?,
            "{bytes:?}"
        );
    }
    Ok(())
}

const RECORDS: [(&[u8], &str); 22] = [
    (b"", ""),
    (b"a;b", ""),
    (b"\xEF\xBB\xBF\n", ""),
    (
        b"\n\r\na;b\n\n1;x\r\n\r\n2;y",
        "0 bigint 1 nvarchar \"x\"|0 bigint 2 nvarchar \"y\"|",
    ),
    (
        b"a;b\r1;x\r2;y\r",
        "0 bigint 1 nvarchar \"x\"|0 bigint 2 nvarchar \"y\"|",
    ),
    (b"\xEF\xBB\xBFa;b\n1;x\n", "0 bigint 1 nvarchar \"x\"|"),
    (b"b;c;a\nx;0;1\n", "0 bigint 1 nvarchar \"x\"|"),
    (b"a;b;a\n1;x;2\n", "0 bigint 1 nvarchar \"x\"|"),
    (b"a;b;a\n;x;2\n", "0 null nvarchar \"x\"|"),
    (b"a\n1\n", "0 bigint 1 null|"),
    (b"A; b\n1;x\n", "0 null null|"),
    (
        b"a;b\n1;\"x;y\n\"\"z\"\n",
        "0 bigint 1 nvarchar \"x;y\\n\\\"z\"|",
    ),
    (b"a;b\n1;x\"y\"\n", "0 bigint 1 nvarchar \"x\\\"y\\\"\"|"),
    (b"a;b\n1;\"x\"y\n", "0 bigint 1 nvarchar \"xy\"|"),
    (b"a;b\n1,x;y\n", "Field|"),
    (b"a;b\n1\n1;x;2\n;\n", "Syntax|Syntax|0 null nvarchar \"\"|"),
    (b"a;b\n  \n", "Syntax|"),
    (b"a;b\n1;\xFF\n2;y\n", "Syntax|0 bigint 2 nvarchar \"y\"|"),
    (b"a;b;\xFF\n1;x;z\n", "0 bigint 1 nvarchar \"x\"|"),
    (b"a;b;c\n1;x;\xFF\n", "Syntax|"),
    (b"a\n\"\"\n\n", "0 null null|"),
    (b"a;b\n\"\"\n", "Syntax|"),
];

#[test]
fn the_first_rule_that_a_record_breaks_drops_it(rt: HostRuntime) -> Result<(), Fail> {
    let alloc = rt.alloc();
    let columns = two_columns(alloc)?;
    for &(text, wanted) in &RULES {
        assert!(rt;
            gives(alloc, &columns, true, b',', text.as_bytes(), wanted)?,
            "{text}"
        );
    }
    Ok(())
}

const RULES: [(&str, &str); 6] = [
    (
        "EventEnqueuedUtcTime,a\n1970-01-01T00:00:01Z,1\n",
        "10000000 bigint 1 null|",
    ),
    ("EventEnqueuedUtcTime,a\n,x\n", "Enqueued|"),
    ("EventEnqueuedUtcTime,a\n1969-12-31,1\n", "Enqueued|"),
    ("a,b\nx,y\n", "Enqueued|"),
    ("a,b\nx\n", "Syntax|"),
    ("EventEnqueuedUtcTime,a\n1970-01-01,x\n", "Field|"),
];

#[test]
fn a_stamped_file_with_semicolons(rt: HostRuntime) -> Result<(), Fail> {
    let alloc = rt.alloc();
    let columns = one_column(alloc, Kind::Fixed, &["v"])?;
    let text =
        "EventEnqueuedUtcTime;v\n2024-01-01T00:00:00Z;1.5\n2024-01-01T00:00:01Z;\n2024-01-01T00:00:02Z\n";
    let wanted = "17040672000000000 fixed 1.5|17040672010000000 null|Syntax|";
    assert!(rt; gives(alloc, &columns, true, b';', text.as_bytes(), wanted)?);
    Ok(())
}

#[test]
fn a_path_of_two_names_is_absent(rt: HostRuntime) -> Result<(), Fail> {
    let alloc = rt.alloc();
    let columns = one_column(alloc, Kind::Big, &["a", "b"])?;
    assert!(rt; gives(alloc, &columns, false, b',', b"a,b,a.b\n1,2,3\n", "0 null|")?);
    Ok(())
}

/// Whether a record of two fields, together of this length, has these items.
fn gives_at_length(alloc: Global, length: usize, back: &str, wanted: &str) -> Result<bool, Memory> {
    let text = filled(alloc, "v,w\n1,", b'x', length.saturating_sub(1), back)?;
    gives(
        alloc,
        &one_column(alloc, Kind::Big, &["v"])?,
        false,
        b',',
        text.items(),
        wanted,
    )
}

#[test]
fn fields_above_65536_bytes_together_are_long(rt: HostRuntime) -> Result<(), Fail> {
    let alloc = rt.alloc();
    assert!(rt; gives_at_length(alloc, 65_536, "\r\n", "0 bigint 1|")?);
    assert!(rt; gives_at_length(alloc, 65_537, "\r\n", "Long|")?);
    assert!(rt; gives_at_length(alloc, 65_536, ",\n", "Syntax|")?);
    assert!(rt; gives_at_length(alloc, 65_537, ",\n", "Long|")?);
    Ok(())
}
