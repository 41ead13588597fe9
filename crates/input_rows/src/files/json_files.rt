//! JSON lines: values of each kind, and paths; the lines themselves stand in json_lines.rt.

use super::json_lines::gives;
use super::one_column;
use event_value::{Kind, Memory, Text};
use std::alloc::Global;
use std::process::Abort;
use std::test::Fail;

/// Whether the line with this member, for a column at this path, has this item.
fn reads(
    alloc: Global,
    kind: Kind,
    path: &[&str],
    front: &str,
    member: &str,
    wanted: &str,
) -> Result<bool, Memory> {
    let mut line = Text::of(alloc, front.as_bytes())?;
    line.extend(member.as_bytes())?;
    line.push(b'}')?;
    gives(
        alloc,
        &one_column(alloc, kind, path)?,
        false,
        line.items(),
        wanted,
    )
}

/// Asserts what the member `v` is as a value of a kind, row by row.
fn check_kind(
    rt: &impl Abort,
    alloc: Global,
    kind: Kind,
    rows: &[(&str, &str)],
) -> Result<(), Fail> {
    for (member, wanted) in rows {
        assert!(rt;
            reads(alloc, kind, &["v"], "{\"v\":", member, wanted)?,
            "{member}"
        );
    }
    Ok(())
}

#[test]
fn whole_numbers(rt: HostRuntime) -> Result<(), Fail> {
    check_kind(&rt, rt.alloc(), Kind::Big, &BIGINTS)
}

const BIGINTS: [(&str, &str); 20] = [
    ("null", "0 null|"),
    ("7", "0 bigint 7|"),
    ("-7", "0 bigint -7|"),
    ("9223372036854775807", "0 bigint 9223372036854775807|"),
    ("-9223372036854775808", "0 bigint -9223372036854775808|"),
    ("9223372036854775808", "Number|"),
    ("-9223372036854775809", "Number|"),
    ("18446744073709551615", "Number|"),
    ("-0", "Number|"),
    ("1.0", "Number|"),
    ("1e2", "Number|"),
    ("1e400", "Syntax|"),
    ("01", "Syntax|"),
    ("\"12\"", "0 bigint 12|"),
    ("\"+12\"", "0 bigint 12|"),
    ("\"12 \"", "Field|"),
    ("\"\"", "Field|"),
    ("true", "Field|"),
    ("[7]", "Field|"),
    ("{\"v\":7}", "Field|"),
];

#[test]
fn decimal_numbers(rt: HostRuntime) -> Result<(), Fail> {
    check_kind(&rt, rt.alloc(), Kind::Fixed, &FIXEDS)
}

const FIXEDS: [(&str, &str); 9] = [
    ("null", "0 null|"),
    ("3", "0 fixed 3|"),
    ("9223372036854", "0 fixed 9223372036854|"),
    ("9223372036855", "Field|"),
    ("1.5", "Number|"),
    ("\"1.5000009\"", "0 fixed 1.5|"),
    ("\"1,5\"", "Field|"),
    ("false", "Field|"),
    ("[]", "Field|"),
];

#[test]
fn texts(rt: HostRuntime) -> Result<(), Fail> {
    check_kind(&rt, rt.alloc(), Kind::Text, &TEXTS)
}

const TEXTS: [(&str, &str); 11] = [
    ("null", "0 null|"),
    ("\"x\"", "0 nvarchar \"x\"|"),
    ("\"\"", "0 nvarchar \"\"|"),
    ("\"\\u0041\\n\"", "0 nvarchar \"A\\n\"|"),
    ("\"\\ud83d\\ude00\"", "0 nvarchar \"\u{1F600}\"|"),
    ("\"\\ud83d\"", "Syntax|"),
    ("-5", "0 nvarchar \"-5\"|"),
    ("0.5", "Number|"),
    ("true", "Field|"),
    ("[]", "Field|"),
    ("{}", "Field|"),
];

#[test]
fn moments(rt: HostRuntime) -> Result<(), Fail> {
    check_kind(&rt, rt.alloc(), Kind::Moment, &MOMENTS)
}

const MOMENTS: [(&str, &str); 7] = [
    ("null", "0 null|"),
    (
        "\"1970-01-01T01:00:01+01:00\"",
        "0 datetime \"1970-01-01T00:00:01.0000000Z\"|",
    ),
    ("\"1970\"", "Field|"),
    ("\"\"", "Field|"),
    ("0", "Field|"),
    ("0.5", "Number|"),
    ("false", "Field|"),
];

#[test]
fn bits(rt: HostRuntime) -> Result<(), Fail> {
    check_kind(&rt, rt.alloc(), Kind::Bit, &BITS)
}

const BITS: [(&str, &str); 11] = [
    ("null", "0 null|"),
    ("true", "0 bit 1|"),
    ("false", "0 bit 0|"),
    ("1", "0 bit 1|"),
    ("0", "0 bit 0|"),
    ("2", "Field|"),
    ("-1", "Field|"),
    ("1.0", "Number|"),
    ("\"TRUE\"", "0 bit 1|"),
    ("\"yes\"", "Field|"),
    ("[]", "Field|"),
];

#[test]
fn a_path_goes_through_objects_alone(rt: HostRuntime) -> Result<(), Fail> {
    let alloc = rt.alloc();
    for &(members, wanted) in &PATHS {
        assert!(rt;
            reads(alloc, Kind::Big, &["a", "b"], "{", members, wanted)?,
            "{members}"
        );
    }
    Ok(())
}

const PATHS: [(&str, &str); 12] = [
    ("\"a\":{\"b\":1}", "0 bigint 1|"),
    ("\"a\":{\"b\":null}", "0 null|"),
    ("\"a\":{\"b\":{}}", "Field|"),
    ("\"a\":{\"c\":1}", "0 null|"),
    ("\"a\":{\"b\":1,\"b\":2}", "0 bigint 2|"),
    ("\"a\":{\"b\":1},\"a\":{}", "0 null|"),
    ("\"a\":[{\"b\":1}]", "0 null|"),
    ("\"a\":\"b\"", "0 null|"),
    ("\"a\":null", "0 null|"),
    ("\"a.b\":1", "0 null|"),
    ("\"b\":1", "0 null|"),
    ("", "0 null|"),
];
