//! The printed form and the order of values, by tables worked out by hand.

use crate::cell::Cell::{Big, Bit, Fixed, Null, Ticks};
use crate::cell::{Cell, value};
use event_value::{Dropped, Rule, Seq, Text, Value, order};
use std::alloc::Global;
use std::cmp::Ordering;
use std::test::Fail;
use tick_time::Memory;
use value_text::{print_row, push_dropped};

const PRINTED: [(Cell, &str); 13] = [
    (Null, "{\"a\":null}"),
    (Bit(true), "{\"a\":1}"),
    (Bit(false), "{\"a\":0}"),
    (Big(i64::MIN), "{\"a\":-9223372036854775808}"),
    (Fixed(0), "{\"a\":0}"),
    (Fixed(-250_000), "{\"a\":-0.25}"),
    (Fixed(1_666_666), "{\"a\":1.666666}"),
    (Fixed(1), "{\"a\":0.000001}"),
    (Fixed(12_500_000), "{\"a\":12.5}"),
    (Fixed(i64::MIN), "{\"a\":-9223372036854.775808}"),
    (
        Cell::Text("a\"b\\c/\u{7f}"),
        "{\"a\":\"a\\\"b\\\\c/\u{7f}\"}",
    ),
    (Cell::Text("é"), "{\"a\":\"é\"}"),
    (Ticks(0), "{\"a\":\"1970-01-01T00:00:00.0000000Z\"}"),
];

const ESCAPES: [&str; 33] = [
    "\\u0000", "\\u0001", "\\u0002", "\\u0003", "\\u0004", "\\u0005", "\\u0006", "\\u0007", "\\b",
    "\\t", "\\n", "\\u000b", "\\f", "\\r", "\\u000e", "\\u000f", "\\u0010", "\\u0011", "\\u0012",
    "\\u0013", "\\u0014", "\\u0015", "\\u0016", "\\u0017", "\\u0018", "\\u0019", "\\u001a",
    "\\u001b", "\\u001c", "\\u001d", "\\u001e", "\\u001f", " ",
];

const ASCENDING: [Cell; 12] = [
    Null,
    Bit(false),
    Bit(true),
    Big(i64::MIN),
    Big(5),
    Fixed(-1),
    Fixed(0),
    Cell::Text(""),
    Cell::Text("Z"),
    Cell::Text("a"),
    Cell::Text("ab"),
    Ticks(0),
];

/// The printed row of one column `a` with this value.
fn printed(alloc: Global, value: Value) -> Result<Text, Memory> {
    let mut names = Seq::empty(alloc);
    names.push(Text::of(alloc, b"a")?)?;
    let mut values = Seq::empty(alloc);
    values.push(value)?;
    let names = names.items();
    let values = values.items();
    if names.len() == values.len() {
        print_row(alloc, names, values)
    } else {
        Err(Memory)
    }
}

#[test]
fn values_print_as_json(rt: HostRuntime) -> Result<(), Fail> {
    let alloc = rt.alloc();
    for (cell, expected) in &PRINTED {
        let found = printed(alloc, value(alloc, *cell)?)?;
        assert!(rt; found.items() == expected.as_bytes(), "{expected}");
    }
    Ok(())
}

/// The printed row of a text of this byte, by its escape.
fn row_of(alloc: Global, escape: &str) -> Result<Text, Memory> {
    let mut expected = Text::of(alloc, b"{\"a\":\"")?;
    expected.extend(escape.as_bytes())?;
    expected.extend(b"\"}")?;
    Ok(expected)
}

#[test]
fn control_bytes_are_escaped(rt: HostRuntime) -> Result<(), Fail> {
    let alloc = rt.alloc();
    let mut byte = 0u8;
    for escape in &ESCAPES {
        let found = printed(alloc, Value::Text(Text::of(alloc, &[byte])?))?;
        let expected = row_of(alloc, escape)?;
        assert!(rt; found.items() == expected.items(), "{escape}");
        byte = byte.saturating_add(1);
    }
    Ok(())
}

#[test]
fn a_dropped_record_names_its_place_and_rule(rt: HostRuntime) -> Result<(), Fail> {
    let alloc = rt.alloc();
    let dropped = Dropped {
        stream: 3,
        partition: 1,
        segment: 20,
        index: 4_000_000_000,
        rule: Rule::SegmentTooLong,
    };
    let mut out = Text::empty(alloc);
    push_dropped(&mut out, b"a\"b", &dropped)?;
    let expected =
        b"{\"input\":\"a\\\"b\",\"partition\":1,\"segment\":20,\"index\":4000000000,\"rule\":\"SegmentTooLong\"}";
    assert!(rt; out.items() == expected.as_slice());
    Ok(())
}

/// Whether the values of two cells are in the order of their places.
fn are_ordered(alloc: Global, left: Cell, right: Cell, wanted: Ordering) -> Result<bool, Memory> {
    let left = value(alloc, left)?;
    let right = value(alloc, right)?;
    Ok(order(&left, &right) == wanted)
}

#[test]
fn values_are_ordered_by_kind_and_then_by_value(rt: HostRuntime) -> Result<(), Fail> {
    let alloc = rt.alloc();
    for (i, left) in ASCENDING.iter().enumerate() {
        for (j, right) in ASCENDING.iter().enumerate() {
            assert!(rt; are_ordered(alloc, *left, *right, i.cmp(&j))?);
        }
    }
    Ok(())
}
