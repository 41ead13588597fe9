//! Casts, by tables worked out by hand.

use crate::cell::Cell::{Big, Bit, Fixed, Null, Ticks};
use crate::cell::{Cell, text, value};
use event_value::Kind;
use std::test::Fail;
use value_text::cast;

const TEXTS: [(&str, Kind, Cell); 29] = [
    ("+1", Kind::Big, Big(1)),
    (" 1", Kind::Big, Null),
    ("1 ", Kind::Big, Null),
    ("", Kind::Big, Null),
    ("-", Kind::Big, Null),
    ("+-1", Kind::Big, Null),
    ("1.0", Kind::Big, Null),
    ("-9223372036854775808", Kind::Big, Big(i64::MIN)),
    ("9223372036854775808", Kind::Big, Null),
    ("0000000000000000001", Kind::Big, Big(1)),
    ("00000000000000000001", Kind::Big, Null),
    ("1.0000019", Kind::Fixed, Fixed(1_000_001)),
    ("-0.25", Kind::Fixed, Fixed(-250_000)),
    ("+3", Kind::Fixed, Fixed(3_000_000)),
    ("1.", Kind::Fixed, Null),
    (".5", Kind::Fixed, Null),
    ("1e3", Kind::Fixed, Null),
    ("-9223372036854.775808", Kind::Fixed, Fixed(i64::MIN)),
    ("9223372036854.775808", Kind::Fixed, Null),
    ("0000000000000000000000007", Kind::Fixed, Fixed(7_000_000)),
    ("TRUE", Kind::Bit, Bit(true)),
    ("1", Kind::Bit, Bit(true)),
    ("False", Kind::Bit, Bit(false)),
    ("0", Kind::Bit, Bit(false)),
    ("01", Kind::Bit, Null),
    ("yes", Kind::Bit, Null),
    (
        "1970-01-02T00:00:00.0000001Z",
        Kind::Moment,
        Ticks(864_000_000_001),
    ),
    (
        "1970-01-02 01:00+01:00",
        Kind::Moment,
        Ticks(864_000_000_000),
    ),
    ("1970-02-30", Kind::Moment, Null),
];

const VALUES: [(Cell, Kind, Cell); 20] = [
    (Fixed(-2_500_000), Kind::Big, Big(-2)),
    (Fixed(2_999_999), Kind::Big, Big(2)),
    (Bit(true), Kind::Big, Big(1)),
    (Bit(false), Kind::Big, Big(0)),
    (
        Big(9_223_372_036_854),
        Kind::Fixed,
        Fixed(9_223_372_036_854_000_000),
    ),
    (Big(9_223_372_036_855), Kind::Fixed, Null),
    (Big(0), Kind::Bit, Bit(false)),
    (Big(-7), Kind::Bit, Bit(true)),
    (Bit(true), Kind::Fixed, Null),
    (Fixed(0), Kind::Bit, Null),
    (Big(0), Kind::Moment, Null),
    (Ticks(0), Kind::Big, Null),
    (Ticks(7), Kind::Moment, Ticks(7)),
    (Null, Kind::Big, Null),
    (Null, Kind::Text, Null),
    (
        Ticks(0),
        Kind::Text,
        Cell::Text("1970-01-01T00:00:00.0000000Z"),
    ),
    (Fixed(-250_000), Kind::Text, Cell::Text("-0.25")),
    (Big(-5), Kind::Text, Cell::Text("-5")),
    (Bit(true), Kind::Text, Cell::Text("1")),
    (Cell::Text("a\"b"), Kind::Text, Cell::Text("a\"b")),
];

#[test]
fn texts_are_cast_to_what_they_spell(rt: HostRuntime) -> Result<(), Fail> {
    let alloc = rt.alloc();
    for (spelt, kind, expected) in &TEXTS {
        let found = cast(alloc, &text(alloc, spelt)?, *kind)?;
        let expected = value(alloc, *expected)?;
        assert!(rt; found == expected);
    }
    Ok(())
}

#[test]
fn values_are_cast_between_kinds(rt: HostRuntime) -> Result<(), Fail> {
    let alloc = rt.alloc();
    for (from, kind, expected) in &VALUES {
        let found = cast(alloc, &value(alloc, *from)?, *kind)?;
        let expected = value(alloc, *expected)?;
        assert!(rt; found == expected);
    }
    Ok(())
}
