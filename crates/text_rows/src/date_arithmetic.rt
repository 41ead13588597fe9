//! Parts added to moments, their boundaries, and their fields.

use std::test::Fail;
use tick_time::{END, LIMIT, Moment, Part, date_add, date_diff, date_part, read_moment};

const SUMS: [(&str, Part, i64, &str); 20] = [
    ("2024-01-31", Part::Month, 1, "2024-02-29"),
    (
        "2023-01-31 12:34:56.5",
        Part::Month,
        1,
        "2023-02-28 12:34:56.5",
    ),
    ("2024-03-31", Part::Month, -1, "2024-02-29"),
    ("2023-12-31", Part::Month, 13, "2025-01-31"),
    ("2024-10-31", Part::Month, 1, "2024-11-30"),
    ("2024-02-29", Part::Month, -12, "2023-02-28"),
    ("2999-11-30", Part::Month, 1, "2999-12-30"),
    ("2024-02-29", Part::Year, 1, "2025-02-28"),
    ("2024-02-29", Part::Year, 4, "2028-02-29"),
    ("2024-02-29", Part::Year, 76, "2100-02-28"),
    ("2024-01-01", Part::Year, -54, "1970-01-01"),
    ("2024-02-28", Part::Day, 1, "2024-02-29"),
    ("2023-02-28", Part::Day, 1, "2023-03-01"),
    ("2024-01-01", Part::Day, -19_723, "1970-01-01"),
    ("2024-01-01", Part::Hour, 24, "2024-01-02"),
    ("2024-01-01", Part::Minute, -1, "2023-12-31 23:59"),
    ("2023-12-31 23:59:59", Part::Second, 1, "2024-01-01"),
    (
        "2024-01-01",
        Part::Millisecond,
        1001,
        "2024-01-01 00:00:01.001",
    ),
    (
        "2999-12-31 23:59:59.9999989",
        Part::Microsecond,
        1,
        "2999-12-31 23:59:59.9999999",
    ),
    (
        "1970-01-01 00:00:00.000001",
        Part::Microsecond,
        -1,
        "1970-01-01",
    ),
];

const NO_SUMS: [(&str, Part, i64); 14] = [
    ("1970-01-31", Part::Month, -1),
    ("2999-12-01", Part::Month, 1),
    ("2024-01-01", Part::Month, i64::MAX),
    ("2024-01-01", Part::Month, i64::MIN),
    ("2024-01-01", Part::Year, -55),
    ("2024-01-01", Part::Year, -3000),
    ("2999-01-01", Part::Year, 1),
    ("2024-01-01", Part::Year, i64::MAX),
    ("2024-01-01", Part::Year, i64::MIN),
    ("1970-01-01", Part::Day, -1),
    ("2999-12-31", Part::Day, 1),
    ("2024-01-01", Part::Day, i64::MAX),
    ("2024-01-01", Part::Day, i64::MIN),
    ("2999-12-31 23:59:59.9999999", Part::Microsecond, 1),
];

const BOUNDARIES: [(Part, &str, &str, i64); 14] = [
    (Part::Year, "2023-12-31 23:59:59", "2024-01-01", 1),
    (Part::Year, "2024-01-01", "2023-12-31 23:59:59", -1),
    (Part::Year, "2024-01-01", "2024-12-31 23:59:59", 0),
    (Part::Month, "2024-01-31", "2024-02-01", 1),
    (Part::Month, "2023-12-31", "2024-12-01", 12),
    (Part::Month, "2024-02-01", "2024-02-29", 0),
    (Part::Day, "2024-02-28 23:59:59", "2024-03-01", 2),
    (Part::Hour, "2024-01-01 00:59:59", "2024-01-01 01:00", 1),
    (Part::Minute, "2024-01-01 00:00:59", "2024-01-01 00:01", 1),
    (
        Part::Second,
        "2024-01-01 00:00:00.9999999",
        "2024-01-01 00:00:01",
        1,
    ),
    (
        Part::Second,
        "2024-01-01 00:00:00",
        "2024-01-01 00:00:00.9999999",
        0,
    ),
    (
        Part::Millisecond,
        "2024-01-01 00:00:00.0009999",
        "2024-01-01 00:00:00.001",
        1,
    ),
    (
        Part::Microsecond,
        "2024-01-01 00:00:00.0000019",
        "2024-01-01 00:00:00.000002",
        1,
    ),
    (
        Part::Microsecond,
        "2024-01-02",
        "2024-01-01",
        -86_400_000_000,
    ),
];

const FIELDS: [(Part, i64, i64); 8] = [
    (Part::Year, 2024, 9999),
    (Part::Month, 2, 12),
    (Part::Day, 29, 31),
    (Part::Hour, 13, 23),
    (Part::Minute, 45, 59),
    (Part::Second, 59, 59),
    (Part::Millisecond, 123, 999),
    (Part::Microsecond, 123_456, 999_999),
];

fn moment(text: &str) -> Result<Moment, Fail> {
    Ok(read_moment(text.as_bytes()).ok_or("no moment")?)
}

#[test]
fn parts_are_added(rt: HostRuntime) -> Result<(), Fail> {
    for (text, part, n, sum) in &SUMS {
        let found = date_add(*part, *n, moment(text)?);
        assert!(rt; found == read_moment(sum.as_bytes()), "{n} to {text}");
    }
    for (text, part, n) in &NO_SUMS {
        assert!(rt;
            date_add(*part, *n, moment(text)?).is_none(),
            "{n} to {text}"
        );
    }
    Ok(())
}

#[test]
fn boundaries_are_counted(rt: HostRuntime) -> Result<(), Fail> {
    for (part, from, to, count) in &BOUNDARIES {
        let found = date_diff(*part, moment(from)?, moment(to)?);
        assert!(rt; found == *count, "from {from}");
    }
    Ok(())
}

#[test]
fn end_counts_as_the_tick_before_it(rt: HostRuntime) -> Result<(), Fail> {
    let at = moment("2024-02-29 13:45:59.1234567")?;
    let end = Moment::of_ticks(END).ok_or("no end")?;
    for (part, field, field_of_end) in &FIELDS {
        assert!(rt; date_part(*part, at) == *field, "{field}");
        assert!(rt; date_part(*part, end) == *field_of_end, "{field_of_end}");
    }
    assert!(rt; date_diff(Part::Year, Moment::zero(), end) == 8029);
    assert!(rt; date_diff(Part::Day, Moment::zero(), end) == 2_932_896);
    assert!(rt; date_add(Part::Year, 0, end).is_none());
    assert!(rt; date_add(Part::Year, -7000, end).map(Moment::ticks) == Some(LIMIT - 1));
    Ok(())
}
