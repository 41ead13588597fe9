//! Moments moved by parts: the month's last day, leap years, and the ends of the calendar.

use crate::answers::check_values;
use std::test::Fail;

// An expression, and its printed value.
const SUMS: [(&str, &str); 22] = [
    ("noon", "\"2024-02-29T12:00:00.0000000Z\""),
    ("no_time", "null"),
    ("System.Timestamp()", "\"1970-01-02T00:00:00.0000000Z\""),
    ("system.timestamp", "\"1970-01-02T00:00:00.0000000Z\""),
    (
        "DATEADD(month, 1, CAST('2024-01-31' AS datetime))",
        "\"2024-02-29T00:00:00.0000000Z\"",
    ),
    (
        "DATEADD(month, 1, CAST('2023-01-31' AS datetime))",
        "\"2023-02-28T00:00:00.0000000Z\"",
    ),
    (
        "DATEADD(month, -1, CAST('2024-03-31' AS datetime))",
        "\"2024-02-29T00:00:00.0000000Z\"",
    ),
    (
        "DATEADD(MONTH, 13, CAST('2023-12-31' AS datetime))",
        "\"2025-01-31T00:00:00.0000000Z\"",
    ),
    ("DATEADD(mm, 12, noon)", "\"2025-02-28T12:00:00.0000000Z\""),
    ("DATEADD(m, 1, noon)", "\"2024-03-29T12:00:00.0000000Z\""),
    ("DATEADD(year, 1, noon)", "\"2025-02-28T12:00:00.0000000Z\""),
    ("DATEADD(yyyy, 4, noon)", "\"2028-02-29T12:00:00.0000000Z\""),
    (
        "DATEADD(year, 76, noon)",
        "\"2100-02-28T12:00:00.0000000Z\"",
    ),
    (
        "DATEADD(yy, -54, CAST('2024-01-01' AS datetime))",
        "\"1970-01-01T00:00:00.0000000Z\"",
    ),
    ("DATEADD(year, -55, CAST('2024-12-31' AS datetime))", "null"),
    ("DATEADD(year, 976, noon)", "null"),
    ("DATEADD(month, 1, CAST('2999-12-01' AS datetime))", "null"),
    ("DATEADD(month, least, noon)", "null"),
    ("DATEADD(month, no_big, noon)", "null"),
    ("DATEADD(month, 1, no_time)", "null"),
    ("DATEADD(day, 1, word)", "refused as a plan"),
    ("DATEADD(week, 1, noon)", "refused as a plan"),
];

#[test]
fn a_date_keeps_to_the_last_day_of_its_month(rt: HostRuntime) -> Result<(), Fail> {
    check_values(&rt, rt.alloc(), &SUMS)
}

// An expression, and its printed value.
const MOVES: [(&str, &str); 22] = [
    ("DATEADD(day, 1, noon)", "\"2024-03-01T12:00:00.0000000Z\""),
    (
        "DATEADD(dd, 1, CAST('2023-02-28' AS datetime))",
        "\"2023-03-01T00:00:00.0000000Z\"",
    ),
    (
        "DATEADD(d, -1, CAST('2024-03-01' AS datetime))",
        "\"2024-02-29T00:00:00.0000000Z\"",
    ),
    (
        "DATEADD(day, 366, noon)",
        "\"2025-03-01T12:00:00.0000000Z\"",
    ),
    ("DATEADD(day, 1, CAST('2999-12-31' AS datetime))", "null"),
    ("DATEADD(day, most, noon)", "null"),
    (
        "DATEADD(hour, 12, noon)",
        "\"2024-03-01T00:00:00.0000000Z\"",
    ),
    ("DATEADD(hh, -12, noon)", "\"2024-02-29T00:00:00.0000000Z\""),
    (
        "DATEADD(minute, -1, CAST('2024-01-01' AS datetime))",
        "\"2023-12-31T23:59:00.0000000Z\"",
    ),
    ("DATEADD(mi, 61, noon)", "\"2024-02-29T13:01:00.0000000Z\""),
    ("DATEADD(n, 0, noon)", "\"2024-02-29T12:00:00.0000000Z\""),
    (
        "DATEADD(second, 1, CAST('2023-12-31 23:59:59' AS datetime))",
        "\"2024-01-01T00:00:00.0000000Z\"",
    ),
    (
        "DATEADD(s, 86400, noon)",
        "\"2024-03-01T12:00:00.0000000Z\"",
    ),
    (
        "DATEADD(ss, -86400, System.Timestamp())",
        "\"1970-01-01T00:00:00.0000000Z\"",
    ),
    ("DATEADD(ss, -86401, System.Timestamp())", "null"),
    (
        "DATEADD(millisecond, 1001, noon)",
        "\"2024-02-29T12:00:01.0010000Z\"",
    ),
    ("DATEADD(ms, -1, noon)", "\"2024-02-29T11:59:59.9990000Z\""),
    (
        "DATEADD(microsecond, 1, CAST('2999-12-31 23:59:59.9999989' AS datetime))",
        "\"2999-12-31T23:59:59.9999999Z\"",
    ),
    (
        "DATEADD(mcs, 1, CAST('2999-12-31 23:59:59.9999999' AS datetime))",
        "null",
    ),
    ("DATEADD(mcs, -1, noon)", "\"2024-02-29T11:59:59.9999990Z\""),
    ("DATEADD(day, no_big, noon)", "null"),
    ("DATEADD(day, 1, no_time)", "null"),
];

#[test]
fn a_date_is_moved_by_days_and_parts_of_days(rt: HostRuntime) -> Result<(), Fail> {
    check_values(&rt, rt.alloc(), &MOVES)
}
