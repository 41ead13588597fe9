//! The boundaries of parts between moments, and the parts of a moment.

use crate::answers::check_values;
use std::test::Fail;

// An expression, and its printed value.
const BOUNDARIES: [(&str, &str); 28] = [
    (
        "DATEDIFF(year, CAST('2023-12-31 23:59:59' AS datetime), CAST('2024-01-01' AS datetime))",
        "1",
    ),
    (
        "DATEDIFF(year, CAST('2024-01-01' AS datetime), CAST('2024-12-31 23:59:59' AS datetime))",
        "0",
    ),
    (
        "DATEDIFF(yyyy, CAST('2024-01-01' AS datetime), CAST('2023-12-31 23:59:59' AS datetime))",
        "-1",
    ),
    (
        "DATEDIFF(yy, CAST('1970-01-01' AS datetime), CAST('2999-12-31' AS datetime))",
        "1029",
    ),
    (
        "DATEDIFF(month, CAST('2024-01-31' AS datetime), CAST('2024-02-01' AS datetime))",
        "1",
    ),
    ("DATEDIFF(month, CAST('2024-02-01' AS datetime), noon)", "0"),
    (
        "DATEDIFF(mm, CAST('2023-12-31' AS datetime), CAST('2024-12-01' AS datetime))",
        "12",
    ),
    ("DATEDIFF(m, noon, CAST('2024-01-31' AS datetime))", "-1"),
    (
        "DATEDIFF(day, CAST('2024-02-28 23:59:59' AS datetime), CAST('2024-03-01' AS datetime))",
        "2",
    ),
    (
        "DATEDIFF(dd, CAST('2023-02-28 23:59:59' AS datetime), CAST('2023-03-01' AS datetime))",
        "1",
    ),
    (
        "DATEDIFF(d, noon, CAST('2024-02-29 23:59:59.9999999' AS datetime))",
        "0",
    ),
    (
        "DATEDIFF(day, CAST('1970-01-01' AS datetime), CAST('2999-12-31' AS datetime))",
        "376199",
    ),
    (
        "DATEDIFF(hour, CAST('2024-01-01 00:59:59' AS datetime),
            CAST('2024-01-01 01:00' AS datetime))",
        "1",
    ),
    (
        "DATEDIFF(hh, CAST('2024-01-01 01:00' AS datetime),
            CAST('2024-01-01 01:59:59' AS datetime))",
        "0",
    ),
    (
        "DATEDIFF(minute, CAST('2024-01-01 00:00:59' AS datetime),
            CAST('2024-01-01 00:01' AS datetime))",
        "1",
    ),
    (
        "DATEDIFF(mi, CAST('2024-01-01 00:01' AS datetime),
            CAST('2024-01-01 00:00:59' AS datetime))",
        "-1",
    ),
    ("DATEDIFF(n, noon, noon)", "0"),
    (
        "DATEDIFF(second, CAST('2024-01-01 00:00:00.9999999' AS datetime),
            CAST('2024-01-01 00:00:01' AS datetime))",
        "1",
    ),
    (
        "DATEDIFF(ss, CAST('2024-01-01 00:00:00' AS datetime),
            CAST('2024-01-01 00:00:00.9999999' AS datetime))",
        "0",
    ),
    ("DATEDIFF(s, System.Timestamp(), noon)", "1709121600"),
    (
        "DATEDIFF(millisecond, CAST('2024-01-01 00:00:00.0009999' AS datetime),
            CAST('2024-01-01 00:00:00.001' AS datetime))",
        "1",
    ),
    (
        "DATEDIFF(ms, CAST('2024-01-01 00:00:00.001' AS datetime),
            CAST('2024-01-01 00:00:00.0019999' AS datetime))",
        "0",
    ),
    (
        "DATEDIFF(microsecond, CAST('1970-01-01' AS datetime),
            CAST('2999-12-31 23:59:59.9999999' AS datetime))",
        "32503679999999999",
    ),
    (
        "DATEDIFF(mcs, CAST('2024-01-01 00:00:00.0000019' AS datetime),
            CAST('2024-01-01 00:00:00.000002' AS datetime))",
        "1",
    ),
    (
        "DATEDIFF(mcs, CAST('2024-01-02' AS datetime), CAST('2024-01-01' AS datetime))",
        "-86400000000",
    ),
    ("DATEDIFF(day, noon, no_time)", "null"),
    ("DATEDIFF(day, no_time, noon)", "null"),
    ("DATEDIFF(day, noon, seven)", "refused as a plan"),
];

#[test]
fn a_difference_counts_the_boundaries_that_are_crossed(rt: HostRuntime) -> Result<(), Fail> {
    check_values(&rt, rt.alloc(), &BOUNDARIES)
}

// An expression, and its printed value.
const FIELDS: [(&str, &str); 33] = [
    ("DATEPART(year, noon)", "2024"),
    ("DATEPART(yyyy, CAST('1970-01-01' AS datetime))", "1970"),
    ("DATEPART(yy, CAST('2999-12-31' AS datetime))", "2999"),
    ("DATEPART(month, noon)", "2"),
    ("DATEPART(mm, CAST('2999-12-31' AS datetime))", "12"),
    ("DATEPART(m, CAST('2024-01-31' AS datetime))", "1"),
    ("DATEPART(day, noon)", "29"),
    (
        "DATEPART(dd, CAST('2024-01-01T00:30+01:00' AS datetime))",
        "31",
    ),
    (
        "DATEPART(d, CAST('2023-02-28 23:59:59.9999999' AS datetime))",
        "28",
    ),
    ("DATEPART(hour, noon)", "12"),
    (
        "DATEPART(hh, CAST('2024-01-01T00:30-01:00' AS datetime))",
        "1",
    ),
    (
        "DATEPART(minute, CAST('2024-02-29 23:58:57.1234567' AS datetime))",
        "58",
    ),
    ("DATEPART(mi, noon)", "0"),
    ("DATEPART(n, CAST('2024-01-01 00:59' AS datetime))", "59"),
    (
        "DATEPART(second, CAST('2024-02-29 23:58:57.1234567' AS datetime))",
        "57",
    ),
    ("DATEPART(ss, noon)", "0"),
    (
        "DATEPART(s, CAST('2024-01-01 00:00:59.9999999' AS datetime))",
        "59",
    ),
    (
        "DATEPART(millisecond, CAST('2024-02-29 23:58:57.1234567' AS datetime))",
        "123",
    ),
    (
        "DATEPART(ms, CAST('2024-01-01 00:00:59.9999999' AS datetime))",
        "999",
    ),
    (
        "DATEPART(microsecond, CAST('2024-02-29 23:58:57.1234567' AS datetime))",
        "123456",
    ),
    (
        "DATEPART(mcs, CAST('2024-01-01 00:00:59.9999999' AS datetime))",
        "999999",
    ),
    ("DATEPART(day, no_time)", "null"),
    ("YEAR(noon)", "2024"),
    ("year(CAST('1999-12-31 23:59:59' AS datetime))", "1999"),
    ("YEAR(no_time)", "null"),
    ("MONTH(noon)", "2"),
    ("MONTH(CAST('2024-12-31' AS datetime))", "12"),
    ("MONTH(no_time)", "null"),
    ("DAY(noon)", "29"),
    ("DAY(System.Timestamp())", "2"),
    ("DAY(no_time)", "null"),
    ("DAY(seven)", "refused as a plan"),
    ("DATEPART(weekday, noon)", "refused as a plan"),
];

#[test]
fn a_part_is_a_field_of_the_calendar(rt: HostRuntime) -> Result<(), Fail> {
    check_values(&rt, rt.alloc(), &FIELDS)
}
