//! Aggregates over the three rows of one time, and groups by a key that is NULL in some.

use crate::answers::{check_aggregates, check_queries};
use std::test::Fail;

// An expression over the rows of `m`, and its printed value.
const COUNTS: [(&str, &str); 29] = [
    ("COUNT(*)", "3"),
    ("COUNT(thirds)", "3"),
    ("COUNT(gaps)", "2"),
    ("COUNT(key)", "1"),
    ("COUNT(nothing)", "0"),
    ("COUNT(DISTINCT thirds)", "2"),
    ("COUNT(DISTINCT gaps)", "2"),
    ("COUNT(DISTINCT ends)", "2"),
    ("COUNT(DISTINCT words)", "3"),
    ("COUNT(DISTINCT bits)", "2"),
    ("COUNT(DISTINCT nothing)", "0"),
    ("SUM(thirds)", "5"),
    ("SUM(below)", "-5"),
    ("SUM(gaps)", "13"),
    ("SUM(nothing)", "null"),
    ("SUM(ends)", "9223372036854775806"),
    ("SUM(too_high)", "null"),
    ("SUM(too_low)", "null"),
    ("SUM(cents)", "0.55"),
    ("SUM(tiny)", "0.000002"),
    ("SUM(top)", "null"),
    ("SUM(no_fixed)", "null"),
    ("SUM(thirds * 2)", "10"),
    ("SUM(thirds) * 2", "10"),
    ("SUM(thirds) / COUNT(*)", "1"),
    ("SUM(CASE WHEN thirds = 2 THEN 1 ELSE 0 END)", "2"),
    ("COUNT(*) - COUNT(gaps)", "1"),
    ("SUM(words)", "refused as a plan"),
    ("SUM(bits)", "refused as a plan"),
];

#[test]
fn counts_and_sums_pass_over_null(rt: HostRuntime) -> Result<(), Fail> {
    check_aggregates(&rt, rt.alloc(), &COUNTS)
}

// An expression over the rows of `m`, and its printed value.
const MEANS: [(&str, &str); 33] = [
    ("AVG(thirds)", "1.666666"),
    ("AVG(below)", "-1.666666"),
    ("AVG(gaps)", "6.5"),
    ("AVG(nothing)", "null"),
    ("AVG(ends)", "null"),
    ("AVG(too_high)", "null"),
    ("AVG(too_low)", "null"),
    ("AVG(cents)", "0.183333"),
    ("AVG(tiny)", "0"),
    ("AVG(top)", "4611686018427.387904"),
    ("AVG(no_fixed)", "null"),
    ("AVG(thirds) + 1", "2.666666"),
    ("MIN(thirds)", "1"),
    ("MIN(gaps)", "5"),
    ("MIN(nothing)", "null"),
    ("MIN(ends)", "-9223372036854775808"),
    ("MIN(cents)", "0.1"),
    ("MIN(words)", "\"Z\""),
    ("MIN(key)", "\"x\""),
    ("MIN(no_text)", "null"),
    ("MIN(times)", "\"1970-01-02T00:00:00.0000000Z\""),
    ("MIN(bits)", "0"),
    ("MAX(thirds)", "2"),
    ("MAX(below)", "-1"),
    ("MAX(gaps)", "8"),
    ("MAX(nothing)", "null"),
    ("MAX(ends)", "9223372036854775807"),
    ("MAX(cents)", "0.25"),
    ("MAX(words)", "\"é\""),
    ("MAX(times)", "\"2024-02-29T12:00:00.0000000Z\""),
    ("MAX(bits)", "1"),
    ("MAX(thirds) - MIN(thirds)", "1"),
    ("System.Timestamp()", "\"1970-01-02T00:00:00.0000000Z\""),
];

#[test]
fn a_mean_is_cut_toward_zero_and_the_least_is_by_bytes(rt: HostRuntime) -> Result<(), Fail> {
    check_aggregates(&rt, rt.alloc(), &MEANS)
}

// A query, and its rows.
const GROUPS: [(&str, &str); 7] = [
    (
        "SELECT key, COUNT(*) AS n INTO o FROM m GROUP BY key, SnapshotWindow()",
        "null 2; \"x\" 1",
    ),
    (
        "SELECT thirds, SUM(gaps) AS n INTO o FROM m GROUP BY thirds, SnapshotWindow()",
        "1 5; 2 8",
    ),
    (
        "SELECT COUNT(*) AS n INTO o FROM m WHERE gaps > 9 GROUP BY SnapshotWindow()",
        "",
    ),
    (
        "SELECT key INTO o FROM m GROUP BY key, SnapshotWindow() HAVING COUNT(*) > 1",
        "null",
    ),
    (
        "SELECT key INTO o FROM m GROUP BY key, SnapshotWindow() HAVING SUM(nothing) > 0",
        "",
    ),
    (
        "SELECT key INTO o FROM m GROUP BY key, SnapshotWindow() HAVING NOT SUM(nothing) > 0",
        "",
    ),
    (
        "SELECT COUNT(*) AS n, AVG(thirds) AS v INTO o FROM m GROUP BY TumblingWindow(day, 1)",
        "3 1.666666",
    ),
];

#[test]
fn rows_without_a_key_are_one_group(rt: HostRuntime) -> Result<(), Fail> {
    check_queries(&rt, rt.alloc(), &GROUPS)
}
