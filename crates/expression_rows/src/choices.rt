//! CASE and COALESCE: the first branch that is true, the first value that isn't NULL.

use crate::answers::check_values;
use std::test::Fail;

// An expression, and its printed value.
const BRANCHES: [(&str, &str); 23] = [
    (
        "CASE WHEN seven > 5 THEN 'big' WHEN seven > 1 THEN 'small' END",
        "\"big\"",
    ),
    (
        "CASE WHEN seven > 9 THEN 'big' WHEN seven > 1 THEN 'small' END",
        "\"small\"",
    ),
    ("CASE WHEN seven > 9 THEN 1 END", "null"),
    ("CASE WHEN seven > 9 THEN 1 ELSE 2 END", "2"),
    ("CASE WHEN no_big > 1 THEN 1 ELSE 2 END", "2"),
    ("CASE WHEN NOT no_big > 1 THEN 1 ELSE 2 END", "2"),
    ("CASE WHEN no_bit = 1 THEN 1 WHEN yes = 1 THEN 2 END", "2"),
    (
        "CASE seven WHEN 7 THEN 'seven' ELSE 'other' END",
        "\"seven\"",
    ),
    ("CASE seven WHEN 8 THEN 1 WHEN 7 THEN 2 END", "2"),
    ("CASE seven WHEN 8 THEN 1 END", "null"),
    ("CASE seven WHEN 7.0 THEN 1 END", "1"),
    ("CASE no_big WHEN NULL THEN 1 ELSE 2 END", "2"),
    ("CASE no_big WHEN no_big THEN 1 ELSE 2 END", "2"),
    (
        "CASE word WHEN 'SENSOR' THEN 1 WHEN 'sensor' THEN 2 END",
        "2",
    ),
    ("CASE seven / 2 WHEN 3 THEN 'three' END", "\"three\""),
    ("CASE WHEN 1 = 1 THEN NULL ELSE 2 END", "null"),
    ("CASE WHEN 1 = 2 THEN NULL END", "null"),
    ("CASE WHEN 1 = 1 THEN 1 ELSE 2.5 END", "1"),
    ("CASE WHEN 1 = 2 THEN 1 ELSE 2.5 END", "2.5"),
    ("CASE WHEN 1 = 1 THEN 7 ELSE 2.5 END / 2", "3.5"),
    ("CASE WHEN 1 = 1 THEN most ELSE 2.5 END", "null"),
    (
        "CASE WHEN 1 = 1 THEN CASE WHEN 1 = 2 THEN 1 ELSE 3 END END",
        "3",
    ),
    ("CASE WHEN 1 = 1 THEN 1 ELSE 'x' END", "refused as a plan"),
];

#[test]
fn the_first_true_branch_is_taken(rt: HostRuntime) -> Result<(), Fail> {
    check_values(&rt, rt.alloc(), &BRANCHES)
}

// An expression, and its printed value.
const FIRSTS: [(&str, &str); 17] = [
    ("COALESCE(no_big, seven)", "7"),
    ("COALESCE(seven, zero)", "7"),
    ("COALESCE(zero, seven)", "0"),
    ("COALESCE(no_big, no_big)", "null"),
    ("COALESCE(NULL, NULL)", "null"),
    ("COALESCE(no_big, NULL, 3)", "3"),
    ("COALESCE(seven / zero, -1)", "-1"),
    ("COALESCE(no_text, 'none')", "\"none\""),
    ("COALESCE(blank, 'none')", "\"\""),
    ("COALESCE(no_bit, yes)", "1"),
    (
        "COALESCE(no_time, noon)",
        "\"2024-02-29T12:00:00.0000000Z\"",
    ),
    ("COALESCE(no_big, half)", "0.5"),
    ("COALESCE(seven, half)", "7"),
    ("COALESCE(seven, half) / 2", "3.5"),
    ("COALESCE(most, half)", "0.5"),
    ("COALESCE(no_fixed, 3)", "3"),
    ("COALESCE(no_big, 'none')", "refused as a plan"),
];

#[test]
fn the_first_value_that_is_not_null_is_taken(rt: HostRuntime) -> Result<(), Fail> {
    check_values(&rt, rt.alloc(), &FIRSTS)
}
