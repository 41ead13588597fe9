//! AND, OR, NOT and IS NULL over true, false and unknown, and what a WHERE takes of them.

use crate::answers::{check_queries, check_truths};
use std::test::Fail;

// A condition, and its truth.
const TRUTHS: [(&str, &str); 30] = [
    ("1 = 1 AND 1 = 1", "true"),
    ("1 = 1 AND 1 = 2", "false"),
    ("1 = 1 AND NULL = 1", "unknown"),
    ("1 = 2 AND 1 = 1", "false"),
    ("1 = 2 AND 1 = 2", "false"),
    ("1 = 2 AND NULL = 1", "false"),
    ("NULL = 1 AND 1 = 1", "unknown"),
    ("NULL = 1 AND 1 = 2", "false"),
    ("NULL = 1 AND NULL = 1", "unknown"),
    ("1 = 1 OR 1 = 1", "true"),
    ("1 = 1 OR 1 = 2", "true"),
    ("1 = 1 OR NULL = 1", "true"),
    ("1 = 2 OR 1 = 1", "true"),
    ("1 = 2 OR 1 = 2", "false"),
    ("1 = 2 OR NULL = 1", "unknown"),
    ("NULL = 1 OR 1 = 1", "true"),
    ("NULL = 1 OR 1 = 2", "unknown"),
    ("NULL = 1 OR NULL = 1", "unknown"),
    ("NOT 1 = 1", "false"),
    ("NOT 1 = 2", "true"),
    ("NOT NULL = 1", "unknown"),
    ("NOT NOT 1 = 1", "true"),
    ("NOT NOT no_big = 1", "unknown"),
    ("1 = 1 OR 1 = 1 AND 1 = 2", "true"),
    ("(1 = 1 OR 1 = 1) AND 1 = 2", "false"),
    ("NOT 1 = 2 AND 1 = 2", "false"),
    ("NOT (1 = 2 AND 1 = 2)", "true"),
    ("NOT 1 = 1 OR 1 = 1", "true"),
    ("NOT (1 = 1 OR NULL = 1)", "false"),
    ("no_big = 1 OR no_big <> 1", "unknown"),
];

#[test]
fn unknown_is_a_third_truth(rt: HostRuntime) -> Result<(), Fail> {
    check_truths(&rt, rt.alloc(), &TRUTHS)
}

// A condition, and its truth.
const NULLS: [(&str, &str); 14] = [
    ("no_big IS NULL", "true"),
    ("no_text IS NULL", "true"),
    ("no_bit IS NULL", "true"),
    ("seven IS NULL", "false"),
    ("zero IS NULL", "false"),
    ("blank IS NULL", "false"),
    ("no IS NULL", "false"),
    ("NULL IS NULL", "true"),
    ("seven IS NOT NULL", "true"),
    ("no_time IS NOT NULL", "false"),
    ("NOT no_fixed IS NULL", "false"),
    ("most + 1 IS NULL", "true"),
    ("seven / zero IS NULL", "true"),
    ("CONCAT(no_text, no_text) IS NULL", "false"),
];

#[test]
fn whether_a_value_is_null_is_never_unknown(rt: HostRuntime) -> Result<(), Fail> {
    check_truths(&rt, rt.alloc(), &NULLS)
}

// A query, and its rows.
const FILTERS: [(&str, &str); 9] = [
    ("SELECT seven AS v INTO o FROM s WHERE yes = 1", "7"),
    ("SELECT seven AS v INTO o FROM s WHERE no = 1", ""),
    ("SELECT seven AS v INTO o FROM s WHERE no_bit = 1", ""),
    ("SELECT seven AS v INTO o FROM s WHERE NOT no_bit = 1", ""),
    (
        "SELECT seven AS v INTO o FROM s WHERE no_bit = 1 OR yes = 1",
        "7",
    ),
    ("SELECT seven AS v INTO o FROM s WHERE no_bit IS NULL", "7"),
    ("SELECT thirds AS v INTO o FROM m WHERE gaps > 0", "1; 2"),
    ("SELECT thirds AS v INTO o FROM m WHERE NOT gaps > 5", "1"),
    (
        "SELECT NULL AS v INTO o FROM s WHERE NULL",
        "refused as a plan",
    ),
];

#[test]
fn where_takes_what_is_true_alone(rt: HostRuntime) -> Result<(), Fail> {
    check_queries(&rt, rt.alloc(), &FILTERS)
}
