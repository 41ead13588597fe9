//! IN, which is an OR of equalities, and BETWEEN, which is an AND of two comparisons.

use crate::answers::check_truths;
use std::test::Fail;

// A condition, and its truth.
const LISTS: [(&str, &str); 27] = [
    ("seven IN (1, 7)", "true"),
    ("seven IN (1, 2)", "false"),
    ("seven IN (7)", "true"),
    ("seven IN (1, NULL)", "unknown"),
    ("seven IN (NULL, 7)", "true"),
    ("seven IN (no_big)", "unknown"),
    ("no_big IN (1, 2)", "unknown"),
    ("no_big IN (1, no_big)", "unknown"),
    ("NULL IN (NULL)", "unknown"),
    ("seven NOT IN (1, 2)", "true"),
    ("seven NOT IN (1, 7)", "false"),
    ("seven NOT IN (1, NULL)", "unknown"),
    ("seven NOT IN (7, NULL)", "false"),
    ("no_big NOT IN (1)", "unknown"),
    ("seven IN (1 + 6, 0)", "true"),
    ("seven IN (6.5, 7.0)", "true"),
    ("half IN (0, 1)", "false"),
    ("half IN (0, 0.5)", "true"),
    ("most IN (least, most)", "true"),
    ("least IN (most)", "false"),
    ("yes IN (0, 1)", "true"),
    ("no_bit IN (0, 1)", "unknown"),
    ("word IN ('x', 'sensor')", "true"),
    ("word IN ('SENSOR', 'sensors')", "false"),
    ("word IN ('x', no_text)", "unknown"),
    ("noon IN (no_time, noon)", "true"),
    ("NOT seven IN (1, NULL)", "unknown"),
];

#[test]
fn a_value_is_in_a_list_by_or_of_equalities(rt: HostRuntime) -> Result<(), Fail> {
    check_truths(&rt, rt.alloc(), &LISTS)
}

// A condition, and its truth.
const STRETCHES: [(&str, &str); 27] = [
    ("seven BETWEEN 6 AND 8", "true"),
    ("seven BETWEEN 7 AND 9", "true"),
    ("seven BETWEEN 5 AND 7", "true"),
    ("seven BETWEEN 8 AND 9", "false"),
    ("seven BETWEEN 5 AND 6", "false"),
    ("seven BETWEEN 9 AND 5", "false"),
    ("seven NOT BETWEEN 9 AND 5", "true"),
    ("seven NOT BETWEEN 1 AND 9", "false"),
    ("no_big BETWEEN 1 AND 2", "unknown"),
    ("no_big NOT BETWEEN 1 AND 2", "unknown"),
    ("seven BETWEEN NULL AND 9", "unknown"),
    ("seven BETWEEN NULL AND 5", "false"),
    ("seven BETWEEN 8 AND NULL", "false"),
    ("seven BETWEEN 1 AND NULL", "unknown"),
    ("seven NOT BETWEEN NULL AND 5", "true"),
    ("seven NOT BETWEEN NULL AND 9", "unknown"),
    ("most BETWEEN least AND most", "true"),
    ("half BETWEEN 0 AND 1", "true"),
    ("half BETWEEN 0.500001 AND 1", "false"),
    ("yes BETWEEN no AND 1", "true"),
    ("word BETWEEN 'a' AND 'z'", "true"),
    ("'Z' BETWEEN 'a' AND 'z'", "false"),
    ("word BETWEEN no_text AND 'a'", "false"),
    (
        "noon BETWEEN CAST('2024-02-29' AS datetime) AND CAST('2024-03-01' AS datetime)",
        "true",
    ),
    ("noon BETWEEN noon AND no_time", "unknown"),
    ("seven BETWEEN 1 AND 9 AND zero = 0", "true"),
    ("seven BETWEEN 1 AND 3 + 4", "true"),
];

#[test]
fn a_value_is_between_two_by_and_of_comparisons(rt: HostRuntime) -> Result<(), Fail> {
    check_truths(&rt, rt.alloc(), &STRETCHES)
}
