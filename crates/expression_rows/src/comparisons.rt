//! Comparisons: of numbers across kinds, of bits with numbers, of texts by bytes, of moments, and
//! with NULL.

use crate::answers::check_truths;
use std::test::Fail;

// A condition, and its truth.
const NUMBERS: [(&str, &str); 44] = [
    ("seven = 7", "true"),
    ("seven = 8", "false"),
    ("seven = no_big", "unknown"),
    ("no_big = no_big", "unknown"),
    ("NULL = NULL", "unknown"),
    ("most = most", "true"),
    ("most = least", "false"),
    ("seven <> 8", "true"),
    ("seven != 7", "false"),
    ("no_big <> 7", "unknown"),
    ("least <> most", "true"),
    ("minus < zero", "true"),
    ("zero < zero", "false"),
    ("zero < no_big", "unknown"),
    ("least < most", "true"),
    ("zero <= zero", "true"),
    ("seven <= 6", "false"),
    ("no_big <= no_big", "unknown"),
    ("most <= least", "false"),
    ("seven > 6", "true"),
    ("seven > 7", "false"),
    ("NULL > 1", "unknown"),
    ("most > least", "true"),
    ("seven >= 7", "true"),
    ("6 >= seven", "false"),
    ("no_big >= 0", "unknown"),
    ("least >= most", "false"),
    ("half = 0.5", "true"),
    ("half = 0.500000", "true"),
    ("half < 0.500001", "true"),
    ("half = no_fixed", "unknown"),
    ("tiny > 0.0", "true"),
    ("bottom < top", "true"),
    ("1 = 1.0", "true"),
    ("1.0 = 1", "true"),
    ("1 < 1.000001", "true"),
    ("seven > 6.999999", "true"),
    ("no_big = half", "unknown"),
    ("seven > no_fixed", "unknown"),
    ("9223372036854 < top", "true"),
    ("9223372036855 > top", "true"),
    ("most > top", "true"),
    ("least < bottom", "true"),
    ("most + 1 > 0", "unknown"),
];

#[test]
fn numbers_compare_across_kinds_and_null_is_unknown(rt: HostRuntime) -> Result<(), Fail> {
    check_truths(&rt, rt.alloc(), &NUMBERS)
}

// A condition, and its truth.
const OTHERS: [(&str, &str); 33] = [
    ("yes = 1", "true"),
    ("1 = yes", "true"),
    ("no = 0", "true"),
    ("yes > no", "true"),
    ("yes = yes", "true"),
    ("yes = 2", "false"),
    ("yes < 2", "true"),
    ("no > -1", "true"),
    ("no_bit = 1", "unknown"),
    ("no_bit <> no", "unknown"),
    ("word = 'sensor'", "true"),
    ("word = 'Sensor'", "false"),
    ("word <> 'sensor '", "true"),
    ("blank = ''", "true"),
    ("'' < 'a'", "true"),
    ("'Z' < 'a'", "true"),
    ("'a' < 'ab'", "true"),
    ("'10' < '9'", "true"),
    ("'é' > 'z'", "true"),
    ("city > 'Zz'", "true"),
    ("'it''s' = 'it''s'", "true"),
    ("word > no_text", "unknown"),
    ("no_text = no_text", "unknown"),
    ("no_text <> ''", "unknown"),
    ("noon = CAST('2024-02-29T12:00' AS datetime)", "true"),
    ("noon = CAST('2024-02-29T13:00+01:00' AS datetime)", "true"),
    (
        "noon < CAST('2024-02-29T12:00:00.0000001' AS datetime)",
        "true",
    ),
    (
        "noon <= CAST('2024-02-29T11:59:59.9999999' AS datetime)",
        "false",
    ),
    ("noon > CAST('1970-01-01' AS datetime)", "true"),
    (
        "noon < CAST('2999-12-31T23:59:59.9999999' AS datetime)",
        "true",
    ),
    ("noon > no_time", "unknown"),
    ("noon <> CAST('2024-02-30' AS datetime)", "unknown"),
    (
        "System.Timestamp() = CAST('1970-01-02' AS datetime)",
        "true",
    ),
];

#[test]
fn bits_texts_and_moments_compare_each_in_their_order(rt: HostRuntime) -> Result<(), Fail> {
    check_truths(&rt, rt.alloc(), &OTHERS)
}
