//! Arithmetic of decimals: millionths in 64 bits, what is past them dropped.

use crate::answers::check_values;
use std::test::Fail;

// An expression, and its printed value.
const SUMS: [(&str, &str); 33] = [
    ("half + 0.25", "0.75"),
    ("half + seven", "7.5"),
    ("seven + half", "7.5"),
    ("half + no_fixed", "null"),
    ("no_big + half", "null"),
    ("NULL + half", "null"),
    ("top + 0.0", "9223372036854.775807"),
    ("top + tiny", "null"),
    ("9223372036854 + 0.775807", "9223372036854.775807"),
    ("9223372036855 + half", "null"),
    ("9223372036855 - half", "null"),
    ("half - 2", "-1.5"),
    ("2 - half", "1.5"),
    ("no_fixed - half", "null"),
    ("bottom - 0.0", "-9223372036854.775808"),
    ("bottom - tiny", "null"),
    ("bottom + top", "-0.000001"),
    ("-half", "-0.5"),
    ("-tiny", "-0.000001"),
    ("-top", "-9223372036854.775807"),
    ("-bottom", "null"),
    ("-no_fixed", "null"),
    ("ABS(-0.25)", "0.25"),
    ("ABS(half)", "0.5"),
    ("ABS(bottom)", "null"),
    ("ABS(no_fixed)", "null"),
    ("1.50", "1.5"),
    ("1.0", "1"),
    ("100.10", "100.1"),
    ("0.000001", "0.000001"),
    ("-0.000010", "-0.00001"),
    ("half - half", "0"),
    ("9223372036854.775808", "refused as a text"),
];

#[test]
fn a_whole_number_beside_a_decimal_becomes_one(rt: HostRuntime) -> Result<(), Fail> {
    check_values(&rt, rt.alloc(), &SUMS)
}

// An expression, and its printed value.
const PRODUCTS: [(&str, &str); 33] = [
    ("1.5 * 2.5", "3.75"),
    ("half * seven", "3.5"),
    ("seven * half", "3.5"),
    ("1.000001 * 1.000001", "1.000002"),
    ("0.000001 * 0.999999", "0"),
    ("tiny * half", "0"),
    ("-tiny * half", "0"),
    ("0.0015 * 0.001", "0.000001"),
    ("-0.0015 * 0.001", "-0.000001"),
    ("0.333333 * 3", "0.999999"),
    ("top * 1.0", "9223372036854.775807"),
    ("top * 2", "null"),
    ("bottom * 1", "-9223372036854.775808"),
    ("bottom * -1", "null"),
    ("no_fixed * half", "null"),
    ("half * no_big", "null"),
    ("1.0 / 3", "0.333333"),
    ("2.0 / 3", "0.666666"),
    ("-2.0 / 3", "-0.666666"),
    ("1 / 3.0", "0.333333"),
    ("7.0 / 2", "3.5"),
    ("7 / 2 * 1.0", "3"),
    ("tiny / 2", "0"),
    ("half / 0", "null"),
    ("half / 0.0", "null"),
    ("half / no_fixed", "null"),
    ("no_big / half", "null"),
    ("top / 1", "9223372036854.775807"),
    ("top / tiny", "null"),
    ("top / half", "null"),
    ("bottom / 1.0", "-9223372036854.775808"),
    ("bottom / -1", "null"),
    ("half % 2", "refused as a plan"),
];

#[test]
fn products_and_quotients_drop_what_is_past_the_millionths(rt: HostRuntime) -> Result<(), Fail> {
    check_values(&rt, rt.alloc(), &PRODUCTS)
}
