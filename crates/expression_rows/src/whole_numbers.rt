//! Arithmetic of whole numbers: 64 bits, cut toward zero, NULL where a result doesn't fit.

use crate::answers::check_values;
use std::test::Fail;

// An expression, and its printed value.
const SUMS: [(&str, &str); 41] = [
    ("seven + 3", "10"),
    ("seven + no_big", "null"),
    ("NULL + 1", "null"),
    ("most + 0", "9223372036854775807"),
    ("most + 1", "null"),
    ("most + 1 - 1", "null"),
    ("most + least", "-1"),
    ("least + minus", "null"),
    ("seven - 10", "-3"),
    ("no_big - 1", "null"),
    ("least - 0", "-9223372036854775808"),
    ("least - 1", "null"),
    ("zero - most", "-9223372036854775807"),
    ("zero - least", "null"),
    ("seven * minus", "-49"),
    ("no_big * zero", "null"),
    ("most * 2", "null"),
    ("least * 1", "-9223372036854775808"),
    ("least * -1", "null"),
    ("3037000499 * 3037000499", "9223372030926249001"),
    ("3037000500 * 3037000500", "null"),
    ("-seven", "-7"),
    ("- minus", "7"),
    ("-most", "-9223372036854775807"),
    ("-least", "null"),
    ("-no_big", "null"),
    ("- - 7", "7"),
    ("ABS(minus)", "7"),
    ("ABS(seven)", "7"),
    ("abs(zero)", "0"),
    ("ABS(most)", "9223372036854775807"),
    ("ABS(least)", "null"),
    ("ABS(no_big)", "null"),
    ("1 + 2 * 3", "7"),
    ("(1 + 2) * 3", "9"),
    ("7 - 2 - 1", "4"),
    ("2 - -3", "5"),
    ("yes + 1", "refused as a plan"),
    ("word + 1", "refused as a plan"),
    ("seven = 7", "refused as a plan"),
    ("9223372036854775808", "refused as a text"),
];

#[test]
fn sums_and_products_that_do_not_fit_are_null(rt: HostRuntime) -> Result<(), Fail> {
    check_values(&rt, rt.alloc(), &SUMS)
}

// An expression, and its printed value.
const QUOTIENTS: [(&str, &str); 32] = [
    ("seven / 2", "3"),
    ("minus / 2", "-3"),
    ("seven / -2", "-3"),
    ("minus / -2", "3"),
    ("1 / 2", "0"),
    ("-1 / 2", "0"),
    ("seven / zero", "null"),
    ("zero / zero", "null"),
    ("zero / seven", "0"),
    ("seven / no_big", "null"),
    ("no_big / 2", "null"),
    ("least / -1", "null"),
    ("least / 1", "-9223372036854775808"),
    ("most / -1", "-9223372036854775807"),
    ("100 / 7 / 2", "7"),
    ("100 / 7 * 7", "98"),
    ("seven % 3", "1"),
    ("minus % 3", "-1"),
    ("seven % -3", "1"),
    ("minus % -3", "-1"),
    ("6 % 3", "0"),
    ("-6 % 3", "0"),
    ("-7 % 4", "-3"),
    ("seven % zero", "null"),
    ("seven % no_big", "null"),
    ("no_big % 3", "null"),
    ("least % -1", "0"),
    ("most % 10", "7"),
    ("least % 10", "-8"),
    ("least % most", "-1"),
    ("7 * 3 % 4", "1"),
    ("seven % half", "refused as a plan"),
];

#[test]
fn quotients_are_cut_toward_zero_and_remainders_have_the_dividends_sign(
    rt: HostRuntime,
) -> Result<(), Fail> {
    check_values(&rt, rt.alloc(), &QUOTIENTS)
}
