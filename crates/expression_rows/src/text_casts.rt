//! Casts of texts: what a text spells, and NULL where it spells no such value.

use crate::answers::check_values;
use std::test::Fail;

// An expression, and its printed value.
const NUMBERS: [(&str, &str); 47] = [
    ("CAST('12' AS bigint)", "12"),
    ("CAST('+12' AS bigint)", "12"),
    ("CAST('-12' AS BIGINT)", "-12"),
    ("CAST('' AS bigint)", "null"),
    ("CAST(' 12' AS bigint)", "null"),
    ("CAST('12 ' AS bigint)", "null"),
    ("CAST('12a' AS bigint)", "null"),
    ("CAST('1.0' AS bigint)", "null"),
    ("CAST('1e3' AS bigint)", "null"),
    ("CAST('-' AS bigint)", "null"),
    ("CAST('+-1' AS bigint)", "null"),
    (
        "CAST('9223372036854775807' AS bigint)",
        "9223372036854775807",
    ),
    ("CAST('9223372036854775808' AS bigint)", "null"),
    (
        "CAST('-9223372036854775808' AS bigint)",
        "-9223372036854775808",
    ),
    ("CAST('-9223372036854775809' AS bigint)", "null"),
    ("CAST('0000000000000000012' AS bigint)", "12"),
    ("CAST('00000000000000000012' AS bigint)", "null"),
    ("CAST(word AS bigint)", "null"),
    ("CAST(no_text AS bigint)", "null"),
    ("CAST('1.5' AS fixed)", "1.5"),
    ("CAST('-0.25' AS fixed)", "-0.25"),
    ("CAST('+3' AS fixed)", "3"),
    ("CAST('1.0000019' AS fixed)", "1.000001"),
    ("CAST('-1.0000019' AS fixed)", "-1.000001"),
    ("CAST('0.9999999' AS fixed)", "0.999999"),
    ("CAST('0.0000005' AS fixed)", "0"),
    ("CAST('1.' AS fixed)", "null"),
    ("CAST('.5' AS fixed)", "null"),
    ("CAST('1,5' AS fixed)", "null"),
    ("CAST('1e3' AS fixed)", "null"),
    ("CAST('' AS fixed)", "null"),
    (
        "CAST('9223372036854.775807' AS fixed)",
        "9223372036854.775807",
    ),
    (
        "CAST('9223372036854.7758079' AS fixed)",
        "9223372036854.775807",
    ),
    ("CAST('9223372036854.775808' AS fixed)", "null"),
    (
        "CAST('-9223372036854.775808' AS fixed)",
        "-9223372036854.775808",
    ),
    ("CAST('0000000000000000000000007' AS fixed)", "7"),
    ("CAST(no_text AS fixed)", "null"),
    ("CAST('0' AS bit)", "0"),
    ("CAST('1' AS bit)", "1"),
    ("CAST('true' AS bit)", "1"),
    ("CAST('True' AS bit)", "1"),
    ("CAST('FALSE' AS bit)", "0"),
    ("CAST('2' AS bit)", "null"),
    ("CAST('01' AS bit)", "null"),
    ("CAST('yes' AS bit)", "null"),
    ("CAST('' AS bit)", "null"),
    ("CAST(no_text AS bit)", "null"),
];

#[test]
fn texts_spell_whole_numbers_decimals_and_bits(rt: HostRuntime) -> Result<(), Fail> {
    check_values(&rt, rt.alloc(), &NUMBERS)
}

// An expression, and its printed value.
const MOMENTS: [(&str, &str); 29] = [
    (
        "CAST('2024-02-29' AS datetime)",
        "\"2024-02-29T00:00:00.0000000Z\"",
    ),
    ("CAST('2023-02-29' AS datetime)", "null"),
    (
        "CAST('2000-02-29' AS datetime)",
        "\"2000-02-29T00:00:00.0000000Z\"",
    ),
    ("CAST('2100-02-29' AS datetime)", "null"),
    ("CAST('2024-02-30' AS datetime)", "null"),
    ("CAST('2024-04-31' AS datetime)", "null"),
    ("CAST('2024-13-01' AS datetime)", "null"),
    ("CAST('2024-2-9' AS datetime)", "null"),
    (
        "CAST('2024-02-29T12:34' AS datetime)",
        "\"2024-02-29T12:34:00.0000000Z\"",
    ),
    (
        "CAST('2024-02-29t12:34z' AS datetime)",
        "\"2024-02-29T12:34:00.0000000Z\"",
    ),
    (
        "CAST('2024-02-29 12:34:56.5' AS datetime)",
        "\"2024-02-29T12:34:56.5000000Z\"",
    ),
    (
        "CAST('2024-02-29 12:34:56.123456789Z' AS datetime)",
        "\"2024-02-29T12:34:56.1234567Z\"",
    ),
    ("CAST('2024-02-29 12:34:56.1234567890' AS datetime)", "null"),
    ("CAST('2024-02-29 12:34:56.' AS datetime)", "null"),
    ("CAST('2024-02-29T12' AS datetime)", "null"),
    ("CAST('2024-02-29T24:00' AS datetime)", "null"),
    ("CAST('2024-02-29T12:60' AS datetime)", "null"),
    (
        "CAST('2024-02-29T00:30+01:00' AS datetime)",
        "\"2024-02-28T23:30:00.0000000Z\"",
    ),
    (
        "CAST('2024-02-29T23:30-01:00' AS datetime)",
        "\"2024-03-01T00:30:00.0000000Z\"",
    ),
    (
        "CAST('1970-01-01T00:00-00:01' AS datetime)",
        "\"1970-01-01T00:01:00.0000000Z\"",
    ),
    ("CAST('1970-01-01T00:00+00:01' AS datetime)", "null"),
    ("CAST('1969-12-31' AS datetime)", "null"),
    (
        "CAST('2999-12-31T23:59:59.9999999' AS datetime)",
        "\"2999-12-31T23:59:59.9999999Z\"",
    ),
    ("CAST('3000-01-01' AS datetime)", "null"),
    ("CAST('' AS datetime)", "null"),
    ("CAST(word AS datetime)", "null"),
    ("CAST(no_text AS datetime)", "null"),
    (
        "TRY_CAST('2024-02-29' AS DATETIME)",
        "\"2024-02-29T00:00:00.0000000Z\"",
    ),
    ("TRY_CAST('2024-02-30' AS datetime)", "null"),
];

#[test]
fn texts_spell_moments(rt: HostRuntime) -> Result<(), Fail> {
    check_values(&rt, rt.alloc(), &MOMENTS)
}
