//! Casts of numbers, bits and moments, and of all kinds to texts.

use crate::answers::check_values;
use std::test::Fail;

// An expression, and its printed value.
const NUMBERS: [(&str, &str); 35] = [
    ("CAST(seven AS fixed)", "7"),
    ("CAST(seven AS fixed) / 2", "3.5"),
    ("CAST(9223372036854 AS fixed)", "9223372036854"),
    ("CAST(9223372036855 AS fixed)", "null"),
    ("CAST(-9223372036854 AS fixed)", "-9223372036854"),
    ("CAST(least AS fixed)", "null"),
    ("CAST(no_big AS fixed)", "null"),
    ("CAST(2.999999 AS bigint)", "2"),
    ("CAST(-2.999999 AS bigint)", "-2"),
    ("CAST(half AS bigint)", "0"),
    ("CAST(-half AS bigint)", "0"),
    ("CAST(top AS bigint)", "9223372036854"),
    ("CAST(bottom AS bigint)", "-9223372036854"),
    ("CAST(no_fixed AS bigint)", "null"),
    ("CAST(yes AS bigint)", "1"),
    ("CAST(no AS bigint)", "0"),
    ("CAST(no_bit AS bigint)", "null"),
    ("CAST(zero AS bit)", "0"),
    ("CAST(seven AS bit)", "1"),
    ("CAST(minus AS bit)", "1"),
    ("CAST(least AS bit)", "1"),
    ("CAST(no_big AS bit)", "null"),
    ("CAST(NULL AS bigint)", "null"),
    ("CAST(seven AS bigint)", "7"),
    ("CAST(half AS fixed)", "0.5"),
    ("CAST(yes AS bit)", "1"),
    ("CAST(noon AS datetime)", "\"2024-02-29T12:00:00.0000000Z\""),
    ("TRY_CAST(word AS bigint)", "null"),
    ("TRY_CAST('7' AS bigint)", "7"),
    ("TRY_CAST(seven AS bit)", "1"),
    ("CAST(half AS bit)", "refused as a plan"),
    ("CAST(yes AS fixed)", "refused as a plan"),
    ("CAST(noon AS bigint)", "refused as a plan"),
    ("CAST(seven AS datetime)", "refused as a plan"),
    ("CAST(seven AS float)", "refused as a plan"),
];

#[test]
fn numbers_and_bits_are_cast_to_each_other(rt: HostRuntime) -> Result<(), Fail> {
    check_values(&rt, rt.alloc(), &NUMBERS)
}

// An expression, and its printed value.
const TEXTS: [(&str, &str); 21] = [
    ("CAST(minus AS nvarchar(max))", "\"-7\""),
    ("CAST(zero AS NVARCHAR(MAX))", "\"0\""),
    ("CAST(least AS nvarchar(max))", "\"-9223372036854775808\""),
    ("CAST(half AS nvarchar(max))", "\"0.5\""),
    ("CAST(-0.25 AS nvarchar(max))", "\"-0.25\""),
    ("CAST(1.0 AS nvarchar(max))", "\"1\""),
    ("CAST(bottom AS nvarchar(max))", "\"-9223372036854.775808\""),
    ("CAST(yes AS nvarchar(max))", "\"1\""),
    ("CAST(no AS nvarchar(max))", "\"0\""),
    (
        "CAST(noon AS nvarchar(max))",
        "\"2024-02-29T12:00:00.0000000Z\"",
    ),
    ("CAST(word AS nvarchar(max))", "\"sensor\""),
    ("CAST('a\"b' AS nvarchar(max))", "\"a\\\"b\""),
    ("LEN(CAST('a\"b' AS nvarchar(max)))", "3"),
    ("CAST(no_big AS nvarchar(max))", "null"),
    ("CAST(no_fixed AS nvarchar(max))", "null"),
    ("CAST(no_text AS nvarchar(max))", "null"),
    ("CAST(no_time AS nvarchar(max))", "null"),
    ("CAST(no_bit AS nvarchar(max))", "null"),
    ("CAST(CAST(minus AS nvarchar(max)) AS bigint)", "-7"),
    ("CAST(CAST(half AS nvarchar(max)) AS fixed)", "0.5"),
    (
        "CAST(CAST(noon AS nvarchar(max)) AS datetime)",
        "\"2024-02-29T12:00:00.0000000Z\"",
    ),
];

#[test]
fn all_kinds_are_cast_to_texts_as_they_are_printed(rt: HostRuntime) -> Result<(), Fail> {
    check_values(&rt, rt.alloc(), &TEXTS)
}
