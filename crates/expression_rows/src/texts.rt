//! Texts: their length, letters, parts and joins, by characters.

use crate::answers::{check_queries, check_values};
use std::test::Fail;

// An expression, and its printed value.
const LETTERS: [(&str, &str); 21] = [
    ("LEN(word)", "6"),
    ("LEN(city)", "6"),
    ("LEN(blank)", "0"),
    ("LEN('a b ')", "4"),
    ("LEN('😀')", "1"),
    ("LEN(no_text)", "null"),
    ("LEN(seven)", "refused as a plan"),
    ("LOWER('AbZ')", "\"abz\""),
    ("LOWER('ÉA@[')", "\"Éa@[\""),
    ("LOWER(blank)", "\"\""),
    ("LOWER(no_text)", "null"),
    ("UPPER(word)", "\"SENSOR\""),
    ("upper(city)", "\"ZüRICH\""),
    ("UPPER('a1_{`')", "\"A1_{`\""),
    ("UPPER(no_text)", "null"),
    ("UPPER(NULL)", "null"),
    ("word", "\"sensor\""),
    ("blank", "\"\""),
    ("no_text", "null"),
    ("'it''s'", "\"it's\""),
    ("'say \"x\" \\ y'", "\"say \\\"x\\\" \\\\ y\""),
];

#[test]
fn lengths_are_of_characters_and_letters_are_of_ascii(rt: HostRuntime) -> Result<(), Fail> {
    check_values(&rt, rt.alloc(), &LETTERS)
}

// An expression, and its printed value.
const PARTS: [(&str, &str); 22] = [
    ("SUBSTRING(word, 2, 3)", "\"ens\""),
    ("SUBSTRING(word, 1, 6)", "\"sensor\""),
    ("SUBSTRING(word, 1, 100)", "\"sensor\""),
    ("SUBSTRING(word, 0, 3)", "\"se\""),
    ("SUBSTRING(word, -2, 3)", "\"\""),
    ("SUBSTRING(word, -2, 4)", "\"s\""),
    ("SUBSTRING(word, 6, 1)", "\"r\""),
    ("SUBSTRING(word, 6, 2)", "\"r\""),
    ("SUBSTRING(word, 7, 1)", "\"\""),
    ("SUBSTRING(word, 3, 0)", "\"\""),
    ("SUBSTRING(word, 1, -1)", "null"),
    ("SUBSTRING(word, 9, -1)", "null"),
    ("SUBSTRING(word, 2, most)", "\"ensor\""),
    ("SUBSTRING(word, most, most)", "\"\""),
    ("SUBSTRING(word, least, most)", "\"\""),
    ("SUBSTRING(word, least, -1)", "null"),
    ("SUBSTRING(city, 2, 2)", "\"ür\""),
    ("SUBSTRING('a😀b', 3, 1)", "\"b\""),
    ("SUBSTRING(blank, 1, 1)", "\"\""),
    ("SUBSTRING(no_text, 1, 1)", "null"),
    ("SUBSTRING(word, no_big, 1)", "null"),
    ("SUBSTRING(word, 1, no_big)", "null"),
];

#[test]
fn a_part_is_the_characters_of_its_places_that_exist(rt: HostRuntime) -> Result<(), Fail> {
    check_values(&rt, rt.alloc(), &PARTS)
}

// An expression, and its printed value.
const JOINS: [(&str, &str); 11] = [
    ("CONCAT('a', 'b')", "\"ab\""),
    ("CONCAT('a', 'b', 'c')", "\"abc\""),
    ("CONCAT(word, '-', no_text)", "\"sensor-\""),
    ("CONCAT(no_text, word)", "\"sensor\""),
    ("CONCAT('a', NULL, 'b')", "\"ab\""),
    ("CONCAT(no_text, no_text)", "\"\""),
    ("CONCAT('', blank)", "\"\""),
    ("CONCAT(city, city)", "\"ZürichZürich\""),
    ("CONCAT(word, CAST(seven AS nvarchar(max)))", "\"sensor7\""),
    ("CONCAT(word, seven)", "refused as a plan"),
    ("LEN(CONCAT(city, no_text))", "6"),
];

#[test]
fn a_join_passes_over_null(rt: HostRuntime) -> Result<(), Fail> {
    check_values(&rt, rt.alloc(), &JOINS)
}

// A query, and its rows: a text of 65,536 bytes, and what one more makes of it.
const LIMITS: [(&str, &str); 1] = [(
    "WITH a AS (SELECT '0123456789abcdef' AS t FROM s),
        b AS (SELECT CONCAT(t, t, t, t) AS t FROM a),
        c AS (SELECT CONCAT(t, t, t, t) AS t FROM b),
        d AS (SELECT CONCAT(t, t, t, t) AS t FROM c),
        e AS (SELECT CONCAT(t, t, t, t) AS t FROM d),
        f AS (SELECT CONCAT(t, t, t, t) AS t FROM e),
        g AS (SELECT CONCAT(t, t, t, t) AS t FROM f)
    SELECT LEN(t) AS n, LEN(CONCAT(t, 'x')) AS more, LEN(CONCAT(t, '')) AS same INTO o FROM g",
    "65536 null 65536",
)];

#[test]
fn a_text_above_64_kib_is_null(rt: HostRuntime) -> Result<(), Fail> {
    check_queries(&rt, rt.alloc(), &LIMITS)
}
