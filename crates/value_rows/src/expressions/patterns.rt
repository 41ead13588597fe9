//! Patterns of texts.

use super::Spelt::{self, Big, Damaged, Null, Text};
use super::{has_truth, lit};
use event_value::Memory;
use query_plan::Cond;
use std::alloc::Global;
use std::test::Fail;

/// Whether a text fits a pattern, as expected.
fn fits(
    alloc: Global,
    whole: Spelt,
    pattern: &str,
    expected: Option<bool>,
) -> Result<bool, Memory> {
    let pattern = event_value::Text::of(alloc, pattern.as_bytes())?;
    has_truth(alloc, &Cond::Like(lit(alloc, whole)?, pattern), expected)
}

// A text, a pattern, and whether it fits.
const PATTERNS: [(Spelt, &str, Option<bool>); 20] = [
    (Text("abc"), "a%", Some(true)),
    (Text("abc"), "%c", Some(true)),
    (Text("abc"), "a_c", Some(true)),
    (Text("abc"), "a_", Some(false)),
    (Text("aXXby"), "a%b_", Some(true)),
    (Text("abz"), "a%b_", Some(true)),
    (Text("ab"), "a%b_", Some(false)),
    (Text(""), "%", Some(true)),
    (Text(""), "", Some(true)),
    (Text(""), "_", Some(false)),
    (Text("a"), "", Some(false)),
    (Text("\u{e9}"), "_", Some(true)),
    (Text("aaab"), "%a%b", Some(true)),
    (Text("abcd"), "%%d", Some(true)),
    (Text("A"), "a", Some(false)),
    (Text("mississippi"), "%iss%pi", Some(true)),
    (Text("mississippi"), "%iss_pi", Some(false)),
    (Null, "%", None),
    (Big(1), "%", None),
    (Damaged, "%", None),
];

#[test]
fn texts_fit_patterns(rt: HostRuntime) -> Result<(), Fail> {
    for (whole, pattern, expected) in &PATTERNS {
        assert!(rt; fits(rt.alloc(), *whole, *pattern, *expected)?);
    }
    Ok(())
}
