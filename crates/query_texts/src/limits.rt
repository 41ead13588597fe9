//! Queries at a limit, on both sides of its edge.

use crate::answers::{is_read, is_refused};
use event_value::{Memory, Text};
use query_parse::ParseErr;
use std::alloc::Global;
use std::process::Abort;
use std::test::Fail;

/// The query of one item, which is a part repeated between a front and a back.
fn query_of(
    alloc: Global,
    front: &str,
    part: &str,
    count: u32,
    back: &str,
) -> Result<Text, Memory> {
    let mut text = Text::of(alloc, b"SELECT ")?;
    text.extend(front.as_bytes())?;
    for _ in 0..count {
        text.extend(part.as_bytes())?;
    }
    text.extend(back.as_bytes())?;
    Ok(text)
}

/// Whether such a query is refused so, for want of memory not.
fn is_item_refused(
    alloc: Global,
    (front, part, count, back): (&str, &str, u32, &str),
    wanted: ParseErr,
) -> bool {
    match query_of(alloc, front, part, count, back) {
        Ok(text) => is_refused(alloc, text.items(), wanted),
        Err(_) => false,
    }
}

/// Whether such a query is read.
fn is_item_read(alloc: Global, (front, part, count, back): (&str, &str, u32, &str)) -> bool {
    match query_of(alloc, front, part, count, back) {
        Ok(text) => is_read(alloc, text.items()),
        Err(_) => false,
    }
}

#[test]
fn openings_nest_up_to_their_limit(rt: HostRuntime) -> Result<(), Fail> {
    let alloc = rt.alloc();
    // `NOT ` has 4 bytes, the others 1 or 2; the item begins at 7.
    assert!(rt; is_item_read(alloc, ("", "NOT ", 64, "a INTO o FROM s")));
    assert!(rt; is_item_refused(alloc, ("", "NOT ", 65, "a"), ParseErr::Deep(263)));
    let front = "a INTO out FROM src WHERE ";
    assert!(rt; is_item_read(alloc, (front, "NOT ", 64, "a > 0")));
    assert!(rt; is_item_refused(alloc, (front, "NOT ", 65, "a > 0"), ParseErr::Deep(289)));
    assert!(rt; is_item_read(alloc, ("", "- ", 64, "a INTO o FROM s")));
    assert!(rt; is_item_refused(alloc, ("", "- ", 65, "a"), ParseErr::Deep(135)));
    assert!(rt; is_item_refused(alloc, ("", "(", 65, "a"), ParseErr::Deep(71)));
    assert!(rt; is_item_refused(alloc, ("", "(", 64, ")"), ParseErr::Expected(71)));
    // A call opens at its parenthesis, which IN, a type and CASE do too.
    assert!(rt; is_item_refused(alloc, ("", "f(", 65, "a"), ParseErr::Deep(136)));
    assert!(rt; is_item_refused(alloc, ("", "(", 64, "f(a"), ParseErr::Deep(72)));
    assert!(rt; is_item_refused(alloc, ("", "(", 64, "a IN (1"), ParseErr::Deep(76)));
    assert!(rt; is_item_refused(alloc, ("", "(", 64, "CAST(a"), ParseErr::Deep(75)));
    assert!(rt;
        is_item_refused(
            alloc,
            ("", "(", 63, "CAST(a AS nvarchar(max"),
            ParseErr::Deep(88)
        )
    );
    assert!(rt; is_item_refused(alloc, ("", "CASE ", 65, "a"), ParseErr::Deep(327)));
    Ok(())
}

#[test]
fn an_opening_in_with_counts(rt: HostRuntime) -> Result<(), Fail> {
    let alloc = rt.alloc();
    let front = "a INTO o FROM s; SELECT b INTO p FROM s WHERE ";
    assert!(rt; is_item_refused(alloc, (front, "NOT ", 65, "a"), ParseErr::Deep(309)));
    assert!(rt;
        is_item_refused(
            alloc,
            ("a INTO o FROM s GROUP BY ", "(", 65, "a"),
            ParseErr::Deep(96)
        )
    );
    Ok(())
}

#[test]
fn an_expression_has_a_limit_of_tokens(rt: HostRuntime) -> Result<(), Fail> {
    let alloc = rt.alloc();
    // 511 times two tokens and one or two more are 1,023 and 1,024 tokens.
    assert!(rt; is_item_read(alloc, ("", "a+", 511, "a INTO o FROM s")));
    assert!(rt; is_item_read(alloc, ("-", "a+", 511, "a INTO o FROM s")));
    assert!(rt; is_item_refused(alloc, ("", "a+", 512, "a"), ParseErr::Deep(1_031)));
    assert!(rt; is_item_refused(alloc, ("", "a+", 512, ","), ParseErr::Expected(1_031)));
    assert!(rt; is_item_refused(alloc, ("-", "a+", 512, "a"), ParseErr::Deep(1_031)));
    // A list of items has no limit, and the arguments of a call are in its expression.
    assert!(rt; is_item_read(alloc, ("", "a,", 600, "a INTO o FROM s")));
    assert!(rt; is_item_refused(alloc, ("f(", "a,", 511, "a"), ParseErr::Deep(1_031)));
    Ok(())
}

#[test]
fn a_text_is_refused_before_its_grammar(rt: HostRuntime) -> Result<(), Fail> {
    let alloc = rt.alloc();
    assert!(rt; is_refused(alloc, b"a \xff", ParseErr::Utf8(2)));
    assert!(rt; is_refused(alloc, b"a ?", ParseErr::Token(2)));
    assert!(rt; is_item_refused(alloc, ("", " ", 65_529, ""), ParseErr::Expected(65_536)));
    assert!(rt; is_item_refused(alloc, ("", " ", 65_530, ""), ParseErr::TooLong));
    Ok(())
}
