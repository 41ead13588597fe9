//! The tokens of texts and their refusals.

use event_value::Text;
use query_tokens::TokenKind::{self, Bracketed, Number, Sign, Text as Quoted, Word};
use query_tokens::{ParseErr, tokens};
use std::alloc::Global;
use std::process::Abort;
use std::test::Fail;

/// The kinds of a text's tokens with their places, or the refusal.
fn check_tokens(
    rt: &impl Abort,
    alloc: Global,
    text: &str,
    wanted: Result<&[(TokenKind, u32, u32)], ParseErr>,
) -> Result<(), Fail> {
    match (tokens(alloc, text.as_bytes()), wanted) {
        (Ok(found), Ok(wanted)) => {
            assert_eq!(rt; found.items().len(), wanted.len(), "{text}");
            for (token, (kind, start, end)) in found.items().iter().zip(wanted) {
                assert!(rt; token.kind == *kind, "{text}");
                assert_eq!(rt; token.start, *start, "{text}");
                assert_eq!(rt; token.end, *end, "{text}");
            }
        }
        (Err(error), Err(wanted)) => assert!(rt; error == wanted, "{text}"),
        _ => assert!(rt; false, "{text}"),
    }
    Ok(())
}

#[test]
fn tokens_are_as_long_as_their_form_allows(rt: HostRuntime) -> Result<(), Fail> {
    for &(text, wanted) in &WHOLE {
        check_tokens(&rt, rt.alloc(), text, Ok(wanted))?;
    }
    for &(text, place) in &REFUSED {
        check_tokens(&rt, rt.alloc(), text, Err(ParseErr::Token(place)))?;
    }
    Ok(())
}

/// Texts, and their tokens with their places.
const WHOLE: [(&str, &[(TokenKind, u32, u32)]); 12] = [
    ("", &[]),
    (" \t\r\n", &[]),
    ("_a1 B", &[(Word, 0, 3), (Word, 4, 5)]),
    ("[a b]x", &[(Bracketed, 0, 5), (Word, 5, 6)]),
    ("1.5.3", &[(Number, 0, 3), (Sign, 3, 4), (Number, 4, 5)]),
    ("1.a", &[(Number, 0, 1), (Sign, 1, 2), (Word, 2, 3)]),
    ("'it''s' ''", &[(Quoted, 0, 7), (Quoted, 8, 10)]),
    (
        "<=<>!=>=",
        &[(Sign, 0, 2), (Sign, 2, 4), (Sign, 4, 6), (Sign, 6, 8)],
    ),
    ("<->", &[(Sign, 0, 1), (Sign, 1, 2), (Sign, 2, 3)]),
    ("a--b\nc", &[(Word, 0, 1), (Word, 5, 6)]),
    ("a/*b*/c/**/", &[(Word, 0, 1), (Word, 6, 7)]),
    ("9223372036854.775807", &[(Number, 0, 20)]),
];

/// Texts, and the place at which they are refused.
const REFUSED: [(&str, u32); 12] = [
    ("?", 0),
    ("a !", 2),
    ("[]", 0),
    ("a [b", 2),
    ("[a\tb]", 0),
    ("[a\u{85}]", 0),
    ("'a''", 0),
    ("a /*/", 2),
    ("1.2345678", 0),
    ("9223372036854775808", 0),
    ("9223372036854.775808", 0),
    ("a = 00009223372036854775808", 4),
];

#[test]
fn limits_hold_up_to_their_edge(rt: HostRuntime) -> Result<(), Fail> {
    let mut name = Text::empty(rt.alloc());
    for _ in 0..64 {
        name.push(b'a')?;
    }
    assert!(rt; tokens(rt.alloc(), name.items()).is_ok());
    name.push(b'a')?;
    assert!(rt; matches!(tokens(rt.alloc(), name.items()), Err(ParseErr::Token(0))));
    let mut blanks = Text::empty(rt.alloc());
    for _ in 0..65_536 {
        blanks.push(b' ')?;
    }
    assert!(rt; tokens(rt.alloc(), blanks.items()).is_ok());
    blanks.push(b' ')?;
    assert!(rt; matches!(tokens(rt.alloc(), blanks.items()), Err(ParseErr::TooLong)));
    Ok(())
}
