//! Operations on texts, and the first value of several.

use super::Spelt::{self, Big, Damaged, Null, Text};
use super::{One, Two, first_wrong_of_one, first_wrong_of_two, gives};
use query_plan::Op;
use std::test::Fail;

const OF_TEXTS: [One; 13] = [
    (Op::Len, Text("abc"), Big(3)),
    (Op::Len, Text("h\u{e9}!"), Big(3)),
    (Op::Len, Text(""), Big(0)),
    (Op::Len, Big(1), Null),
    (Op::Len, Damaged, Null),
    (Op::Lower, Text("AbZ\u{c9}["), Text("abz\u{c9}[")),
    (Op::Upper, Text("aBz\u{e9}{"), Text("ABZ\u{e9}{")),
    (Op::Lower, Null, Null),
    (Op::Upper, Damaged, Null),
    (Op::Concat, Null, Text("")),
    (Op::Concat, Big(1), Null),
    (Op::Coalesce, Big(1), Big(1)),
    (Op::Coalesce, Null, Null),
];

#[test]
fn texts_alone(rt: HostRuntime) -> Result<(), Fail> {
    assert!(rt; first_wrong_of_one(rt.alloc(), &OF_TEXTS)? == None);
    Ok(())
}

const JOINED: [Two; 9] = [
    (Op::Concat, Text("a"), Text("b"), Text("ab")),
    (Op::Concat, Null, Text("b"), Text("b")),
    (Op::Concat, Null, Null, Text("")),
    (Op::Concat, Text("a"), Big(1), Null),
    (Op::Concat, Text("a"), Damaged, Null),
    (Op::Coalesce, Null, Big(2), Big(2)),
    (Op::Coalesce, Big(1), Big(2), Big(1)),
    (Op::Coalesce, Null, Null, Null),
    (Op::Coalesce, Null, Text(""), Text("")),
];

#[test]
fn texts_are_joined_and_first_values_found(rt: HostRuntime) -> Result<(), Fail> {
    assert!(rt; first_wrong_of_two(rt.alloc(), &JOINED)? == None);
    assert!(rt; gives(rt.alloc(), Op::Coalesce, &[Null, Null, Big(3)], Big(3))?);
    assert!(rt; gives(rt.alloc(), Op::Concat, &[], Null)?);
    Ok(())
}

// A text, a place, a number of characters, and the part.
const PARTS: [(&str, i64, i64, Spelt); 12] = [
    ("abc", 1, 2, Text("ab")),
    ("abc", 2, 5, Text("bc")),
    ("abc", 0, 2, Text("a")),
    ("abc", -5, 2, Text("")),
    ("abc", -1, 4, Text("ab")),
    ("abc", 4, 1, Text("")),
    ("abc", 1, 0, Text("")),
    ("h\u{e9}llo", 2, 2, Text("\u{e9}l")),
    ("abc", i64::MAX, i64::MAX, Text("")),
    ("abc", i64::MIN, i64::MAX, Text("")),
    ("abc", 1, -1, Null),
    ("", 1, 1, Text("")),
];

#[test]
fn parts_of_texts_are_by_characters(rt: HostRuntime) -> Result<(), Fail> {
    for (whole, from, count, expected) in &PARTS {
        let operands = [Text(*whole), Big(*from), Big(*count)];
        assert!(rt;
            gives(rt.alloc(), Op::Substring, &operands, *expected)?,
            "{whole}"
        );
    }
    Ok(())
}
