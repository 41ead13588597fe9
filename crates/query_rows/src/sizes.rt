//! The nodes that the plan of one expression may have: 65,536.

use crate::answers::{TWO, inputs_of, is_answered};
use event_value::{Memory, Text};
use input_types::Inputs;
use std::alloc::Global;
use std::test::Fail;

/// A CASE over a BETWEEN over such a CASE, so many levels deep. A level has twice the nodes of the
/// one below and eight more; the column at the bottom has one.
fn push_nested(text: &mut Text, levels: u32) -> Result<(), Memory> {
    for _ in 0..levels {
        text.extend(b"CASE WHEN ")?;
    }
    text.extend(b"a")?;
    for _ in 0..levels {
        text.extend(b" BETWEEN 1 AND 2 THEN 1 ELSE 2 END")?;
    }
    Ok(())
}

/// A query whose item is the sum of such parts, behind a first one; each further part adds a node.
fn sum_of(alloc: Global, first: &str, levels: &[u32]) -> Result<Text, Memory> {
    let mut text = Text::of(alloc, b"SELECT ")?;
    text.extend(first.as_bytes())?;
    for level in levels {
        text.extend(b" + ")?;
        push_nested(&mut text, *level)?;
    }
    text.extend(b" AS x INTO out FROM src")?;
    Ok(text)
}

/// Whether such a query is answered so.
fn is_sum_answered(
    alloc: Global,
    inputs: &Inputs,
    (first, levels): (&str, &[u32]),
    wanted: &str,
) -> bool {
    match sum_of(alloc, first, levels) {
        Ok(text) => is_answered(alloc, inputs, text.items(), (wanted, 0)),
        Err(_) => false,
    }
}

/// Levels of parts that have 36,856, 18,424, 9,208, 568, 280, 136, 28, 10, 10 and three times 1 node,
/// each with the node that adds it: 65,535.
const PARTS: [u32; 12] = [12, 11, 10, 6, 5, 4, 2, 1, 1, 0, 0, 0];

/// The first part and the others, worked out by hand: 36,858 nodes, 65,536 and 65,537; and a text of
/// some 600 bytes with 147,450.
const SIZES: [(&str, &[u32], &str); 4] = [
    ("a", &[12], "Source Project"),
    ("a", &PARTS, "Source Project"),
    ("-a", &PARTS, "Memory"),
    ("a", &[14], "Memory"),
];

#[test]
fn an_expression_has_65536_nodes(rt: HostRuntime) -> Result<(), Fail> {
    let inputs = inputs_of(&rt, rt.alloc(), TWO)?;
    for (first, levels, wanted) in &SIZES {
        let answered = is_sum_answered(rt.alloc(), &inputs, (first, levels), wanted);
        assert!(rt; answered, "{first}");
    }
    Ok(())
}
