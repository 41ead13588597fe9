//! Conditions.

use super::Spelt::{self, Big, Bit, Damaged, Fixed, Moment, Null, Text};
use super::{has_truth, lit, literals};
use event_value::Memory;
use query_plan::{Cond, Rel};
use sqlite_items::Boxed;
use std::alloc::Global;
use std::test::Fail;

/// A comparison of two values.
fn compared(alloc: Global, rel: Rel, left: Spelt, right: Spelt) -> Result<Cond, Memory> {
    Ok(Cond::Compare(rel, lit(alloc, left)?, lit(alloc, right)?))
}

/// Whether two values are in a relation, as expected.
fn compares(
    alloc: Global,
    rel: Rel,
    left: Spelt,
    right: Spelt,
    expected: Option<bool>,
) -> Result<bool, Memory> {
    has_truth(alloc, &compared(alloc, rel, left, right)?, expected)
}

// Two values in a relation, and whether they are.
const COMPARISONS: [(Rel, Spelt, Spelt, Option<bool>); 24] = [
    (Rel::Eq, Null, Null, None),
    (Rel::Ne, Null, Big(1), None),
    (Rel::Eq, Big(1), Fixed(1_000_000), Some(true)),
    (Rel::Lt, Big(1), Fixed(1_000_001), Some(true)),
    (Rel::Gt, Big(i64::MAX), Fixed(i64::MAX), Some(true)),
    (
        Rel::Lt,
        Fixed(i64::MIN),
        Big(-9_223_372_036_854),
        Some(true),
    ),
    (Rel::Eq, Bit(true), Big(1), Some(true)),
    (Rel::Eq, Big(0), Bit(false), Some(true)),
    (Rel::Lt, Bit(true), Big(2), Some(true)),
    (Rel::Lt, Bit(false), Bit(true), Some(true)),
    (Rel::Eq, Bit(true), Fixed(1_000_000), None),
    (Rel::Le, Big(2), Big(2), Some(true)),
    (Rel::Lt, Big(2), Big(2), Some(false)),
    (Rel::Gt, Big(2), Big(2), Some(false)),
    (Rel::Ge, Big(1), Big(2), Some(false)),
    (Rel::Ne, Fixed(1), Fixed(2), Some(true)),
    (Rel::Lt, Text("Z"), Text("a"), Some(true)),
    (Rel::Eq, Text("a"), Text("A"), Some(false)),
    (Rel::Lt, Text("a"), Text("ab"), Some(true)),
    (Rel::Eq, Text("1"), Big(1), None),
    (Rel::Eq, Damaged, Text("a"), None),
    (Rel::Lt, Moment(0), Moment(1), Some(true)),
    (Rel::Lt, Moment(0), Big(1), None),
    (Rel::Ne, Moment(0), Text("a"), None),
];

#[test]
fn values_compare_within_and_across_kinds(rt: HostRuntime) -> Result<(), Fail> {
    for (rel, left, right, expected) in &COMPARISONS {
        assert!(rt; compares(rt.alloc(), *rel, *left, *right, *expected)?);
    }
    Ok(())
}

/// A condition of this truth.
fn known(alloc: Global, truth: Option<bool>) -> Result<Boxed<Cond>, Memory> {
    let operand = match truth {
        None => Null,
        Some(truth) => Bit(truth),
    };
    Ok(Boxed::new(alloc, compared(alloc, Rel::Eq, operand, Big(1))?)?)
}

/// Whether both of two truths are this.
fn both_are(
    alloc: Global,
    left: Option<bool>,
    right: Option<bool>,
    expected: Option<bool>,
) -> Result<bool, Memory> {
    let cond = Cond::And(known(alloc, left)?, known(alloc, right)?);
    has_truth(alloc, &cond, expected)
}

/// Whether one of two truths is this.
fn either_is(
    alloc: Global,
    left: Option<bool>,
    right: Option<bool>,
    expected: Option<bool>,
) -> Result<bool, Memory> {
    let cond = Cond::Or(known(alloc, left)?, known(alloc, right)?);
    has_truth(alloc, &cond, expected)
}

// Two truths, that of both, and that of one of them.
const TRUTHS: [(Option<bool>, Option<bool>, Option<bool>, Option<bool>); 9] = [
    (Some(true), Some(true), Some(true), Some(true)),
    (Some(true), Some(false), Some(false), Some(true)),
    (Some(true), None, None, Some(true)),
    (Some(false), Some(true), Some(false), Some(true)),
    (Some(false), Some(false), Some(false), Some(false)),
    (Some(false), None, Some(false), None),
    (None, Some(true), None, Some(true)),
    (None, Some(false), Some(false), None),
    (None, None, None, None),
];

#[test]
fn unknown_is_a_third_truth(rt: HostRuntime) -> Result<(), Fail> {
    for (left, right, and, or) in &TRUTHS {
        assert!(rt; both_are(rt.alloc(), *left, *right, *and)?);
        assert!(rt; either_is(rt.alloc(), *left, *right, *or)?);
    }
    Ok(())
}

/// Whether the opposite of a truth is this.
fn opposite_is(alloc: Global, truth: Option<bool>, expected: Option<bool>) -> Result<bool, Memory> {
    has_truth(alloc, &Cond::Not(known(alloc, truth)?), expected)
}

// A truth and its opposite.
const OPPOSITES: [(Option<bool>, Option<bool>); 3] = [
    (Some(true), Some(false)),
    (Some(false), Some(true)),
    (None, None),
];

#[test]
fn the_opposite_of_unknown_is_unknown(rt: HostRuntime) -> Result<(), Fail> {
    for (truth, opposite) in &OPPOSITES {
        assert!(rt; opposite_is(rt.alloc(), *truth, *opposite)?);
    }
    Ok(())
}

/// Whether a value is from a low one up to a high one, as a query's BETWEEN becomes.
fn is_between(
    alloc: Global,
    inner: Spelt,
    low: Spelt,
    high: Spelt,
    expected: Option<bool>,
) -> Result<bool, Memory> {
    let above = Boxed::new(alloc, compared(alloc, Rel::Ge, inner, low)?)?;
    let below = Boxed::new(alloc, compared(alloc, Rel::Le, inner, high)?)?;
    has_truth(alloc, &Cond::And(above, below), expected)
}

// A value, a low and a high one, and whether it is between them.
const STRETCHES: [(Spelt, Spelt, Spelt, Option<bool>); 7] = [
    (Big(2), Big(1), Big(3), Some(true)),
    (Big(1), Big(1), Big(3), Some(true)),
    (Big(3), Big(1), Big(3), Some(true)),
    (Big(4), Big(1), Big(3), Some(false)),
    (Big(4), Null, Big(3), Some(false)),
    (Big(2), Null, Big(3), None),
    (Big(2), Big(3), Big(1), Some(false)),
];

#[test]
fn between_is_the_and_of_two_comparisons(rt: HostRuntime) -> Result<(), Fail> {
    for (inner, low, high, expected) in &STRETCHES {
        assert!(rt; is_between(rt.alloc(), *inner, *low, *high, *expected)?);
    }
    Ok(())
}

/// Whether a value is among others, as expected.
fn is_among(
    alloc: Global,
    inner: Spelt,
    others: &[Spelt],
    expected: Option<bool>,
) -> Result<bool, Memory> {
    let cond = Cond::OneOf(lit(alloc, inner)?, literals(alloc, others)?);
    has_truth(alloc, &cond, expected)
}

// A value, two others, and whether it is one of them.
const LISTS: [(Spelt, Spelt, Spelt, Option<bool>); 6] = [
    (Big(1), Big(1), Null, Some(true)),
    (Big(2), Big(1), Null, None),
    (Big(2), Big(1), Big(3), Some(false)),
    (Big(3), Big(1), Fixed(3_000_000), Some(true)),
    (Null, Big(1), Big(3), None),
    (Text("1"), Big(1), Text("1"), Some(true)),
];

#[test]
fn a_value_is_among_others(rt: HostRuntime) -> Result<(), Fail> {
    for (inner, first, second, expected) in &LISTS {
        assert!(rt; is_among(rt.alloc(), *inner, &[*first, *second], *expected)?);
    }
    Ok(())
}

/// Whether a value is no value, as expected.
fn is_null(alloc: Global, inner: Spelt, expected: Option<bool>) -> Result<bool, Memory> {
    has_truth(alloc, &Cond::IsNull(lit(alloc, inner)?), expected)
}

// A value, and whether it is no value.
const NULLS: [(Spelt, Option<bool>); 3] = [
    (Null, Some(true)),
    (Big(0), Some(false)),
    (Text(""), Some(false)),
];

#[test]
fn null_is_no_value(rt: HostRuntime) -> Result<(), Fail> {
    for (inner, expected) in &NULLS {
        assert!(rt; is_null(rt.alloc(), *inner, *expected)?);
    }
    Ok(())
}
