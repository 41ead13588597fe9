//! Columns, the time of a row, casts, choices, and texts above the limit.

use super::Spelt::{self, Big, Moment, Null, Text};
use super::{has_value, lit, value};
use event_value::{Kind, Memory, Value};
use expr_eval::eval;
use query_plan::{Branch, Cond, Expr, Op, Rel};
use sqlite_items::{Boxed, Items};
use std::alloc::Global;
use std::test::Fail;
use tick_time::Moment as TickMoment;

/// Whether an expression over the columns 7 and Null has this value at the moment zero.
fn has_value_over_columns(alloc: Global, expr: &Expr, expected: Spelt) -> Result<bool, Memory> {
    let values = [Value::Big(7), Value::Null];
    let found = eval(alloc, expr, &values, TickMoment::zero())?;
    let expected = value(alloc, expected)?;
    Ok(found == expected)
}

// A column, and its value.
const COLUMNS: [(u16, Spelt); 3] = [(0, Big(7)), (1, Null), (2, Null)];

#[test]
fn a_column_past_the_values_is_null(rt: HostRuntime) -> Result<(), Fail> {
    for (place, expected) in &COLUMNS {
        assert!(rt; has_value_over_columns(rt.alloc(), &Expr::Col(*place), *expected)?);
    }
    assert!(rt; has_value(rt.alloc(), &Expr::Stamp, Moment(0))?);
    Ok(())
}

/// Whether the cast of a value is this.
fn casts_to(alloc: Global, inner: Spelt, kind: Kind, expected: Spelt) -> Result<bool, Memory> {
    let expr = Expr::Cast(Boxed::new(alloc, lit(alloc, inner)?)?, kind);
    has_value(alloc, &expr, expected)
}

// A value, a kind, and the cast.
const CASTS: [(Spelt, Kind, Spelt); 5] = [
    (Big(7), Kind::Text, Text("7")),
    (Null, Kind::Text, Null),
    (Moment(0), Kind::Big, Null),
    (Text("+1"), Kind::Big, Big(1)),
    (Text(" 1"), Kind::Big, Null),
];

#[test]
fn the_value_of_a_part_is_cast(rt: HostRuntime) -> Result<(), Fail> {
    for (inner, kind, expected) in &CASTS {
        assert!(rt; casts_to(rt.alloc(), *inner, *kind, *expected)?);
    }
    Ok(())
}

/// A branch that is taken where a value is above a bound.
fn above(alloc: Global, inner: Spelt, bound: i64, then: i64) -> Result<Branch, Memory> {
    Ok(Branch {
        cond: Cond::Compare(Rel::Gt, lit(alloc, inner)?, Expr::Lit(Value::Big(bound))),
        value: Expr::Lit(Value::Big(then)),
    })
}

/// 1 where a value is above 10, 2 where it is above 3, and otherwise nothing.
fn choice(alloc: Global, inner: Spelt) -> Result<Items<Branch>, Memory> {
    let mut branches = Items::new(alloc);
    branches.push(above(alloc, inner, 10, 1)?)?;
    branches.push(above(alloc, inner, 3, 2)?)?;
    Ok(branches)
}

/// A choice with and without a value for the rest.
fn choice_or(alloc: Global, inner: Spelt, otherwise: Option<i64>) -> Result<Expr, Memory> {
    let branches = choice(alloc, inner)?;
    match otherwise {
        None => Ok(Expr::Choose(branches, None)),
        Some(number) => {
            let rest = Boxed::new(alloc, Expr::Lit(Value::Big(number)))?;
            Ok(Expr::Choose(branches, Some(rest)))
        }
    }
}

/// Whether this is chosen.
fn chooses(
    alloc: Global,
    inner: Spelt,
    otherwise: Option<i64>,
    expected: Spelt,
) -> Result<bool, Memory> {
    has_value(alloc, &choice_or(alloc, inner, otherwise)?, expected)
}

// What is compared, what stands for the rest, and what is chosen.
const CHOICES: [(Spelt, Option<i64>, Spelt); 6] = [
    (Big(11), None, Big(1)),
    (Big(4), None, Big(2)),
    (Big(3), None, Null),
    (Null, None, Null),
    (Big(3), Some(4), Big(4)),
    (Big(11), Some(4), Big(1)),
];

#[test]
fn the_first_true_branch_is_chosen(rt: HostRuntime) -> Result<(), Fail> {
    for (inner, otherwise, expected) in &CHOICES {
        assert!(rt; chooses(rt.alloc(), *inner, *otherwise, *expected)?);
    }
    Ok(())
}

/// A text of so many bytes.
fn long_text(alloc: Global, length: usize) -> Result<Expr, Memory> {
    let mut bytes = Vec::new(alloc);
    bytes.resize(length, b'x')?;
    Ok(Expr::Lit(Value::Text(event_value::Text::from_vec(bytes))))
}

/// Whether joining a text of so many bytes and one of a single byte gives a text at all.
fn joins(alloc: Global, length: usize) -> Result<bool, Memory> {
    let mut operands = Items::new(alloc);
    operands.push(long_text(alloc, length)?)?;
    operands.push(long_text(alloc, 1)?)?;
    let found = eval(
        alloc,
        &Expr::Apply(Op::Concat, operands),
        &[],
        TickMoment::zero(),
    )?;
    Ok(found != Value::Null)
}

#[test]
fn a_text_above_the_limit_is_null(rt: HostRuntime) -> Result<(), Fail> {
    assert!(rt; joins(rt.alloc(), 65_535)?);
    assert!(rt; !joins(rt.alloc(), 65_536)?);
    Ok(())
}
