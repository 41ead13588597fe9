//! The value of every form of expression and the truth of every form of condition, by tables
//! worked out by hand. A row for an operation goes to operations.rt, or to texts.rt if on texts;
//! one for a condition to conditions.rt, or to patterns.rt if of a text's pattern; and one for a
//! column, a cast or a choice to choices.rt.

mod choices;
mod conditions;
mod operations;
mod patterns;
mod texts;

use event_value::{Memory, Text, Value};
use expr_eval::{eval, holds};
use query_plan::{Cond, Expr, Op};
use sqlite_items::Items;
use std::alloc::Global;
use tick_time::Moment;

/// A value as a table spells it.
#[derive(Clone, Copy)]
pub enum Spelt {
    /// No value.
    Null,
    /// A bit.
    Bit(bool),
    /// A whole number.
    Big(i64),
    /// Millionths.
    Fixed(i64),
    /// A text.
    Text(&'static str),
    /// A text of one byte that isn't UTF-8.
    Damaged,
    /// The moment of so many ticks.
    Moment(i64),
}

/// The value that is spelt.
pub fn value(alloc: Global, spelt: Spelt) -> Result<Value, Memory> {
    match spelt {
        Spelt::Null => Ok(Value::Null),
        Spelt::Bit(bit) => Ok(Value::Bit(bit)),
        Spelt::Big(number) => Ok(Value::Big(number)),
        Spelt::Fixed(millionths) => Ok(Value::Fixed(millionths)),
        Spelt::Text(text) => Ok(Value::Text(Text::of(alloc, text.as_bytes())?)),
        Spelt::Damaged => Ok(Value::Text(Text::of(alloc, b"\xff")?)),
        Spelt::Moment(ticks) => match Moment::of_ticks(ticks) {
            None => Ok(Value::Null),
            Some(moment) => Ok(Value::Moment(moment)),
        },
    }
}

/// The expression of the value that is spelt.
pub fn lit(alloc: Global, spelt: Spelt) -> Result<Expr, Memory> {
    Ok(Expr::Lit(value(alloc, spelt)?))
}

/// The expressions of the values that are spelt.
pub fn literals(alloc: Global, spelt: &[Spelt]) -> Result<Items<Expr>, Memory> {
    let mut exprs = Items::new(alloc);
    for one in spelt {
        exprs.push(lit(alloc, *one)?)?;
    }
    Ok(exprs)
}

/// Whether an expression over no columns has this value at the moment zero.
pub fn has_value(alloc: Global, expr: &Expr, expected: Spelt) -> Result<bool, Memory> {
    let found = eval(alloc, expr, &[], Moment::zero())?;
    let expected = value(alloc, expected)?;
    Ok(found == expected)
}

/// Whether an operation on these operands gives this value.
pub fn gives(alloc: Global, op: Op, operands: &[Spelt], expected: Spelt) -> Result<bool, Memory> {
    let expr = Expr::Apply(op, literals(alloc, operands)?);
    has_value(alloc, &expr, expected)
}

/// An operation, its operand, and the value.
pub type One = (Op, Spelt, Spelt);

/// An operation, its two operands, and the value.
pub type Two = (Op, Spelt, Spelt, Spelt);

/// The first row of a table that does not come out, counted from 0.
pub fn first_wrong_of_one(alloc: Global, rows: &[One]) -> Result<Option<usize>, Memory> {
    for (place, (op, operand, expected)) in rows.iter().enumerate() {
        if !gives(alloc, *op, &[*operand], *expected)? {
            return Ok(Some(place));
        }
    }
    Ok(None)
}

/// The first row of a table of two operands that does not come out.
pub fn first_wrong_of_two(alloc: Global, rows: &[Two]) -> Result<Option<usize>, Memory> {
    for (place, (op, left, right, expected)) in rows.iter().enumerate() {
        if !gives(alloc, *op, &[*left, *right], *expected)? {
            return Ok(Some(place));
        }
    }
    Ok(None)
}

/// Whether a condition over no columns has this truth at the moment zero.
pub fn has_truth(alloc: Global, cond: &Cond, expected: Option<bool>) -> Result<bool, Memory> {
    Ok(holds(alloc, cond, &[], Moment::zero())? == expected)
}
