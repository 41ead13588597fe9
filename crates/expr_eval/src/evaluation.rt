//! `eval` and `holds`, part by part down the expression.

ghost use Rattle.std.specs.Prelude.{◌≡◌, IfOk, map};
ghost use Rattle.expr_eval.specs.Values as spec;

use crate::operations::{apply, is_null};
use crate::patterns::like;
use crate::truths::{and3, compare, not3, one_of, or3};
use event_value::{Copies, Memory, Seq, Value};
use query_plan::{Branch, Cond, Expr};
use std::alloc::Global;
use tick_time::Moment;
use value_text::cast;

/// The value of a column; Null past the values.
///
/// # Errors
/// `Memory` where there was none for the copy.
#[tactic(auto, unfolding(crate::specs::Values::column))]
pub fn column(values: &[Value], place: u16) -> Result<Value, Memory>
    ensures { IfOk result (λ found. found ≡ spec.column values.now place) }
{
    match values.get(place as usize) {
        None => Ok(Value::Null),
        Some(value) => value.copy(),
    }
}

/// The value of an expression over the values of a row and its time. An operation on a value that
/// it doesn't take, on a text that isn't UTF-8, with another number of operands, or on a column past
/// the values gives Null.
///
/// # Errors
/// `Memory` where there was none.
#[cycle(eval)]
pub fn eval(alloc: Global, expr: &Expr, values: &[Value], time: Moment) -> Result<Value, Memory>
    ensures { IfOk result (λ found. found ≡ spec.value_of values.now time expr.now) }
{
    match expr {
        Expr::Lit(value) => value.copy(),
        Expr::Col(place) => column(values, *place),
        Expr::Stamp => Ok(Value::Moment(time)),
        Expr::Cast(inner, kind) => cast(alloc, &eval(alloc, inner.get(), values, time)?, *kind),
        Expr::Apply(op, operands) => {
            let found = eval_all(alloc, operands.as_slice(), values, time)?;
            apply(alloc, *op, found.items())
        }
        Expr::Choose(branches, otherwise) => {
            match first_true(alloc, branches.as_slice(), values, time)? {
                Some(value) => Ok(value),
                None => match otherwise {
                    None => Ok(Value::Null),
                    Some(inner) => eval(alloc, inner.get(), values, time),
                },
            }
        }
    }
}

/// The truth of a condition over the values of a row and its time, `None` being unknown.
///
/// # Errors
/// `Memory` where there was none.
#[cycle(eval)]
pub fn holds(
    alloc: Global,
    cond: &Cond,
    values: &[Value],
    time: Moment,
) -> Result<Option<bool>, Memory>
    ensures { IfOk result (λ truth. truth ≡ spec.truth_of values.now time cond.now) }
{
    match cond {
        Cond::Compare(rel, left, right) => Ok(compare(
            *rel,
            &eval(alloc, left, values, time)?,
            &eval(alloc, right, values, time)?,
        )),
        Cond::And(left, right) => Ok(and3(
            holds(alloc, left.get(), values, time)?,
            holds(alloc, right.get(), values, time)?,
        )),
        Cond::Or(left, right) => Ok(or3(
            holds(alloc, left.get(), values, time)?,
            holds(alloc, right.get(), values, time)?,
        )),
        Cond::Not(inner) => Ok(not3(holds(alloc, inner.get(), values, time)?)),
        Cond::IsNull(inner) => Ok(Some(is_null(&eval(alloc, inner, values, time)?))),
        Cond::Like(inner, pattern) => {
            let value = eval(alloc, inner, values, time)?;
            like(alloc, &value, pattern.items())
        }
        Cond::OneOf(inner, others) => {
            let value = eval(alloc, inner, values, time)?;
            let others = eval_all(alloc, others.as_slice(), values, time)?;
            Ok(one_of(&value, others.items()))
        }
    }
}

#[cycle(eval)]
fn eval_all(
    alloc: Global,
    exprs: &[Expr],
    values: &[Value],
    time: Moment,
) -> Result<Seq<Value>, Memory>
    ensures { IfOk result (λ found. found ≡ map (spec.value_of values.now time) exprs.now) }
{
    let mut found = Seq::empty(alloc);
    for expr in exprs {
        found.push(eval(alloc, expr, values, time)?)?;
    }
    Ok(found)
}

// The value beside the first condition that is true.
#[cycle(eval)]
#[tactic(auto, unfolding(crate::specs::Values::first_true))]
fn first_true(
    alloc: Global,
    branches: &[Branch],
    values: &[Value],
    time: Moment,
) -> Result<Option<Value>, Memory>
    ensures { IfOk result (λ found.
        found ≡ spec.first_true (map (spec.branch_of values.now time) branches.now)) }
{
    for branch in branches {
        if holds(alloc, &branch.cond, values, time)? == Some(true) {
            return Ok(Some(eval(alloc, &branch.value, values, time)?));
        }
    }
    Ok(None)
}
