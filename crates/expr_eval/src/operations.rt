//! Operations on the values of their operands.

ghost use Rattle.std.specs.Prelude.{◌≡◌, IfOk};
ghost use Rattle.expr_eval.specs.Operations as spec;

use crate::dates::{boundaries, field, later};
use crate::numbers::{absolute, arithmetic, negated};
use crate::texts::{character_count, joined, lower, substring, upper};
use event_value::{Copies, Memory, Value};
use query_plan::Op;
use std::alloc::Global;

/// Whether a value is Null.
pub fn is_null(value: &Value) -> bool
    ensures { result ≡ spec.is_null value.now }
{
    matches!(value, Value::Null)
}

fn first_known(values: &[Value]) -> Result<Value, Memory>
    ensures { IfOk result (λ found. found ≡ spec.first_known values.now) }
{
    for value in values {
        if !is_null(value) {
            return value.copy();
        }
    }
    Ok(Value::Null)
}

fn of_one(alloc: Global, op: Op, value: &Value) -> Result<Value, Memory>
    ensures { IfOk result (λ found. found ≡ spec.of_one op value.now) }
{
    match op {
        Op::Neg => Ok(negated(value)),
        Op::Abs => Ok(absolute(value)),
        Op::DatePart(part) => Ok(field(part, value)),
        Op::Len => Ok(character_count(value)),
        Op::Lower => lower(alloc, value),
        Op::Upper => upper(alloc, value),
        _ => Ok(Value::Null),
    }
}

fn of_two(op: Op, left: &Value, right: &Value) -> Value
    ensures { result ≡ spec.of_two op left.now right.now }
{
    match op {
        Op::Add | Op::Sub | Op::Mul | Op::Div | Op::Rem => arithmetic(op, left, right),
        Op::DateAdd(part) => later(part, left, right),
        Op::DateDiff(part) => boundaries(part, left, right),
        _ => Value::Null,
    }
}

fn of_three(
    alloc: Global,
    op: Op,
    text: &Value,
    from: &Value,
    count: &Value,
) -> Result<Value, Memory>
    ensures { IfOk result (λ found. found ≡ spec.of_three op text.now from.now count.now) }
{
    match op {
        Op::Substring => substring(alloc, text, from, count),
        _ => Ok(Value::Null),
    }
}

fn of_operands(alloc: Global, op: Op, values: &[Value]) -> Result<Value, Memory>
    ensures { IfOk result (λ found. found ≡ spec.of_operands op values.now) }
{
    match values {
        [value] => of_one(alloc, op, value),
        [left, right] => Ok(of_two(op, left, right)),
        [text, from, count] => of_three(alloc, op, text, from, count),
        _ => Ok(Value::Null),
    }
}

/// The value of an operation on its operands.
#[tactic(auto, unfolding(crate::specs::Operations::applied))]
pub fn apply(alloc: Global, op: Op, values: &[Value]) -> Result<Value, Memory>
    ensures { IfOk result (λ found. found ≡ spec.applied op values.now) }
{
    match op {
        Op::Coalesce => first_known(values),
        Op::Concat => joined(alloc, values),
        _ => of_operands(alloc, op, values),
    }
}
