//! Arithmetic on whole and decimal numbers.

ghost use Rattle.std.specs.Prelude.{◌≡◌, ◌*ℤ◌, pos};
ghost use Rattle.value_text.specs.Printed.{million};
ghost use Rattle.expr_eval.specs.Numbers as spec;
ghost use Rattle.value_text.specs.Numbers as values;

use event_value::Value;
use query_plan::Op;
use value_text::{fixed_value, whole_value};

// How many millionths make one.
const MILLION: i64 = 1_000_000;

fn product(a: i64, b: i64) -> i128
    ensures { result ≡ a *ℤ b }
{
    a as i128 * b as i128
}

fn in_millionths(a: i64) -> i128
    ensures exact { result ≡ a *ℤ pos million }
    ensures wide { spec.IsWide result }
{
    a as i128 * MILLION as i128
}

fn ratio(a: i128, b: i64) -> Option<i128>
    requires { spec.IsWide a }
    ensures { result ≡ spec.ratio a b }
{
    if b == 0 {
        return None;
    }
    Some(a / b as i128)
}

fn remainder(a: i64, b: i64) -> Option<i128>
    ensures { result ≡ spec.remainder a b }
{
    if b == 0 {
        return None;
    }
    Some(a as i128 % b as i128)
}

fn known_whole(exact: Option<i128>) -> Value
    ensures { result ≡ spec.known values.whole_value exact }
{
    match exact {
        None => Value::Null,
        Some(exact) => whole_value(exact),
    }
}

fn known_fixed(exact: Option<i128>) -> Value
    ensures { result ≡ spec.known values.fixed_value exact }
{
    match exact {
        None => Value::Null,
        Some(exact) => fixed_value(exact),
    }
}

fn on_wholes(op: Op, a: i64, b: i64) -> Value
    ensures { result ≡ spec.on_wholes op a b }
{
    match op {
        Op::Add => whole_value(a as i128 + b as i128),
        Op::Sub => whole_value(a as i128 - b as i128),
        Op::Mul => whole_value(product(a, b)),
        Op::Div => known_whole(ratio(a as i128, b)),
        Op::Rem => known_whole(remainder(a, b)),
        _ => Value::Null,
    }
}

#[tactic(auto, using(crate::proofs::NumberLemmas::product_is_wide))]
fn on_millionths(op: Op, a: i64, b: i64) -> Value
    ensures { result ≡ spec.on_millionths op a b }
{
    match op {
        Op::Add => fixed_value(a as i128 + b as i128),
        Op::Sub => fixed_value(a as i128 - b as i128),
        Op::Mul => known_fixed(ratio(product(a, b), MILLION)),
        Op::Div => known_fixed(ratio(in_millionths(a), b)),
        _ => Value::Null,
    }
}

fn to_fixed(value: &Value) -> Value
    ensures { result ≡ spec.to_fixed value.now }
{
    match value {
        Value::Big(number) => fixed_value(in_millionths(*number)),
        Value::Fixed(millionths) => Value::Fixed(*millionths),
        _ => Value::Null,
    }
}

fn on_fixed_values(op: Op, left: &Value, right: &Value) -> Value
    ensures { result ≡ spec.on_fixed_values op left.now right.now }
{
    match (left, right) {
        (Value::Fixed(a), Value::Fixed(b)) => on_millionths(op, *a, *b),
        _ => Value::Null,
    }
}

/// An operation on two numbers: where one of them is decimal, the other becomes decimal.
#[tactic(auto, unfolding(crate::specs::Numbers::arithmetic))]
pub fn arithmetic(op: Op, left: &Value, right: &Value) -> Value
    ensures { result ≡ spec.arithmetic op left.now right.now }
{
    match (left, right) {
        (Value::Big(a), Value::Big(b)) => on_wholes(op, *a, *b),
        _ => on_fixed_values(op, &to_fixed(left), &to_fixed(right)),
    }
}

/// A number with the other sign.
#[tactic(auto, unfolding(crate::specs::Numbers::negated))]
pub fn negated(value: &Value) -> Value
    ensures { result ≡ spec.negated value.now }
{
    match value {
        Value::Big(number) => whole_value(-(*number as i128)),
        Value::Fixed(millionths) => fixed_value(-(*millionths as i128)),
        _ => Value::Null,
    }
}

/// A number without its sign.
#[tactic(auto, unfolding(crate::specs::Numbers::absolute))]
pub fn absolute(value: &Value) -> Value
    ensures { result ≡ spec.absolute value.now }
{
    match value {
        Value::Big(number) => whole_value(number.unsigned_abs() as i128),
        Value::Fixed(millionths) => fixed_value(millionths.unsigned_abs() as i128),
        _ => Value::Null,
    }
}
