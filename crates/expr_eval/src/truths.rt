//! Three-valued logic and comparisons.

ghost use Rattle.std.specs.Prelude.{◌≡◌};
ghost use Rattle.value_text.specs.Casts.{number_of_bit};
ghost use Rattle.expr_eval.specs.Truths as spec;

use crate::texts::is_utf8;
use event_value::Value;
use query_plan::Rel;
use std::cmp::Ordering;

// How many millionths make one.
const MILLION: i128 = 1_000_000;

/// The opposite.
#[tactic(auto, unfolding(crate::specs::Truths::not3))]
pub fn not3(truth: Option<bool>) -> Option<bool>
    ensures { result ≡ spec.not3 truth }
{
    match truth {
        None => None,
        Some(truth) => Some(!truth),
    }
}

/// Both: false where one of them is false.
#[tactic(auto, unfolding(crate::specs::Truths::and3))]
pub fn and3(left: Option<bool>, right: Option<bool>) -> Option<bool>
    ensures { result ≡ spec.and3 left right }
{
    match (left, right) {
        (Some(false), _) | (_, Some(false)) => Some(false),
        (Some(true), other) => other,
        (None, _) => None,
    }
}

/// One of both: true where one of them is true.
#[tactic(auto, unfolding(crate::specs::Truths::or3))]
pub fn or3(left: Option<bool>, right: Option<bool>) -> Option<bool>
    ensures { result ≡ spec.or3 left right }
{
    not3(and3(not3(left), not3(right)))
}

fn number_of_bit(bit: bool) -> i64
    ensures { result ≡ number_of_bit bit }
{
    if bit { 1 } else { 0 }
}

fn text_standing(left: &[u8], right: &[u8]) -> Option<Ordering>
    ensures { result ≡ spec.text_standing left.now right.now }
{
    if is_utf8(left) && is_utf8(right) {
        Some(left.cmp(right))
    } else {
        None
    }
}

// How two values of comparable kinds stand.
fn standing(left: &Value, right: &Value) -> Option<Ordering>
    ensures { result ≡ spec.standing left.now right.now }
{
    match (left, right) {
        (Value::Big(a), Value::Big(b)) => Some(a.cmp(b)),
        (Value::Fixed(a), Value::Fixed(b)) => Some(a.cmp(b)),
        (Value::Big(a), Value::Fixed(b)) => Some((*a as i128 * MILLION).cmp(&(*b as i128))),
        (Value::Fixed(a), Value::Big(b)) => Some((*a as i128).cmp(&(*b as i128 * MILLION))),
        (Value::Bit(a), Value::Big(b)) => Some(number_of_bit(*a).cmp(b)),
        (Value::Big(a), Value::Bit(b)) => Some(a.cmp(&number_of_bit(*b))),
        (Value::Bit(a), Value::Bit(b)) => Some(number_of_bit(*a).cmp(&number_of_bit(*b))),
        (Value::Text(a), Value::Text(b)) => text_standing(a.items(), b.items()),
        (Value::Moment(a), Value::Moment(b)) => Some(a.cmp(b)),
        _ => None,
    }
}

fn is_in_relation(rel: Rel, order: Ordering) -> bool
    ensures { result ≡ spec.is_in_relation rel order }
{
    match rel {
        Rel::Eq => order.is_eq(),
        Rel::Ne => order.is_ne(),
        Rel::Lt => order.is_lt(),
        Rel::Le => order.is_le(),
        Rel::Gt => order.is_gt(),
        Rel::Ge => order.is_ge(),
    }
}

/// Two values in a relation; unknown where they don't compare.
#[tactic(auto, unfolding(crate::specs::Truths::compared))]
pub fn compare(rel: Rel, left: &Value, right: &Value) -> Option<bool>
    ensures { result ≡ spec.compared rel left.now right.now }
{
    match standing(left, right) {
        None => None,
        Some(order) => Some(is_in_relation(rel, order)),
    }
}

/// Whether a value equals one of these.
#[tactic(auto, unfolding(crate::specs::Truths::one_of))]
pub fn one_of(value: &Value, others: &[Value]) -> Option<bool>
    ensures { result ≡ spec.one_of value.now others.now }
{
    let mut truth = Some(false);
    for other in others {
        truth = or3(truth, compare(Rel::Eq, value, other));
    }
    truth
}
