//! Operations on moments.

ghost use Rattle.std.specs.Prelude.{◌≡◌};
ghost use Rattle.expr_eval.specs.Dates as spec;

use event_value::Value;
use tick_time::{Part, date_add, date_diff, date_part};

/// A moment so many parts later; Null where there is none.
#[tactic(auto, unfolding(crate::specs::Dates::later))]
pub fn later(part: Part, number: &Value, moment: &Value) -> Value
    ensures { result ≡ spec.later part number.now moment.now }
{
    match (number, moment) {
        (Value::Big(number), Value::Moment(moment)) => match date_add(part, *number, *moment) {
            None => Value::Null,
            Some(sum) => Value::Moment(sum),
        },
        _ => Value::Null,
    }
}

/// The boundaries of a part from a moment to another.
#[tactic(auto, unfolding(crate::specs::Dates::boundaries))]
pub fn boundaries(part: Part, from: &Value, to: &Value) -> Value
    ensures { result ≡ spec.boundaries part from.now to.now }
{
    match (from, to) {
        (Value::Moment(from), Value::Moment(to)) => Value::Big(date_diff(part, *from, *to)),
        _ => Value::Null,
    }
}

/// A part of a moment.
#[tactic(auto, unfolding(crate::specs::Dates::field))]
pub fn field(part: Part, moment: &Value) -> Value
    ensures { result ≡ spec.field part moment.now }
{
    match moment {
        Value::Moment(moment) => Value::Big(date_part(part, *moment)),
        _ => Value::Null,
    }
}
