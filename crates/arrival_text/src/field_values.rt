//! Texts, numbers and truth values as values of a column's kind.

ghost use Rattle.std.specs.Prelude.{◌≡◌, Some, IfOk, option_map};
ghost use Rattle.arrival_text.specs.Items.{cast_or_field, text_value, number_value, truth_value};
ghost use Rattle.arrival_text.specs.Items.{bit_of_number, enqueue_moment, item_of};

use event_value::{Item, Kind, Memory, Rule, Seq, Text, Value};
use std::alloc::Global;
use tick_time::{Moment, read_moment};
use value_text::cast;

/// The greatest length of a record in bytes.
pub const MAX_RECORD: usize = 65_536;

/// The name of the field with a record's enqueue moment.
pub const ENQUEUED: &str = "EventEnqueuedUtcTime";

/// A text as a value of a kind, or the rule that it breaks.
#[tactic(auto, unfolding(value_text::specs::Casts::cast_value, value_text::specs::Casts::cast_to_text, value_text::specs::Casts::cast_to_moment))]
pub fn text_value(alloc: Global, kind: Kind, text: &[u8]) -> Result<Result<Value, Rule>, Memory>
    ensures { IfOk result (λ value. value ≡ text_value kind text.now) }
{
    match kind {
        Kind::Text => Ok(Ok(Value::Text(Text::of(alloc, text)?))),
        Kind::Moment => Ok(read_moment(text).map(Value::Moment).ok_or(Rule::Field)),
        Kind::Big | Kind::Fixed | Kind::Bit => {
            let text = Value::Text(Text::of(alloc, text)?);
            Ok(cast_or_field(cast(alloc, &text, kind)?))
        }
    }
}

/// A whole number as a value of a kind, or the rule that it breaks.
pub fn number_value(alloc: Global, kind: Kind, number: i64) -> Result<Result<Value, Rule>, Memory>
    ensures { IfOk result (λ value. value ≡ number_value kind number) }
{
    match kind {
        Kind::Big => Ok(Ok(Value::Big(number))),
        Kind::Fixed | Kind::Text => Ok(cast_or_field(cast(alloc, &Value::Big(number), kind)?)),
        Kind::Moment => Ok(Err(Rule::Field)),
        Kind::Bit => Ok(bit_of_number(number)),
    }
}

fn bit_of_number(number: i64) -> Result<Value, Rule>
    ensures { result ≡ bit_of_number number }
{
    match number {
        0 => Ok(Value::Bit(false)),
        1 => Ok(Value::Bit(true)),
        _ => Err(Rule::Field),
    }
}

/// A truth value as a value of a kind, or the rule that it breaks.
pub fn truth_value(kind: Kind, truth: bool) -> Result<Value, Rule>
    ensures { result ≡ truth_value kind truth }
{
    match kind {
        Kind::Bit => Ok(Value::Bit(truth)),
        Kind::Big | Kind::Fixed | Kind::Text | Kind::Moment => Err(Rule::Field),
    }
}

fn cast_or_field(value: Value) -> Result<Value, Rule>
    ensures { result ≡ cast_or_field value }
{
    match value {
        Value::Null => Err(Rule::Field),
        value => Ok(value),
    }
}

/// The enqueue moment of a record, where this is the text of its field.
pub fn enqueue_moment(stamped: bool, text: Option<&[u8]>) -> Option<Moment>
    ensures { result ≡ enqueue_moment stamped (option_map (λ t. t.now) text.entry) }
{
    if !stamped {
        return Some(Moment::zero());
    }
    read_moment(text?)
}

/// The item of a record with this enqueue moment and these values.
pub fn item_of(enqueued: Moment, values: Result<Seq<Value>, Rule>) -> Item
    ensures { result ≡ item_of (Some enqueued) values }
{
    match values {
        Ok(values) => Item::Good { enqueued, values },
        Err(rule) => Item::Bad(rule),
    }
}
