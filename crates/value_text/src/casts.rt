//! `cast`, a value as one of another kind.

ghost use Rattle.std.specs.Prelude.{◌≡◌, IfOk};
ghost use Rattle.value_text.specs.Casts.{number_of_bit, cast_to_whole, cast_to_fixed, bit_of_text, cast_to_bit, cast_to_moment, cast_to_text, cast_value};

use crate::numbers::{fixed_of_text, fixed_value, whole_of_text};
use crate::push_value;
use event_value::{Copies, Kind, Text, Value};
use std::alloc::Global;
use tick_time::{Memory, read_moment, write_moment};

// How many millionths make one.
const MILLION: i64 = 1_000_000;

/// The value as one of this kind: Null exactly where it is Null, where the cast fails, and where
/// there is none between the kinds.
///
/// # Errors
/// `Memory` where there was none for a text.
#[tactic(auto, unfolding(crate::specs::Casts::cast_value))]
pub fn cast(alloc: Global, value: &Value, kind: Kind) -> Result<Value, Memory>
    ensures { IfOk result (λ found. found ≡ cast_value kind value.now) }
{
    match kind {
        Kind::Big => Ok(cast_to_whole(value)),
        Kind::Fixed => Ok(cast_to_fixed(value)),
        Kind::Text => cast_to_text(alloc, value),
        Kind::Moment => Ok(cast_to_moment(value)),
        Kind::Bit => Ok(cast_to_bit(value)),
    }
}

fn number_of_bit(bit: bool) -> i64
    ensures { result ≡ number_of_bit bit }
{
    if bit { 1 } else { 0 }
}

/// The value as a whole number.
#[tactic(auto, unfolding(crate::specs::Casts::cast_to_whole))]
pub fn cast_to_whole(value: &Value) -> Value
    ensures { result ≡ cast_to_whole value.now }
{
    match value {
        Value::Bit(bit) => Value::Big(number_of_bit(*bit)),
        Value::Big(number) => Value::Big(*number),
        Value::Fixed(millionths) => Value::Big(*millionths / MILLION),
        Value::Text(text) => whole_of_text(text.items()),
        _ => Value::Null,
    }
}

/// The value as a decimal number.
#[tactic(auto, unfolding(crate::specs::Casts::cast_to_fixed))]
pub fn cast_to_fixed(value: &Value) -> Value
    ensures { result ≡ cast_to_fixed value.now }
{
    match value {
        Value::Big(number) => fixed_value(*number as i128 * MILLION as i128),
        Value::Fixed(millionths) => Value::Fixed(*millionths),
        Value::Text(text) => fixed_of_text(text.items()),
        _ => Value::Null,
    }
}

fn bit_of_text(text: &[u8]) -> Value
    ensures { result ≡ bit_of_text text.now }
{
    if text.eq_ignore_ascii_case(b"1") || text.eq_ignore_ascii_case(b"true") {
        return Value::Bit(true);
    }
    if text.eq_ignore_ascii_case(b"0") || text.eq_ignore_ascii_case(b"false") {
        return Value::Bit(false);
    }
    Value::Null
}

#[tactic(auto, unfolding(crate::specs::Casts::cast_to_bit))]
fn cast_to_bit(value: &Value) -> Value
    ensures { result ≡ cast_to_bit value.now }
{
    match value {
        Value::Bit(bit) => Value::Bit(*bit),
        Value::Big(number) => Value::Bit(*number != 0),
        Value::Text(text) => bit_of_text(text.items()),
        _ => Value::Null,
    }
}

#[tactic(auto, unfolding(crate::specs::Casts::cast_to_moment))]
fn cast_to_moment(value: &Value) -> Value
    ensures { result ≡ cast_to_moment value.now }
{
    match value {
        Value::Moment(moment) => Value::Moment(*moment),
        Value::Text(text) => match read_moment(text.items()) {
            None => Value::Null,
            Some(moment) => Value::Moment(moment),
        },
        _ => Value::Null,
    }
}

#[tactic(auto, unfolding(crate::specs::Casts::cast_to_text))]
fn cast_to_text(alloc: Global, value: &Value) -> Result<Value, Memory>
    ensures { IfOk result (λ found. found ≡ cast_to_text value.now) }
{
    match value {
        Value::Null => Ok(Value::Null),
        Value::Text(text) => Ok(Value::Text(text.copy()?)),
        Value::Moment(moment) => Ok(Value::Text(Text::of(alloc, &write_moment(*moment))?)),
        Value::Bit(_) | Value::Big(_) | Value::Fixed(_) => {
            let mut text = Text::empty(alloc);
            push_value(&mut text, value)?;
            Ok(Value::Text(text))
        }
    }
}
