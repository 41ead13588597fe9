//! `Value`, the value of a column, and its order.

ghost use Rattle.std.specs.Prelude.{◌≡◌};
ghost use Rattle.event_value.specs.Order.{value_order};

use crate::{Copies, Text};
use std::cmp::Ordering;
use tick_time::{Memory, Moment};

/// A value of a column. The order of the variants is the order of values of different kinds.
#[derive(Drop, PartialEq, Eq, PartialOrd, Ord)]
pub enum Value {
    /// No value.
    Null,
    /// A bit.
    Bit(bool),
    /// A whole number of 64 bits.
    Big(i64),
    /// A decimal number, as a count of millionths.
    Fixed(i64),
    /// A text.
    Text(Text),
    /// A moment.
    Moment(Moment),
}

impl Copies for Value {
    fn copy(&self) -> Result<Self, Memory> {
        match self {
            Value::Null => Ok(Value::Null),
            Value::Bit(bit) => Ok(Value::Bit(*bit)),
            Value::Big(number) => Ok(Value::Big(*number)),
            Value::Fixed(millionths) => Ok(Value::Fixed(*millionths)),
            Value::Text(text) => Ok(Value::Text(text.copy()?)),
            Value::Moment(moment) => Ok(Value::Moment(*moment)),
        }
    }
}

/// The total order of values: Null first, then bits, whole numbers, decimals, texts by their bytes,
/// moments. Values that it calls equal are equal. It takes no memory.
pub fn order(a: &Value, b: &Value) -> Ordering
    ensures { result ≡ value_order a.now b.now }
{
    a.cmp(b)
}
