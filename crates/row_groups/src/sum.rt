//! `Sum`, the running sum of whole or of decimal numbers.

ghost use Rattle.std.specs.Prelude.{◌≡◌, ◌*◌, ◌/◌, ◌<◌, ◌≤◌, pos, ◌*ℤ◌, unsigned_abs};
ghost use Rattle.value_text.specs.Numbers.{greatest_size, signed};
ghost use Rattle.value_text.specs.Numbers as numbers;
ghost use Rattle.value_text.specs.Printed.{million};
ghost use Rattle.row_groups.specs.Aggregates as spec;
ghost use Rattle.row_groups.specs.Tallies as tallies;

use event_value::Value;
use value_text::{fixed_value, whole_value};

// How many millionths make one.
const MILLION: u128 = 1_000_000;

// No numbers.
const NO_NUMBERS: Total = Total { count: 0, sum: 0 };

// The greatest number of 64 bits without its sign.
const GREATEST_SIZE: u128 = 9_223_372_036_854_775_808;

/// How many numbers there are, and what they come to.
#[derive(Clone, Copy, PartialEq, Eq)]
pub struct Total {
    /// How many.
    pub count: u64,
    /// Their sum.
    pub sum: i128,
}

/// The running sum of the values of a column.
#[derive(Clone, Copy, PartialEq, Eq)]
pub enum Sum {
    /// There are no values.
    Empty,
    /// They are whole numbers.
    Whole(Total),
    /// They are decimal numbers, in millionths.
    Decimal(Total),
    /// They are not all numbers of one kind, or too many, or too great.
    Unfit,
}

impl Sum {
    /// The sum with one value more. It takes no memory.
    pub fn with(self, value: &Value) -> Sum
        ensures { result ≡ tallies.sum_with self value.now }
    {
        match (self, value) {
            (Sum::Empty, Value::Big(number)) => whole(NO_NUMBERS.with(*number)),
            (Sum::Empty, Value::Fixed(number)) => decimal(NO_NUMBERS.with(*number)),
            (Sum::Whole(total), Value::Big(number)) => whole(total.with(*number)),
            (Sum::Decimal(total), Value::Fixed(number)) => decimal(total.with(*number)),
            _ => Sum::Unfit,
        }
    }

    /// The sum; Null where it doesn't fit. It takes no memory.
    pub fn value(self) -> Value
        ensures { result ≡ spec.sum_value self }
    {
        match self {
            Sum::Whole(total) => whole_value(total.sum),
            Sum::Decimal(total) => fixed_value(total.sum),
            Sum::Empty | Sum::Unfit => Value::Null,
        }
    }

    /// The mean in millionths, toward zero; Null where it doesn't fit. It takes no memory.
    pub fn mean(self) -> Value
        ensures { result ≡ spec.mean_value self }
    {
        match self {
            Sum::Whole(total) => total.mean_of_wholes(),
            Sum::Decimal(total) => total.mean_of_decimals(),
            Sum::Empty | Sum::Unfit => Value::Null,
        }
    }
}

impl Total {
    fn with(self, number: i64) -> Option<Total>
        ensures { result ≡ tallies.total_with self number }
    {
        let count = self.count.checked_add(1)?;
        let sum = self.sum.checked_add(number as i128)?;
        Some(Total { count, sum })
    }

    fn mean_of_wholes(self) -> Value
        ensures { result ≡ spec.mean_of (self.sum *ℤ pos million) self.count }
    {
        if self.count == 0 {
            return Value::Null;
        }
        let size = self.sum.unsigned_abs();
        if size / self.count as u128 > GREATEST_SIZE {
            return Value::Null;
        }
        signed_value(self.sum < 0, size_in_millionths(size, self.count))
    }

    fn mean_of_decimals(self) -> Value
        ensures { result ≡ spec.mean_of self.sum self.count }
    {
        if self.count == 0 {
            return Value::Null;
        }
        let size = self.sum.unsigned_abs() / self.count as u128;
        signed_value(self.sum < 0, size)
    }
}

fn whole(total: Option<Total>) -> Sum
    ensures { result ≡ tallies.fitting Sum.Whole total }
{
    match total {
        Some(total) => Sum::Whole(total),
        None => Sum::Unfit,
    }
}

fn decimal(total: Option<Total>) -> Sum
    ensures { result ≡ tallies.fitting Sum.Decimal total }
{
    match total {
        Some(total) => Sum::Decimal(total),
        None => Sum::Unfit,
    }
}

// The mean of a sum of this size, in millionths; the product itself may not fit.
fn size_in_millionths(size: u128, count: u64) -> u128
    requires some { 0 < count }
    requires fits { size / count ≤ greatest_size }
    ensures { result ≡ size * million / count }
{
    let count = count as u128;
    size / count * MILLION + size % count * MILLION / count
}

// The decimal number of this size, Null where it doesn't fit.
fn signed_value(negative: bool, size: u128) -> Value
    ensures { result ≡ numbers.fixed_value (signed negative size) }
{
    if size > GREATEST_SIZE {
        return Value::Null;
    }
    let size = size as i128;
    fixed_value(if negative { -size } else { size })
}
