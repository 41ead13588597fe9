//! `Running`, an aggregate of the values of a column so far.

ghost use Rattle.std.specs.Prelude.{◌≡◌, IfOk, OnOk};
ghost use Rattle.row_groups.specs.Aggregates as spec;
ghost use Rattle.row_groups.specs.Tallies as tallies;

use crate::{Different, Sum};
use event_value::{AggKind, Copies, Memory, Value, order};
use std::alloc::Global;
use std::cmp::Ordering;
use value_text::whole_value;

/// An aggregate of the values so far, Null left out.
#[derive(Drop)]
pub enum Running {
    /// How many.
    Counted(u64),
    /// The different ones.
    Different(Different),
    /// Their sum.
    Summed(Sum),
    /// The sum whose mean is asked for.
    Mean(Sum),
    /// The least of them, Null where there is none.
    Least(Value),
    /// The greatest of them, Null where there is none.
    Greatest(Value),
}

impl Running {
    /// The aggregate of no values. It takes no memory.
    pub fn start(alloc: Global, kind: AggKind) -> Self
        ensures { result ≡ tallies.running_start kind }
    {
        match kind {
            AggKind::Count => Running::Counted(0),
            AggKind::CountDistinct => Running::Different(Different::none(alloc)),
            AggKind::Sum => Running::Summed(Sum::Empty),
            AggKind::Avg => Running::Mean(Sum::Empty),
            AggKind::Min => Running::Least(Value::Null),
            AggKind::Max => Running::Greatest(Value::Null),
        }
    }

    /// Adds a value.
    ///
    /// # Errors
    /// `Memory` where there was none for a copy of it.
    pub fn add(&mut self, value: &Value) -> Result<(), Memory>
        ensures { OnOk result (self.new ≡ tallies.running_with self.old value.now) }
    {
        match self {
            Running::Counted(count) => *count = one_more(*count),
            Running::Different(values) => values.insert(value)?,
            Running::Summed(sum) => *sum = sum.with(value),
            Running::Mean(sum) => *sum = sum.with(value),
            Running::Least(least) => {
                if is_lesser(value, least) {
                    *least = value.copy()?;
                }
            }
            Running::Greatest(greatest) => {
                if is_greater(value, greatest) {
                    *greatest = value.copy()?;
                }
            }
        }
        Ok(())
    }

    /// What the aggregate has come to.
    ///
    /// # Errors
    /// `Memory` where there was none for a copy of it.
    pub fn value(&self) -> Result<Value, Memory>
        ensures { IfOk result (λ value. value ≡ tallies.running_value self.now) }
    {
        match self {
            Running::Counted(count) => Ok(count_value(*count)),
            Running::Different(values) => Ok(count_value(values.count())),
            Running::Summed(sum) => Ok(sum.value()),
            Running::Mean(sum) => Ok(sum.mean()),
            Running::Least(value) | Running::Greatest(value) => value.copy(),
        }
    }
}

/// One more; the number stands still at the greatest.
pub(crate) fn one_more(count: u64) -> u64
    ensures { result ≡ tallies.one_more count }
{
    count.saturating_add(1)
}

/// A count as a value; Null where 64 bits with a sign don't hold it.
pub(crate) fn count_value(count: u64) -> Value
    ensures { result ≡ spec.count_value count }
{
    whole_value(count as i128)
}

fn is_lesser(value: &Value, least: &Value) -> bool
    ensures { result ≡ tallies.is_lesser value.now least.now }
{
    match least {
        Value::Null => true,
        _ => order(value, least) == Ordering::Less,
    }
}

fn is_greater(value: &Value, greatest: &Value) -> bool
    ensures { result ≡ tallies.is_greater value.now greatest.now }
{
    match greatest {
        Value::Null => true,
        _ => order(value, greatest) == Ordering::Greater,
    }
}
