//! The values of the rows that a join gives.

ghost use Rattle.std.specs.Prelude.{◌≡◌, ◌++◌, IfOk};
ghost use Rattle.stream_joins.specs.Joined.{joined, unmatched};

use event_value::{Copies, Memory, Seq, Stamped, Value};
use std::alloc::Global;
use tick_time::Moment;

// The values of a left row, and behind them those of a right one.
pub(crate) fn values_of_both(
    alloc: Global,
    left: &[Value],
    right: &[Value],
) -> Result<Seq<Value>, Memory>
    ensures { IfOk result (λ values. values ≡ left.now ++ right.now) }
{
    let mut values = Seq::of(alloc, left)?;
    for value in right {
        values.push(value.copy()?)?;
    }
    Ok(values)
}

// A left and a right row as one.
pub(crate) fn join_rows(time: Moment, left: &Stamped, right: &Stamped) -> Result<Stamped, Memory>
    ensures { IfOk result (λ row. row ≡ joined time left.now right.now) }
{
    let alloc = left.values.allocator();
    let values = values_of_both(alloc, left.values.items(), right.values.items())?;
    Ok(Stamped { time, values })
}

// A left row with NULL in each of the right columns.
pub(crate) fn row_alone(time: Moment, width: u16, left: &Stamped) -> Result<Stamped, Memory>
    ensures { IfOk result (λ row. row ≡ unmatched time width left.now) }
{
    let mut values = left.values.copy()?;
    for _ in 0..width {
        values.push(Value::Null)?;
    }
    Ok(Stamped { time, values })
}
