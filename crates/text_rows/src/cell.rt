//! `Cell`, a value as the tables hold it: a table of such cells has nothing to let go.

use event_value::{Memory, Text, Value};
use std::alloc::Global;
use tick_time::Moment;

/// A value as a table holds it.
#[derive(Clone, Copy)]
pub enum Cell {
    Null,
    Bit(bool),
    Big(i64),
    Fixed(i64),
    Text(&'static str),
    Ticks(i64),
}

/// The text of these bytes, as a value.
pub fn text(alloc: Global, bytes: &str) -> Result<Value, Memory> {
    Ok(Value::Text(Text::of(alloc, bytes.as_bytes())?))
}

fn moment(ticks: i64) -> Value {
    match Moment::of_ticks(ticks) {
        None => Value::Null,
        Some(moment) => Value::Moment(moment),
    }
}

/// The value of a cell.
pub fn value(alloc: Global, cell: Cell) -> Result<Value, Memory> {
    match cell {
        Cell::Text(bytes) => text(alloc, bytes),
        Cell::Ticks(ticks) => Ok(moment(ticks)),
        Cell::Null => Ok(Value::Null),
        Cell::Bit(bit) => Ok(Value::Bit(bit)),
        Cell::Big(number) => Ok(Value::Big(number)),
        Cell::Fixed(millionths) => Ok(Value::Fixed(millionths)),
    }
}
