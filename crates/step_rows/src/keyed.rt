//! What the rows of windows are made of: keys, and the aggregates that the tests ask for.

use event_value::{AggKind, Aggregate, Memory, Seq, Value};
use std::alloc::Global;

/// The value of a key, NULL where there is none.
pub fn key_value(key: Option<i64>) -> Value {
    match key {
        Some(number) => Value::Big(number),
        None => Value::Null,
    }
}

/// COUNT(*), and SUM of a column.
pub fn count_and_sum(alloc: Global, column: u16) -> Result<Seq<Aggregate>, Memory> {
    let mut aggs = Seq::empty(alloc);
    aggs.push(Aggregate {
        kind: AggKind::Count,
        column: None,
    })?;
    aggs.push(Aggregate {
        kind: AggKind::Sum,
        column: Some(column),
    })?;
    Ok(aggs)
}
