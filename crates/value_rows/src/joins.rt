//! Tests of the joins on settled rows, in one piece and in many.
//!
//! A row is written as its time in ticks, its key, NULL where there is none, and a number that
//! tells rows apart; a joined row as its time, the number of its left row and that of its right
//! one, if there is one. Rows match where their keys are equal.

mod bound;
mod reference;

use event_value::{Memory, Seq, Stamped, Value};
use query_plan::{Cond, Expr, Rel};
use std::alloc::Global;
use stream_joins::JoinCond;
use tick_time::Moment;

/// A time below 1,000 seconds, a key and a number.
type Row = (u64, Option<i64>, i64);

/// A time, the number of the left row, and that of the right row, if there is one.
type Joined = (u64, i64, Option<i64>);

const SECOND: u64 = 10_000_000;

/// The moment of so many ticks.
fn moment(ticks: u64) -> Moment {
    Moment::of_count(ticks % (1_000 * SECOND))
}

/// The value of a number, NULL where there is none.
fn number_or_null(number: Option<i64>) -> Value {
    match number {
        Some(number) => Value::Big(number),
        None => Value::Null,
    }
}

/// The rows of a table.
fn rows_of(alloc: Global, marks: &[Row]) -> Result<Seq<Stamped>, Memory> {
    let mut rows = Seq::empty(alloc);
    for (time, key, number) in marks {
        let mut values = Seq::empty(alloc);
        values.push(number_or_null(*key))?;
        values.push(Value::Big(*number))?;
        let time = moment(*time);
        rows.push(Stamped { time, values })?;
    }
    Ok(rows)
}

/// Whether a row is that of these two.
fn is_joined(row: &Stamped, wanted: &Joined) -> bool {
    let (time, left, right) = wanted;
    let values = row.values.items();
    row.time == moment(*time)
        && values.len() == 4
        && values.get(1) == Some(&Value::Big(*left))
        && values.get(3) == Some(&number_or_null(*right))
        && (right.is_some() || values.get(2) == Some(&Value::Null))
}

/// Whether the rows are these.
fn are_joined(rows: &[Stamped], wanted: &[Joined]) -> bool {
    rows.len() == wanted.len()
        && rows
            .iter()
            .zip(wanted)
            .all(|(row, want)| is_joined(row, want))
}

/// Rows match where their keys are equal.
fn equal_keys(alloc: Global) -> Result<JoinCond, Memory> {
    let cond = Cond::Compare(Rel::Eq, Expr::Col(0), Expr::Col(2));
    JoinCond::of(alloc, &cond)
}
