//! Rows written as marks: a time, and a number that tells rows of one time apart.

use event_value::{Memory, Seq, Stamped, Value};
use std::alloc::Global;
use tick_time::Moment;

/// A time below 100 and a number.
pub type Mark = (u64, i64);

/// The moment of a mark's time.
pub fn moment(ticks: u64) -> Moment {
    Moment::of_count(ticks % 100)
}

/// The rows of marks, each with its number as its one value.
pub fn rows_of(alloc: Global, marks: &[Mark]) -> Result<Seq<Stamped>, Memory> {
    let mut rows = Seq::empty(alloc);
    for (time, number) in marks {
        let mut values = Seq::empty(alloc);
        values.push(Value::Big(*number))?;
        let time = moment(*time);
        rows.push(Stamped { time, values })?;
    }
    Ok(rows)
}

/// Whether the rows are those of the marks.
pub fn have_marks(rows: &[Stamped], marks: &[Mark]) -> bool {
    rows.len() == marks.len()
        && rows.iter().zip(marks).all(|(row, (time, number))| {
            row.time == moment(*time) && row.values.items().first() == Some(&Value::Big(*number))
        })
}
