//! `row_of`, the row of a window and a key.

ghost use Rattle.std.specs.Prelude.{◌≡◌, IfOk};
ghost use Rattle.window_flow.specs.Parts.{aggregated};

use event_value::{Aggregate, Memory, Seq, Stamped, Value};
use row_groups::Tallies;
use std::alloc::Global;
use tick_time::Moment;

/// The row at a time: a key, and the aggregates of rows.
///
/// # Errors
/// `Memory` where there was none for it.
pub fn row_of(
    alloc: Global,
    time: Moment,
    aggregates: &[Aggregate],
    key: &[Value],
    rows: &[Stamped],
) -> Result<Stamped, Memory>
    ensures { IfOk result (λ row. row ≡ aggregated time aggregates.now key.now rows.now) }
{
    let mut tallies = Tallies::start(alloc, aggregates)?;
    for row in rows {
        tallies.add(row)?;
    }
    let mut values = Seq::of(alloc, key)?;
    tallies.push_values(&mut values)?;
    Ok(Stamped { time, values })
}
