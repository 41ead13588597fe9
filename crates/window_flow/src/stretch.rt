//! `stretch_of`, the rows of a list in order that are in a stretch of time.

ghost use Rattle.std.specs.Prelude.{◌≡◌, ◌≤◌, length};
ghost use Rattle.row_order.specs.Stretches.{rows_below};
ghost use Rattle.stream_op.specs.Rows.{AreInOrder, between, time_of};

use event_value::Stamped;

/// The rows from a time on, below another. It looks at few rows, and takes no memory.
pub fn stretch_of(rows: &[Stamped], from: u64, upto: u64) -> &[Stamped]
    ensures { AreInOrder rows.now → result.now ≡ between from upto rows.now }
{
    let first = count_below(rows, from);
    let end = count_below(rows, upto);
    if first < end {
        &rows[first..end]
    } else {
        &rows[rows.len()..]
    }
}

// How many rows are below a time.
fn count_below(rows: &[Stamped], time: u64) -> usize
    ensures bound { result ≤ length rows.now }
    ensures count { AreInOrder rows.now → result ≡ length (rows_below time_of time rows.now) }
{
    rows.partition_point(|row| row.time.count() < time)
}
