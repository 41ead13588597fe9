//! The right rows that are within the bound of a left row.

ghost use Rattle.std.specs.Prelude.{◌≡◌, filter};
ghost use Rattle.stream_joins.specs.Bound.{is_within};
ghost use Rattle.stream_op.specs.Rows.{AreInOrder};

use event_value::Stamped;
use tick_time::{Moment, Span};

// The rows that are at least one length and at most another behind a time, of rows in order of
// time. Those before and after them are passed over by two searches.
pub(crate) fn near_rows(low: Span, high: Span, time: Moment, rows: &[Stamped]) -> &[Stamped]
    ensures { AreInOrder rows.now → result.now ≡ filter (is_within low high time) rows.now }
{
    let earliest = time.ticks() + low.ticks();
    let latest = time.ticks() + high.ticks();
    let first = rows.partition_point(|row| row.time.ticks() < earliest);
    let rest = &rows[first..];
    let count = rest.partition_point(|row| row.time.ticks() <= latest);
    &rest[..count]
}
