//! Pieces of lists of rows in order of time, and the moments at which they end.

ghost use Rattle.std.specs.Prelude.{◌≡◌, ◌≤◌};
ghost use Rattle.query_meaning.specs.Lists.{AreNoLonger};
ghost use Rattle.stream_op.specs.Rows.{AreInOrder, between};

use event_value::{Seq, Stamped};
use tick_time::Moment;

/// The rows of a list at one moment or later, and below another, found by two searches.
pub fn rows_between(rows: &[Stamped], from: Moment, upto: Moment) -> &[Stamped]
    ensures { AreInOrder rows.now → result.now ≡ between from upto rows.now }
{
    let first = rows.partition_point(|row| row.time < from);
    let rest = &rows[first..];
    let count = rest.partition_point(|row| row.time < upto);
    &rest[..count]
}

/// A list that has as many rows as any of these has; an empty one where there is none.
pub fn longest_of(lists: &[Seq<Stamped>]) -> &[Stamped]
    ensures { AreNoLonger lists.now result.now }
{
    let mut longest: &[Stamped] = &[];
    for list in lists {
        let rows = list.items();
        if rows.len() > longest.len() {
            longest = rows;
        }
    }
    longest
}

/// A moment, or the nearest one that isn't before `least` and isn't behind `most`.
pub fn moment_within(moment: Moment, least: Moment, most: Moment) -> Moment
    ensures { least ≤ most → (least ≤ result) × (result ≤ most) }
{
    if moment < least {
        least
    } else if moment < most {
        moment
    } else {
        most
    }
}
