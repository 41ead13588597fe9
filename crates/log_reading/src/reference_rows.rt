//! `rows_of_segment`, the rows of a file of a reference.

ghost use Rattle.std.specs.Prelude.{◌≡◌, IfOk};
ghost use Rattle.arrival_text.specs.Segments.{max_segment};
ghost use Rattle.outside.specs.Segment.{IsWithin};
ghost use Rattle.log_reading.specs.References.{rows_of_items, rows_of_segment};

use crate::items::items_in;
use event_value::{Columns, Format, Item, Memory, Seq, Stamped};
use outside::Segment;
use std::alloc::Global;
use tick_time::Moment;

/// The rows of a file that was read up to the limit of a segment. Bad records have none.
pub fn rows_of_segment(
    alloc: Global,
    format: Format,
    columns: &Columns,
    segment: &Segment,
) -> Result<Seq<Stamped>, Memory>
    requires { IsWithin max_segment segment.now }
    ensures { IfOk result (λ rows. rows ≡ rows_of_segment format columns.now segment.now) }
{
    match segment {
        Segment::Bytes(bytes) => {
            let items = items_in(alloc, format, columns, false, bytes.items())?;
            rows_of_items(alloc, items)
        }
        Segment::TooLong => Ok(Seq::empty(alloc)),
    }
}

// The rows of the records of a file.
fn rows_of_items(alloc: Global, items: Seq<Item>) -> Result<Seq<Stamped>, Memory>
    ensures { IfOk result (λ rows. rows ≡ rows_of_items items) }
{
    let mut rows = Seq::empty(alloc);
    for item in items.into_vec() {
        if let Item::Good { values, .. } = item {
            let time = Moment::zero();
            rows.push(Stamped { time, values })?;
        }
    }
    Ok(rows)
}
