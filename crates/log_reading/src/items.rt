//! The items of a file.

ghost use Rattle.std.specs.Prelude.{◌≡◌, ◌≤◌, IfOk, length};
ghost use Rattle.arrival_text.specs.Segments.{max_segment};
ghost use Rattle.outside.specs.Segment.{IsWithin};
ghost use Rattle.log_reading.specs.Log.{items_in, items_of_segment, unreadable_items};

use arrival_text::{csv_items, json_items, too_long_items};
use event_value::{Columns, Format, Item, Memory, Rule, Seq};
use outside::Segment;
use std::alloc::Global;

/// The items of a file that was read up to the limit of a segment.
pub fn items_of_segment(
    alloc: Global,
    format: Format,
    columns: &Columns,
    segment: &Segment,
) -> Result<Seq<Item>, Memory>
    requires { IsWithin max_segment segment.now }
    ensures items { IfOk result (λ items. items ≡ items_of_segment format columns.now segment.now) }
    ensures few { IfOk result (λ items. length items ≤ max_segment) }
{
    match segment {
        Segment::Bytes(bytes) => items_in(alloc, format, columns, true, bytes.items()),
        Segment::TooLong => too_long_items(alloc),
    }
}

/// The items of the bytes of a file, whose records are stamped with an enqueue moment or aren't.
pub fn items_in(
    alloc: Global,
    format: Format,
    columns: &Columns,
    stamped: bool,
    bytes: &[u8],
) -> Result<Seq<Item>, Memory>
    requires { length bytes.now ≤ max_segment }
    ensures items { IfOk result (λ items. items ≡ items_in format columns.now stamped bytes.now) }
    ensures few { IfOk result (λ items. length items ≤ max_segment) }
{
    match format {
        Format::Json => json_items(alloc, columns, stamped, bytes),
        Format::Csv(delimiter) => csv_items(alloc, columns, stamped, delimiter, bytes),
        Format::Avro | Format::JsonExact => unreadable_items(alloc),
    }
}

// The items of a file in a format without a reader: one, which says so.
fn unreadable_items(alloc: Global) -> Result<Seq<Item>, Memory>
    ensures { IfOk result (λ items. items ≡ unreadable_items) }
{
    let mut items = Seq::empty(alloc);
    items.push(Item::Bad(Rule::Damaged))?;
    Ok(items)
}
