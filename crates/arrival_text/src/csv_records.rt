//! The items of a file of CSV.

ghost use Rattle.std.specs.Prelude.{◌≡◌, ◌≤◌, IfOk, length, map};
ghost use Rattle.csv.specs.Records.{fields_of};
ghost use Rattle.arrival_text.specs.CsvItems.{csv_items_of};
ghost use Rattle.arrival_text.specs.CsvPlaces.{item_at};
ghost use Rattle.arrival_text.specs.CsvReading.{IsReading, records_left};

use crate::csv_fields::{field_at, is_long, is_text, values_at};
use crate::csv_places::{Places, places_in};
use crate::csv_reading::{next_record, reader_of};
use crate::field_values::{enqueue_moment, item_of};
use csv::{ByteRecord, Reader};
use event_value::{Columns, Item, Memory, Rule, Seq};
use std::alloc::Global;

/// The items of a file, one for each record below the header. Where the source isn't stamped, no
/// enqueue moment is looked for, and it is 0.
///
/// # Errors
/// `Memory` where there was none for a record or an item.
pub fn csv_items(
    alloc: Global,
    columns: &Columns,
    stamped: bool,
    delimiter: u8,
    bytes: &[u8],
) -> Result<Seq<Item>, Memory>
    ensures items { IfOk result (λ items.
        items ≡ csv_items_of columns.now stamped delimiter bytes.now) }
    ensures few { IfOk result (λ items. length items ≤ length bytes.now) }
{
    let mut reader = reader_of(alloc, delimiter, bytes);
    let mut fields = ByteRecord::new(alloc);
    if !next_record(&mut reader, &mut fields)? {
        return Ok(Seq::empty(alloc));
    }
    let places = places_in(alloc, columns.items(), stamped, &fields)?;
    let items = items_at(alloc, &places, &mut reader, &mut fields)?;
    Ok(items)
}

/// The items of the records that a reader has left.
fn items_at(
    alloc: Global,
    places: &Places,
    reader: &mut Reader<&[u8]>,
    fields: &mut ByteRecord,
) -> Result<Seq<Item>, Memory>
    requires { IsReading reader.old }
    ensures { IfOk result (λ items. items ≡ map (item_at places.now) (records_left reader.old)) }
{
    let mut items = Seq::empty(alloc);
    'records: while next_record(reader, fields)? {
        items.push(item_at(alloc, places, fields)?)?;
    }
    Ok(items)
}

fn item_at(alloc: Global, places: &Places, fields: &ByteRecord) -> Result<Item, Memory>
    ensures { IfOk result (λ item. item ≡ item_at places.now (fields_of fields.now)) }
{
    if is_long(fields) {
        return Ok(Item::Bad(Rule::Long));
    }
    if fields.len() != places.width || !is_text(fields) {
        return Ok(Item::Bad(Rule::Syntax));
    }
    let Some(enqueued) = enqueue_moment(places.stamped, field_at(fields, places.enqueued)) else {
        return Ok(Item::Bad(Rule::Enqueued));
    };
    Ok(item_of(enqueued, values_at(alloc, places.columns.items(), fields)?))
}
