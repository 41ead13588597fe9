//! The fields of a record of CSV, and their values.

ghost use Rattle.std.specs.Prelude.{◌≡◌, IfOk, option_map, option_and_then, length, sum_by, nat_lt};
ghost use Rattle.std.specs.List.{list_all};
ghost use Rattle.std.specs.Str.{is_utf8};
ghost use Rattle.csv.specs.Records.{fields_of, field_at};
ghost use Rattle.arrival_text.specs.Items.{max_record, values_of};
ghost use Rattle.arrival_text.specs.CsvItems.{field_value, empty_value};
ghost use Rattle.arrival_text.specs.CsvPlaces.{value_at};

use crate::csv_places::Place;
use crate::field_values::{MAX_RECORD, text_value};
use csv::ByteRecord;
use event_value::{Kind, Memory, Rule, Seq, Text, Value};
use std::alloc::Global;

/// Whether the fields together are longer than a record may be.
pub fn is_long(fields: &ByteRecord) -> bool
    ensures { result ≡ nat_lt max_record (sum_by length (fields_of fields.now)) }
{
    let mut room = MAX_RECORD;
    for field in fields.iter() {
        if field.len() > room {
            return true;
        }
        room -= field.len();
    }
    false
}

/// Whether all fields are in UTF-8.
pub fn is_text(fields: &ByteRecord) -> bool
    ensures { result ≡ list_all is_utf8 (fields_of fields.now) }
{
    for field in fields.iter() {
        if !is_utf8(field) {
            return false;
        }
    }
    true
}

fn is_utf8(bytes: &[u8]) -> bool
    ensures { result ≡ is_utf8 bytes.now }
{
    match std::str::from_utf8(bytes) {
        Ok(_) => true,
        Err(_) => false,
    }
}

/// The field at a place, if there is a place.
pub fn field_at(fields: &ByteRecord, place: Option<usize>) -> Option<&[u8]>
    ensures { option_map (λ f. f.now) result
        ≡ option_and_then (field_at (fields_of fields.now)) place }
{
    fields.get(place?)
}

/// The values at the places of a record, or the rule of the first that has none.
pub fn values_at(
    alloc: Global,
    places: &[Place],
    fields: &ByteRecord,
) -> Result<Result<Seq<Value>, Rule>, Memory>
    ensures { IfOk result (λ values.
        values ≡ values_of (value_at (fields_of fields.now)) places.now) }
{
    let mut values = Seq::from_vec(Vec::with_capacity(alloc, places.len())?);
    for place in places {
        match value_at(alloc, place, fields)? {
            Ok(value) => values.push(value)?,
            Err(rule) => return Ok(Err(rule)),
        }
    }
    Ok(Ok(values))
}

fn value_at(
    alloc: Global,
    place: &Place,
    fields: &ByteRecord,
) -> Result<Result<Value, Rule>, Memory>
    ensures { IfOk result (λ value. value ≡ value_at (fields_of fields.now) place.now) }
{
    match field_at(fields, place.at) {
        Some(field) => field_value(alloc, place.kind, field),
        None => Ok(Ok(Value::Null)),
    }
}

fn field_value(alloc: Global, kind: Kind, field: &[u8]) -> Result<Result<Value, Rule>, Memory>
    ensures { IfOk result (λ value. value ≡ field_value kind field.now) }
{
    if field.is_empty() {
        return Ok(Ok(empty_value(alloc, kind)));
    }
    text_value(alloc, kind, field)
}

fn empty_value(alloc: Global, kind: Kind) -> Value
    ensures { result ≡ empty_value kind }
{
    match kind {
        Kind::Text => Value::Text(Text::empty(alloc)),
        Kind::Big | Kind::Fixed | Kind::Moment | Kind::Bit => Value::Null,
    }
}
