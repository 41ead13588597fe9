//! Where the header of a CSV file has what is asked of its records.

ghost use Rattle.std.specs.Prelude.{◌≡◌, IfOk, map};
ghost use Rattle.csv.specs.Records.{fields_of};
ghost use Rattle.arrival_text.specs.CsvItems.{place_of, place_of_path};
ghost use Rattle.arrival_text.specs.CsvPlaces.{column_place, places_in};

use crate::field_values::ENQUEUED;
use csv::ByteRecord;
use event_value::{Column, Kind, Memory, Seq, Text};
use std::alloc::Global;

/// Where a column's values stand, if the header has it.
#[derive(Clone, Copy)]
pub struct Place {
    /// The kind of the column.
    pub kind: Kind,
    /// The number of the field.
    pub at: Option<usize>,
}

/// Where the header has what is asked of a record.
#[derive(Drop)]
pub struct Places {
    /// How many fields a record has.
    pub width: usize,
    /// Whether records have an enqueue moment.
    pub stamped: bool,
    /// The number of the field with it.
    pub enqueued: Option<usize>,
    /// The places of the columns, in order.
    pub columns: Seq<Place>,
}

/// The places that a header gives.
pub fn places_in(
    alloc: Global,
    columns: &[Column],
    stamped: bool,
    header: &ByteRecord,
) -> Result<Places, Memory>
    ensures { IfOk result (λ places.
        places ≡ places_in columns.now stamped (fields_of header.now)) }
{
    Ok(Places {
        width: header.len(),
        stamped,
        enqueued: place_of(header, ENQUEUED.as_bytes()),
        columns: column_places(alloc, columns, header)?,
    })
}

fn column_places(
    alloc: Global,
    columns: &[Column],
    header: &ByteRecord,
) -> Result<Seq<Place>, Memory>
    ensures { IfOk result (λ places.
        places ≡ map (column_place (fields_of header.now)) columns.now) }
{
    let mut places = Seq::empty(alloc);
    for column in columns {
        places.push(Place {
            kind: column.kind,
            at: place_of_path(header, column.path.items()),
        })?;
    }
    Ok(places)
}

fn place_of_path(header: &ByteRecord, path: &[Text]) -> Option<usize>
    ensures { result ≡ place_of_path path.now (fields_of header.now) }
{
    match path {
        [name] => place_of(header, name.items()),
        _ => None,
    }
}

/// The number of the first field that is this name.
fn place_of(header: &ByteRecord, name: &[u8]) -> Option<usize>
    ensures { result ≡ place_of name.now (fields_of header.now) }
{
    let mut at = 0;
    while let Some(field) = header.get(at) {
        if field == name {
            return Some(at);
        }
        at += 1;
    }
    None
}
