//! The records of a CSV text, one after the other.

ghost use Rattle.std.specs.Prelude.{◌≡◌, IfOk, OnOk};
ghost use Rattle.csv.specs.Records.{fields_of};
ghost use Rattle.arrival_text.specs.CsvItems.{csv_records};
ghost use Rattle.arrival_text.specs.CsvReading.{records_left, found_before, IsReading};

use csv::{ByteRecord, Reader, ReaderBuilder};
use event_value::Memory;
use std::alloc::Global;

/// A reader at the start of a text.
#[tactic(auto, unfolding(crate::specs::CsvReading::IsReading, crate::specs::CsvReading::records_left))]
pub fn reader_of<'t>(alloc: Global, delimiter: u8, text: &'t [u8]) -> Reader<&'t [u8]>
    ensures reading { IsReading result }
    ensures records { records_left result ≡ csv_records delimiter text.now }
{
    ReaderBuilder::new()
        .delimiter(delimiter)
        .flexible(true)
        .has_headers(false)
        .from_reader(alloc, text)
}

/// Reads the next record, and answers whether there was one.
pub fn next_record(reader: &mut Reader<&[u8]>, fields: &mut ByteRecord) -> Result<bool, Memory>
    requires { IsReading reader.old }
    ensures reading { OnOk result (IsReading reader.new) }
    ensures records { IfOk result (λ found. records_left reader.old
        ≡ found_before found (fields_of fields.new) (records_left reader.new)) }
{
    let Ok(found) = reader.read_byte_record(fields) else {
        return Err(Memory);
    };
    Ok(found)
}
