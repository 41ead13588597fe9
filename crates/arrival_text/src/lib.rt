//! The items of files of text: JSON lines and CSV.
//! `json_items` and `csv_items` turn the bytes of a file into its items: the values of each record,
//! or the first rule that it breaks.
//! What matters: clause `items` of both, exact for every list of bytes.
//! The meaning: specs/JsonItems.antt and specs/CsvItems.antt over specs/Items.antt (docs/INPUTS,
//! "Records").
//! A file above `MAX_SEGMENT` has the items of `too_long_items`; who reads the file decides that.
//! It reads no file and judges no time: outside and time_policy do.
#![tactic(auto)]

mod csv_fields;
mod csv_places;
mod csv_reading;
mod csv_records;
mod field_values;
mod json_lines;
mod json_values;
mod lines;
mod segments;

pub use csv_records::csv_items;
pub use json_lines::json_items;
pub use segments::{MAX_SEGMENT, too_long_items};
