//! `Source`, what streams and references have both.

ghost use Rattle.std.specs.Prelude.{◌≡◌, IfOk, IfErr, Ok};
ghost use Rattle.toml.specs.View.{table_view};
ghost use Rattle.input_book.specs.Ranges.{delimited, delimiter_of, format_of};
ghost use Rattle.input_book.specs.Readers.{needed, optional, text_of};
ghost use Rattle.input_book.specs.Refusals.{IsRefusal};
ghost use Rattle.input_book.specs.Tables.{source_of};

use crate::InputErr;
use crate::key::Key;
use crate::limits::MAX_NAME;
use crate::members::{member_of, present};
use crate::parts::parts_at;
use crate::refusals::ranged;
use crate::shapes::text_in;
use crate::texts::sized_at;
use event_value::{Columns, Format, Text};
use std::alloc::Global;
use toml::Table;

// A source of records or of reference rows.
#[derive(Drop)]
pub struct Source {
    // The name in queries.
    pub name: Text,
    // The format of its files.
    pub format: Format,
    // The declared columns.
    pub columns: Columns,
}

fn format_of(word: &str) -> Option<Format>
    ensures { result ≡ format_of word.now }
{
    if word == "json" {
        Some(Format::Json)
    } else if word == "csv" {
        Some(Format::Csv(b','))
    } else {
        None
    }
}

fn format_at(alloc: Global, table: &Table, key: &str) -> Result<Format, InputErr>
    ensures ok { IfOk result (λ format.
        needed key.now (text_of format_of) (table_view table.now) ≡ Ok format) }
    ensures err { IfErr result (IsRefusal
        (needed key.now (text_of format_of) (table_view table.now))) }
{
    let word = text_in(alloc, Key::Member(key), present(alloc, table, key)?)?;
    ranged(alloc, Key::Member(key), format_of(word))
}

fn delimiter_of(text: &str) -> Option<u8>
    ensures { result ≡ delimiter_of text.now }
{
    match text.as_bytes() {
        [byte @ (b',' | b';' | b'\t' | b' ' | b'|')] => Some(*byte),
        _ => None,
    }
}

fn delimited(format: Format, text: &str) -> Option<Format>
    ensures { result ≡ delimited format text.now }
{
    match format {
        Format::Csv(_) => delimiter_of(text).map(Format::Csv),
        Format::Json | Format::Avro | Format::JsonExact => None,
    }
}

// A format with the delimiter at a key, where there is one.
fn delimited_at(alloc: Global, table: &Table, key: &str, plain: Format) -> Result<Format, InputErr>
    ensures ok { IfOk result (λ format.
        optional key.now plain (text_of (delimited plain)) (table_view table.now) ≡ Ok format) }
    ensures err { IfErr result (IsRefusal
        (optional key.now plain (text_of (delimited plain)) (table_view table.now))) }
{
    match member_of(table, key) {
        None => Ok(plain),
        Some(value) => {
            let text = text_in(alloc, Key::Member(key), value)?;
            ranged(alloc, Key::Member(key), delimited(plain, text))
        }
    }
}

// What a table says of its source.
#[tactic(auto, unfolding(crate::specs::Tables::source_of))]
pub fn source_of(alloc: Global, table: &Table) -> Result<Source, InputErr>
    ensures ok { IfOk result (λ source. source_of (table_view table.now) ≡ Ok source) }
    ensures err { IfErr result (IsRefusal (source_of (table_view table.now))) }
{
    let name = sized_at(alloc, table, "name", MAX_NAME)?;
    let plain = format_at(alloc, table, "format")?;
    let format = delimited_at(alloc, table, "delimiter", plain)?;
    let columns = parts_at(alloc, table, "columns")?;
    Ok(Source {
        name,
        format,
        columns,
    })
}
