//! The table that a document is.

ghost use Rattle.std.specs.Prelude.{◌≡◌, IfOk, option_map};
ghost use Rattle.toml.specs.View.{table_view};
ghost use Rattle.input_book.specs.Document.{document};

use event_value::Memory;
use std::alloc::Global;
use toml::Table;

// The root table of a TOML text, or nothing where the text is none.
pub fn read_document(alloc: Global, bytes: &[u8]) -> Result<Option<Table>, Memory>
    ensures { IfOk result (λ root. option_map table_view root ≡ document bytes.now) }
{
    match toml::table_from_slice(alloc, bytes) {
        Ok(root) => Ok(Some(root)),
        Err(error) if error.is_memory() => Err(Memory),
        Err(_) => Ok(None),
    }
}
