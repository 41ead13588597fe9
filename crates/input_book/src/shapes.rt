//! The types of values: one of another type is misshaped.

ghost use Rattle.std.specs.Prelude.{◌≡◌, IfOk, IfErr, Ok};
ghost use Rattle.toml.specs.Data.{as_str, as_integer, as_bool, as_array, as_table};
ghost use Rattle.toml.specs.View.{view, items_view, table_view};
ghost use Rattle.input_book.specs.Key.{key_text};
ghost use Rattle.input_book.specs.Readers.{typed};
ghost use Rattle.input_book.specs.Refusals.{IsRefusal};

use crate::InputErr;
use crate::key::Key;
use crate::refusals::refused;
use std::alloc::Global;
use toml::{Table, Value};

// The text that a value is.
pub fn text_in<'t>(alloc: Global, key: Key<'_>, value: &'t Value) -> Result<&'t str, InputErr>
    ensures ok { IfOk result (λ text.
        typed as_str (key_text key.entry) (view value.now) ≡ Ok text.now) }
    ensures err { IfErr result (IsRefusal (typed as_str (key_text key.entry) (view value.now))) }
{
    match value.as_str() {
        Some(text) => Ok(text),
        None => Err(refused(alloc, InputErr::Shape, key)),
    }
}

// The whole number that a value is.
pub fn number_in(alloc: Global, key: Key<'_>, value: &Value) -> Result<i64, InputErr>
    ensures ok { IfOk result (λ number.
        typed as_integer (key_text key.entry) (view value.now) ≡ Ok number) }
    ensures err { IfErr result (IsRefusal
        (typed as_integer (key_text key.entry) (view value.now))) }
{
    match value.as_integer() {
        Some(number) => Ok(number),
        None => Err(refused(alloc, InputErr::Shape, key)),
    }
}

// The true or false that a value is.
pub fn bool_in(alloc: Global, key: Key<'_>, value: &Value) -> Result<bool, InputErr>
    ensures ok { IfOk result (λ answer.
        typed as_bool (key_text key.entry) (view value.now) ≡ Ok answer) }
    ensures err { IfErr result (IsRefusal (typed as_bool (key_text key.entry) (view value.now))) }
{
    match value.as_bool() {
        Some(answer) => Ok(answer),
        None => Err(refused(alloc, InputErr::Shape, key)),
    }
}

// The entries of the list that a value is.
pub fn list_in<'t>(alloc: Global, key: Key<'_>, value: &'t Value) -> Result<&'t [Value], InputErr>
    ensures ok { IfOk result (λ items.
        typed as_array (key_text key.entry) (view value.now) ≡ Ok (items_view items.now)) }
    ensures err { IfErr result (IsRefusal (typed as_array (key_text key.entry) (view value.now))) }
{
    match value.as_array() {
        Some(items) => Ok(items.as_slice()),
        None => Err(refused(alloc, InputErr::Shape, key)),
    }
}

// The table that a value is.
pub fn table_in<'t>(alloc: Global, key: Key<'_>, value: &'t Value) -> Result<&'t Table, InputErr>
    ensures ok { IfOk result (λ table.
        typed as_table (key_text key.entry) (view value.now) ≡ Ok (table_view table.now)) }
    ensures err { IfErr result (IsRefusal (typed as_table (key_text key.entry) (view value.now))) }
{
    match value.as_table() {
        Some(table) => Ok(table),
        None => Err(refused(alloc, InputErr::Shape, key)),
    }
}
