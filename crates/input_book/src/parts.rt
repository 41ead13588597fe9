//! The parts of a document that are tables, alone and in lists.

ghost use Rattle.std.specs.Prelude.{◌≡◌, IfOk, IfErr, Ok, Result};
ghost use Rattle.toml.specs.Data.{Members};
ghost use Rattle.toml.specs.View.{view, items_view, table_view};
ghost use Rattle.input_book.specs.Key.{key_text};
ghost use Rattle.input_book.specs.Ranges.{some_items};
ghost use Rattle.input_book.specs.Readers.{entries_from, list_of, needed, table_of};
ghost use Rattle.input_book.specs.Refusals.{IsRefusal};
ghost use Rattle.input_book.specs.declared.input_err.InputErr.{InputErr};

use crate::InputErr;
use crate::key::Key;
use crate::lists::some_items;
use crate::members::present;
use crate::refusals::{ranged, read_inside};
use crate::shapes::{list_in, table_in};
use event_value::Seq;
use std::alloc::Global;
use toml::{Table, Value};

// A part that is read from a table.
pub trait FromTable: Drop {
    // what a table is read as
    ghost read_as: { Members → Result Self InputErr };

    fn from_table(alloc: Global, table: &Table) -> Result<Self, InputErr>
        ensures ok { IfOk result (λ part. read_as (table_view table.now) ≡ Ok part) }
        ensures err { IfErr result (IsRefusal (read_as (table_view table.now))) };
}

// The part at a key.
pub fn part_at<T: FromTable>(alloc: Global, key: Key<'_>, value: &Value) -> Result<T, InputErr>
    ensures ok { IfOk result (λ part.
        table_of T.read_as (key_text key.entry) (view value.now) ≡ Ok part) }
    ensures err { IfErr result (IsRefusal
        (table_of T.read_as (key_text key.entry) (view value.now))) }
{
    let table = table_in(alloc, key, value)?;
    read_inside(alloc, key, T::from_table(alloc, table))
}

// The parts of the list at a key.
pub fn parts_of<T: FromTable>(
    alloc: Global,
    list: &str,
    items: &[Value],
) -> Result<Seq<T>, InputErr>
    ensures ok { IfOk result (λ parts.
        entries_from 0 (table_of T.read_as) list.now (items_view items.now) ≡ Ok parts) }
    ensures err { IfErr result (IsRefusal
        (entries_from 0 (table_of T.read_as) list.now (items_view items.now))) }
{
    let mut parts = Vec::with_capacity(alloc, items.len())?;
    for (index, value) in items.iter().enumerate() {
        parts.push(part_at(alloc, Key::Entry(list, index), value)?)?;
    }
    Ok(Seq::from_vec(parts))
}

// The parts of a list that has to be there and to have some.
pub fn parts_at<T: FromTable>(alloc: Global, table: &Table, key: &str) -> Result<Seq<T>, InputErr>
    ensures ok { IfOk result (λ parts.
        needed key.now (list_of some_items (table_of T.read_as)) (table_view table.now)
        ≡ Ok parts) }
    ensures err { IfErr result (IsRefusal
        (needed key.now (list_of some_items (table_of T.read_as)) (table_view table.now))) }
{
    let items = list_in(alloc, Key::Member(key), present(alloc, table, key)?)?;
    let items = ranged(alloc, Key::Member(key), some_items(items))?;
    parts_of(alloc, key, items)
}
