//! The keys of a table and the values there.

ghost use Rattle.std.specs.Prelude.{◌≡◌, IfOk, IfErr, option_map, map, Ok};
ghost use Rattle.toml.specs.Data.{get_member};
ghost use Rattle.toml.specs.View.{view, table_view};
ghost use Rattle.input_book.specs.Readers.{is_known, only, present};
ghost use Rattle.input_book.specs.Refusals.{IsRefusal};

use crate::InputErr;
use crate::key::Key;
use crate::refusals::refused;
use std::alloc::Global;
use toml::{Table, Value};

// The value at a key.
pub fn member_of<'t>(table: &'t Table, key: &str) -> Option<&'t Value>
    ensures { option_map (λ v. view v.now) result ≡ get_member key.now (table_view table.now) }
{
    table.get(key)
}

// The value of a key that has to be there.
pub fn present<'t>(alloc: Global, table: &'t Table, key: &str) -> Result<&'t Value, InputErr>
    ensures ok { IfOk result (λ value.
        present key.now (table_view table.now) ≡ Ok (view value.now)) }
    ensures err { IfErr result (IsRefusal (present key.now (table_view table.now))) }
{
    match member_of(table, key) {
        Some(value) => Ok(value),
        None => Err(refused(alloc, InputErr::Missing, Key::Member(key))),
    }
}

fn is_known(known: &[&str], key: &str) -> bool
    ensures { result ≡ is_known (map (λ k. k.now) known.now) key.now }
{
    for name in known {
        if *name == key {
            return true;
        }
    }
    false
}

// No keys but these: the first other one, in the order of their bytes, is unknown.
pub fn only(alloc: Global, known: &[&str], table: &Table) -> Result<(), InputErr>
    ensures ok { IfOk result (λ passed.
        only (map (λ k. k.now) known.now) (table_view table.now) ≡ Ok passed) }
    ensures err { IfErr result (IsRefusal
        (only (map (λ k. k.now) known.now) (table_view table.now))) }
{
    for (key, _value) in table.iter() {
        if !is_known(known, key.as_str()) {
            return Err(refused(alloc, InputErr::Unknown, Key::Member(key.as_str())));
        }
    }
    Ok(())
}
