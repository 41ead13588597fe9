//! Texts, alone and in lists.

ghost use Rattle.std.specs.Prelude.{◌≡◌, IfOk, IfErr, Ok, option_map};
ghost use Rattle.toml.specs.View.{items_view, table_view};
ghost use Rattle.input_book.specs.Ranges.{any, sized};
ghost use Rattle.input_book.specs.Readers.{entries_from, needed, text_of};
ghost use Rattle.input_book.specs.Refusals.{IsRefusal};

use crate::InputErr;
use crate::key::Key;
use crate::members::present;
use crate::refusals::ranged;
use crate::shapes::text_in;
use event_value::{Seq, Text};
use std::alloc::Global;
use toml::{Table, Value};

fn sized(most: usize, text: &str) -> Option<&str>
    ensures { option_map (λ found. found.now) result ≡ sized most text.now }
{
    if 1 <= text.len() && text.len() <= most {
        Some(text)
    } else {
        None
    }
}

// The text of 1 to so many bytes at a key.
pub fn sized_at(alloc: Global, table: &Table, key: &str, most: usize) -> Result<Text, InputErr>
    ensures ok { IfOk result (λ text.
        needed key.now (text_of (sized most)) (table_view table.now) ≡ Ok text) }
    ensures err { IfErr result (IsRefusal
        (needed key.now (text_of (sized most)) (table_view table.now))) }
{
    let text = text_in(alloc, Key::Member(key), present(alloc, table, key)?)?;
    let text = ranged(alloc, Key::Member(key), sized(most, text))?;
    Ok(Text::of(alloc, text.as_bytes())?)
}

// The texts of the list at a key.
pub fn texts_of(alloc: Global, list: &str, items: &[Value]) -> Result<Seq<Text>, InputErr>
    ensures ok { IfOk result (λ texts.
        entries_from 0 (text_of any) list.now (items_view items.now) ≡ Ok texts) }
    ensures err { IfErr result (IsRefusal
        (entries_from 0 (text_of any) list.now (items_view items.now))) }
{
    let mut texts = Vec::with_capacity(alloc, items.len())?;
    for (index, value) in items.iter().enumerate() {
        let text = text_in(alloc, Key::Entry(list, index), value)?;
        texts.push(Text::of(alloc, text.as_bytes())?)?;
    }
    Ok(Seq::from_vec(texts))
}
