//! The tables of columns.

ghost use Rattle.std.specs.Prelude.{◌≡◌, [], ◌∷◌, IfOk, IfErr, Ok};
ghost use Rattle.toml.specs.View.{table_view};
ghost use Rattle.input_book.specs.Ranges.{kind_of};
ghost use Rattle.input_book.specs.Readers.{needed, optional, text_of};
ghost use Rattle.input_book.specs.Refusals.{IsRefusal};
ghost use Rattle.input_book.specs.Tables.{column_of, path_of};

use crate::InputErr;
use crate::key::Key;
use crate::limits::{MAX_NAME, MAX_PATH};
use crate::lists::items_to;
use crate::members::{member_of, only, present};
use crate::parts::FromTable;
use crate::refusals::ranged;
use crate::shapes::{list_in, text_in};
use crate::texts::{sized_at, texts_of};
use event_value::{Column, Copies, Kind, Seq, Text};
use std::alloc::Global;
use toml::Table;

fn kind_of(word: &str) -> Option<Kind>
    ensures { result ≡ kind_of word.now }
{
    if word == "bigint" {
        Some(Kind::Big)
    } else if word == "fixed" {
        Some(Kind::Fixed)
    } else if word == "nvarchar(max)" {
        Some(Kind::Text)
    } else if word == "datetime" {
        Some(Kind::Moment)
    } else if word == "bit" {
        Some(Kind::Bit)
    } else {
        None
    }
}

fn kind_at(alloc: Global, table: &Table, key: &str) -> Result<Kind, InputErr>
    ensures ok { IfOk result (λ kind.
        needed key.now (text_of kind_of) (table_view table.now) ≡ Ok kind) }
    ensures err { IfErr result (IsRefusal
        (needed key.now (text_of kind_of) (table_view table.now))) }
{
    let word = text_in(alloc, Key::Member(key), present(alloc, table, key)?)?;
    ranged(alloc, Key::Member(key), kind_of(word))
}

fn name_alone(alloc: Global, name: &Text) -> Result<Seq<Text>, InputErr>
    ensures ok { IfOk result (λ path. path ≡ name.now ∷ []) }
    ensures err { IfErr result (λ error. error ≡ InputErr.Memory) }
{
    let mut path = Seq::empty(alloc);
    path.push(name.copy()?)?;
    Ok(path)
}

// The path at a key; a column without one has its name alone.
fn path_at(alloc: Global, table: &Table, key: &str, name: &Text) -> Result<Seq<Text>, InputErr>
    ensures ok { IfOk result (λ path.
        optional key.now (name.now ∷ []) path_of (table_view table.now) ≡ Ok path) }
    ensures err { IfErr result (IsRefusal
        (optional key.now (name.now ∷ []) path_of (table_view table.now))) }
{
    match member_of(table, key) {
        None => name_alone(alloc, name),
        Some(value) => {
            let items = list_in(alloc, Key::Member(key), value)?;
            let items = ranged(alloc, Key::Member(key), items_to(MAX_PATH, items))?;
            texts_of(alloc, key, items)
        }
    }
}

impl FromTable for Column {
    ghost read_as = { column_of };

    #[tactic(auto, unfolding(crate::specs::Tables::column_of))]
    fn from_table(alloc: Global, table: &Table) -> Result<Self, InputErr> {
        only(alloc, &["name", "kind", "path"], table)?;
        let name = sized_at(alloc, table, "name", MAX_NAME)?;
        let kind = kind_at(alloc, table, "kind")?;
        let path = path_at(alloc, table, "path", &name)?;
        Ok(Column { name, kind, path })
    }
}
