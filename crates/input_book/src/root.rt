//! The root table, and the tables of streams.

ghost use Rattle.std.specs.Prelude.{◌≡◌, [], IfOk, IfErr, Ok};
ghost use Rattle.toml.specs.View.{table_view};
ghost use Rattle.input_book.specs.Ranges.{any};
ghost use Rattle.input_book.specs.Readers.{list_of, optional, table_of};
ghost use Rattle.input_book.specs.Refusals.{IsRefusal};
ghost use Rattle.input_book.specs.Tables.{reference_of, root_of, stream_of};

use crate::InputErr;
use crate::key::Key;
use crate::members::{member_of, only};
use crate::parts::{FromTable, parts_at, parts_of};
use crate::policy::policy_at;
use crate::shapes::list_in;
use crate::source::{Source, source_of};
use event_value::Seq;
use input_types::{Inputs, Reference, Stream};
use std::alloc::Global;
use toml::Table;

impl FromTable for Stream {
    ghost read_as = { stream_of };

    #[tactic(auto, unfolding(crate::specs::Tables::stream_of))]
    fn from_table(alloc: Global, table: &Table) -> Result<Self, InputErr> {
        let keys = ["name", "format", "delimiter", "columns", "partition"];
        only(alloc, &keys, table)?;
        let Source {
            name,
            format,
            columns,
        } = source_of(alloc, table)?;
        let partitions = parts_at(alloc, table, "partition")?;
        Ok(Stream {
            name,
            format,
            columns,
            partitions,
        })
    }
}

fn references_at(alloc: Global, root: &Table, key: &str) -> Result<Seq<Reference>, InputErr>
    ensures ok { IfOk result (λ references.
        optional key.now [] (list_of any (table_of reference_of)) (table_view root.now)
        ≡ Ok references) }
    ensures err { IfErr result (IsRefusal
        (optional key.now [] (list_of any (table_of reference_of)) (table_view root.now))) }
{
    match member_of(root, key) {
        None => Ok(Seq::empty(alloc)),
        Some(value) => parts_of(alloc, key, list_in(alloc, Key::Member(key), value)?),
    }
}

// What the root table of a document says.
#[tactic(auto, unfolding(crate::specs::Tables::root_of))]
pub fn root_of(alloc: Global, root: &Table) -> Result<Inputs, InputErr>
    ensures ok { IfOk result (λ inputs. root_of (table_view root.now) ≡ Ok inputs) }
    ensures err { IfErr result (IsRefusal (root_of (table_view root.now))) }
{
    only(alloc, &["policy", "stream", "reference"], root)?;
    let policy = policy_at(alloc, root, "policy")?;
    let streams = parts_at(alloc, root, "stream")?;
    let references = references_at(alloc, root, "reference")?;
    Ok(Inputs {
        streams,
        references,
        policy,
    })
}
