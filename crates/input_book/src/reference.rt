//! The tables of references and snapshots.

ghost use Rattle.std.specs.Prelude.{◌≡◌, IfOk, IfErr, Ok};
ghost use Rattle.toml.specs.View.{table_view};
ghost use Rattle.input_book.specs.Ranges.{any};
ghost use Rattle.input_book.specs.Readers.{list_of, needed, table_of};
ghost use Rattle.input_book.specs.Refusals.{IsRefusal};
ghost use Rattle.input_book.specs.Tables.{reference_of, snapshot_of};

use crate::InputErr;
use crate::key::Key;
use crate::limits::MAX_FILE;
use crate::members::{only, present};
use crate::partition::moment_at;
use crate::parts::{FromTable, parts_of};
use crate::shapes::list_in;
use crate::source::{Source, source_of};
use crate::texts::sized_at;
use event_value::Seq;
use input_types::{Reference, SnapshotName};
use std::alloc::Global;
use toml::Table;

impl FromTable for SnapshotName {
    ghost read_as = { snapshot_of };

    #[tactic(auto, unfolding(crate::specs::Tables::snapshot_of))]
    fn from_table(alloc: Global, table: &Table) -> Result<Self, InputErr> {
        only(alloc, &["file", "effective"], table)?;
        let file = sized_at(alloc, table, "file", MAX_FILE)?;
        let effective = moment_at(alloc, table, "effective")?;
        Ok(SnapshotName { file, effective })
    }
}

fn snapshots_at(alloc: Global, table: &Table, key: &str) -> Result<Seq<SnapshotName>, InputErr>
    ensures ok { IfOk result (λ snapshots.
        needed key.now (list_of any (table_of snapshot_of)) (table_view table.now)
        ≡ Ok snapshots) }
    ensures err { IfErr result (IsRefusal
        (needed key.now (list_of any (table_of snapshot_of)) (table_view table.now))) }
{
    let value = present(alloc, table, key)?;
    parts_of(alloc, key, list_in(alloc, Key::Member(key), value)?)
}

impl FromTable for Reference {
    ghost read_as = { reference_of };

    #[tactic(auto, unfolding(crate::specs::Tables::reference_of))]
    fn from_table(alloc: Global, table: &Table) -> Result<Self, InputErr> {
        let keys = ["name", "format", "delimiter", "columns", "snapshots"];
        only(alloc, &keys, table)?;
        let Source {
            name,
            format,
            columns,
        } = source_of(alloc, table)?;
        let snapshots = snapshots_at(alloc, table, "snapshots")?;
        Ok(Reference {
            name,
            format,
            columns,
            snapshots,
        })
    }
}
