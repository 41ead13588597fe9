//! The tables of partitions and segments.

ghost use Rattle.std.specs.Prelude.{◌≡◌, [], false, IfOk, IfErr, Ok};
ghost use Rattle.toml.specs.Data.{as_bool};
ghost use Rattle.toml.specs.View.{table_view};
ghost use Rattle.tick_time.specs.MomentReading.{moment_of};
ghost use Rattle.input_book.specs.Ranges.{any};
ghost use Rattle.input_book.specs.Readers.{list_of, needed, optional, table_of, text_of, value_of};
ghost use Rattle.input_book.specs.Refusals.{IsRefusal};
ghost use Rattle.input_book.specs.Tables.{partition_of, segment_of};

use crate::InputErr;
use crate::key::Key;
use crate::limits::MAX_FILE;
use crate::members::{member_of, only, present};
use crate::parts::{FromTable, parts_of};
use crate::refusals::ranged;
use crate::shapes::{bool_in, list_in, text_in};
use crate::texts::sized_at;
use event_value::Seq;
use input_types::{Partition, SegmentName};
use std::alloc::Global;
use tick_time::{Moment, read_moment};
use toml::Table;

// The moment at a key.
pub fn moment_at(alloc: Global, table: &Table, key: &str) -> Result<Moment, InputErr>
    ensures ok { IfOk result (λ moment.
        needed key.now (text_of moment_of) (table_view table.now) ≡ Ok moment) }
    ensures err { IfErr result (IsRefusal
        (needed key.now (text_of moment_of) (table_view table.now))) }
{
    let text = text_in(alloc, Key::Member(key), present(alloc, table, key)?)?;
    ranged(alloc, Key::Member(key), read_moment(text.as_bytes()))
}

impl FromTable for SegmentName {
    ghost read_as = { segment_of };

    #[tactic(auto, unfolding(crate::specs::Tables::segment_of))]
    fn from_table(alloc: Global, table: &Table) -> Result<Self, InputErr> {
        only(alloc, &["file", "through"], table)?;
        let file = sized_at(alloc, table, "file", MAX_FILE)?;
        let through = moment_at(alloc, table, "through")?;
        Ok(SegmentName { file, through })
    }
}

fn ended_at(alloc: Global, table: &Table, key: &str) -> Result<bool, InputErr>
    ensures ok { IfOk result (λ ended.
        optional key.now false (value_of as_bool any) (table_view table.now) ≡ Ok ended) }
    ensures err { IfErr result (IsRefusal
        (optional key.now false (value_of as_bool any) (table_view table.now))) }
{
    match member_of(table, key) {
        None => Ok(false),
        Some(value) => bool_in(alloc, Key::Member(key), value),
    }
}

fn segments_at(alloc: Global, table: &Table, key: &str) -> Result<Seq<SegmentName>, InputErr>
    ensures ok { IfOk result (λ segments.
        optional key.now [] (list_of any (table_of segment_of)) (table_view table.now)
        ≡ Ok segments) }
    ensures err { IfErr result (IsRefusal
        (optional key.now [] (list_of any (table_of segment_of)) (table_view table.now))) }
{
    match member_of(table, key) {
        None => Ok(Seq::empty(alloc)),
        Some(value) => parts_of(alloc, key, list_in(alloc, Key::Member(key), value)?),
    }
}

impl FromTable for Partition {
    ghost read_as = { partition_of };

    #[tactic(auto, unfolding(crate::specs::Tables::partition_of))]
    fn from_table(alloc: Global, table: &Table) -> Result<Self, InputErr> {
        only(alloc, &["ended", "segments"], table)?;
        let ended = ended_at(alloc, table, "ended")?;
        let segments = segments_at(alloc, table, "segments")?;
        Ok(Partition { segments, ended })
    }
}
