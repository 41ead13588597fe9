//! `Groups`, rows by their keys.

ghost use Rattle.std.specs.Prelude.{◌≡◌, [], ◌++◌, true, IfOk, OnOk, map, drop};
ghost use Rattle.std.specs.List.{flat_map};
ghost use Rattle.row_groups.specs.Groups.{with_item};
ghost use Rattle.row_groups.specs.Keys.{key_order};
ghost use Rattle.std.specs.BTreeMap.{insert_entry};
ghost use Rattle.window_flow.specs.Groups.{EachInOrder, aggregated_by, given_by, groups_of, with_last};

use crate::Parts;
use crate::aggregated::row_of;
use event_value::{Aggregate, Copies, Memory, Seq, Stamped, Value};
use row_groups::key_of;
use std::alloc::Global;
use std::collections::BTreeMap;
use std::marker::Model;
use tick_time::Moment;

/// Rows by their keys. Contracts see the list of each key with its rows, in the keys' order.
#[derive(Drop)]
pub struct Groups {
    groups: BTreeMap<Seq<Value>, Seq<Stamped>>,
}

impl Model for Groups {
    ghost use Rattle.window_flow.specs.Groups.{Grouped};

    ghost Value = { Grouped };

    ghost view = { λ g. g.groups.entries };
}

impl Groups {
    /// Rows by the values of so many columns, behind so many others.
    ///
    /// # Errors
    /// `Memory` where there was none for copies of them.
    pub fn of(alloc: Global, others: u16, columns: u16, rows: &[Stamped]) -> Result<Self, Memory>
        ensures { IfOk result (λ groups. groups ≡ groups_of others columns rows.now) }
    {
        let mut groups = Groups::none(alloc);
        for row in rows {
            let key = key_of(alloc, columns, behind(row.values.items(), others))?;
            groups.add(alloc, key, row)?;
        }
        Ok(groups)
    }

    fn none(alloc: Global) -> Self
        ensures { result ≡ [] }
    {
        Groups {
            groups: BTreeMap::new(alloc),
        }
    }

    // Adds a copy of a row to those of its key.
    fn add(&mut self, alloc: Global, key: Seq<Value>, row: &Stamped) -> Result<(), Memory>
        ensures { OnOk result (self.new ≡ with_item key_order [] with_last self.old key row.now) }
    {
        match self.groups.get_mut(&key) {
            Some(rows) => {
                rows.push(row.copy()?)?;
                Ok(())
            }
            None => {
                let mut first = Seq::empty(alloc);
                first.push(row.copy()?)?;
                self.put(key, first)?;
                Ok(())
            }
        }
    }

    fn put(&mut self, key: Seq<Value>, rows: Seq<Stamped>) -> Result<(), Memory>
        ensures { OnOk result (self.new ≡ insert_entry key_order self.old key rows) }
    {
        self.groups.insert(key, rows)?;
        Ok(())
    }

    /// Adds what each part gives from a moment on, below another, where the groups are parts.
    ///
    /// # Errors
    /// `Memory` where there was none for it.
    pub fn push_given<S: Parts>(
        &self,
        alloc: Global,
        spec: &S,
        from: Moment,
        upto: Moment,
        given: &mut Seq<Stamped>,
    ) -> Result<(), Memory>
        requires { S.fits spec.now ≡ true }
        ensures { OnOk result (EachInOrder self.now
            → given.new ≡ given.old ++ flat_map (given_by (S.parting spec.now) from upto) self.now) }
    {
        for (part, rows) in &self.groups {
            spec.push_rows(alloc, part.items(), rows.items(), from, upto, given)?;
        }
        Ok(())
    }

    /// Adds the row of each key at a time.
    ///
    /// # Errors
    /// `Memory` where there was none for it.
    pub fn push_aggregated(
        &self,
        alloc: Global,
        time: Moment,
        aggregates: &[Aggregate],
        given: &mut Seq<Stamped>,
    ) -> Result<(), Memory>
        ensures { OnOk result (given.new
            ≡ given.old ++ map (aggregated_by time aggregates.now) self.now) }
    {
        for (key, rows) in &self.groups {
            given.push(row_of(alloc, time, aggregates, key.items(), rows.items())?)?;
        }
        Ok(())
    }
}

// What is behind so many values.
fn behind(values: &[Value], others: u16) -> &[Value]
    ensures { result.now ≡ drop others values.now }
{
    let others = others as usize;
    if others <= values.len() {
        &values[others..]
    } else {
        &values[values.len()..]
    }
}
