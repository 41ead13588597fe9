//! `Tallies`, the aggregates of the rows of a group so far.

ghost use Rattle.std.specs.Prelude.{◌≡◌, [], ◌++◌, List, IfOk, OnOk};
ghost use Rattle.event_value.specs.declared.aggregate.Aggregate.{Aggregate};
ghost use Rattle.event_value.specs.declared.record.Stamped.{Stamped};
ghost use Rattle.row_groups.specs.Aggregates.{aggregate_values};
ghost use Rattle.row_groups.specs.Tallies as spec;

use crate::Tally;
use event_value::{Aggregate, Memory, Seq, Stamped, Value};
use std::alloc::Global;
use std::marker::Model;

/// The aggregates of the rows of a group so far. Contracts see the list of them.
#[derive(Drop)]
pub struct Tallies {
    tallies: Vec<Tally>,
}

impl Model for Tallies {
    ghost use Rattle.std.specs.Prelude.{List};
    ghost use Rattle.row_groups.specs.declared.tally.Tally.{Tally as Element};

    ghost Value = { List Element };

    ghost view = { λ t. t.tallies.items };
}

impl Tallies {
    /// The aggregates of no rows.
    ///
    /// # Errors
    /// `Memory` where there was none for them.
    pub fn start(alloc: Global, aggregates: &[Aggregate]) -> Result<Self, Memory>
        ensures { IfOk result (λ started. started ≡ spec.tallies_of aggregates.now []) }
    {
        let mut tallies = Vec::new(alloc);
        for aggregate in aggregates {
            tallies.push(Tally::start(alloc, aggregate))?;
        }
        Ok(Tallies { tallies })
    }

    /// Adds a row.
    ///
    /// # Errors
    /// `Memory` where there was none for a copy of a value; the aggregates are then to be given up.
    pub fn add(&mut self, row: &Stamped) -> Result<(), Memory>
        ensures { OnOk result (self.new ≡ spec.tallies_with self.old row.now) }
    {
        for tally in self.tallies.iter_mut() {
            tally.add(row)?;
        }
        Ok(())
    }

    /// Adds the values of the aggregates at the end of a list: where these are the aggregates of
    /// some rows, what each is of the whole list of them.
    ///
    /// # Errors
    /// `Memory` where there was none for the values.
    pub fn push_values(&self, values: &mut Seq<Value>) -> Result<(), Memory>
        ensures each { OnOk result (values.new ≡ values.old ++ spec.tally_values self.now) }
        ensures meaning { OnOk result ((aggregates : List Aggregate) (rows : List Stamped)
            → self.now ≡ spec.tallies_of aggregates rows
            → values.new ≡ values.old ++ aggregate_values aggregates rows) }
    {
        for tally in &self.tallies {
            values.push(tally.value()?)?;
        }
        Ok(())
    }
}
