//! `Tally`, an aggregate of the rows of a group so far.

ghost use Rattle.std.specs.Prelude.{◌≡◌, IfOk, OnOk, IfSome, IfNone, Some, None};
ghost use Rattle.row_groups.specs.Columns.{known_value};
ghost use Rattle.row_groups.specs.Keys.{value_at};
ghost use Rattle.row_groups.specs.Tallies as tallies;

use crate::Running;
use crate::running::{count_value, one_more};
use event_value::{AggKind, Aggregate, Memory, Stamped, Value};
use std::alloc::Global;

/// An aggregate of the rows so far.
#[derive(Drop)]
pub enum Tally {
    /// The number of the rows.
    Rows(u64),
    /// An aggregate of the values of a column.
    Column(u16, Running),
    /// An aggregate without a column, which has no values.
    Nothing(Running),
}

impl Tally {
    /// The aggregate of no rows. It takes no memory.
    pub fn start(alloc: Global, aggregate: &Aggregate) -> Self
        ensures { result ≡ tallies.tally_start aggregate.now }
    {
        match aggregate.column {
            Some(column) => Tally::Column(column, Running::start(alloc, aggregate.kind)),
            None => Tally::without_column(alloc, aggregate.kind),
        }
    }

    fn without_column(alloc: Global, kind: AggKind) -> Self
        ensures { result ≡ tallies.tally_start_by None kind }
    {
        match kind {
            AggKind::Count => Tally::Rows(0),
            _ => Tally::Nothing(Running::start(alloc, kind)),
        }
    }

    /// Adds a row.
    ///
    /// # Errors
    /// `Memory` where there was none for a copy of a value.
    pub fn add(&mut self, row: &Stamped) -> Result<(), Memory>
        ensures { OnOk result (self.new ≡ tallies.tally_with row.now self.old) }
    {
        match self {
            Tally::Rows(count) => *count = one_more(*count),
            Tally::Column(column, running) => {
                if let Some(value) = known_at(row.values.items(), *column) {
                    running.add(value)?;
                }
            }
            Tally::Nothing(_) => {}
        }
        Ok(())
    }

    /// What the aggregate has come to.
    ///
    /// # Errors
    /// `Memory` where there was none for a copy of it.
    pub fn value(&self) -> Result<Value, Memory>
        ensures { IfOk result (λ value. value ≡ tallies.tally_value self.now) }
    {
        match self {
            Tally::Rows(count) => Ok(count_value(*count)),
            Tally::Column(_, running) | Tally::Nothing(running) => running.value(),
        }
    }
}

// The value of a column, where there is one.
fn known_at(values: &[Value], column: u16) -> Option<&Value>
    ensures some { IfSome result (λ value.
        known_value (value_at column values.now) ≡ Some value.now) }
    ensures none { IfNone result (known_value (value_at column values.now) ≡ None) }
{
    match values.get(column as usize) {
        None | Some(Value::Null) => None,
        Some(value) => Some(value),
    }
}
