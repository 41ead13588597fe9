//! `Different`, the different values of a column.

ghost use Rattle.std.specs.Prelude.{◌≡◌, [], length, OnOk};
ghost use Rattle.std.specs.BTreeSet.{insert_key};
ghost use Rattle.event_value.specs.Order.{value_order};

use event_value::{Copies, Memory, Value};
use std::alloc::Global;
use std::collections::BTreeSet;
use std::marker::Model;

/// Different values. Contracts see the list of them in order.
#[derive(Drop)]
pub struct Different {
    values: BTreeSet<Value>,
}

impl Model for Different {
    ghost use Rattle.std.specs.Prelude.{List};
    ghost use Rattle.event_value.specs.declared.value.Value.{Value as Element};

    ghost Value = { List Element };

    ghost view = { λ d. d.values.keys };
}

impl Different {
    /// No values. It takes no memory.
    pub fn none(alloc: Global) -> Self
        ensures { result ≡ [] }
    {
        Different {
            values: BTreeSet::new(alloc),
        }
    }

    /// Puts a copy of a value into its place, unless it is there.
    ///
    /// # Errors
    /// `Memory` where there was none for it.
    pub fn insert(&mut self, value: &Value) -> Result<(), Memory>
        ensures { OnOk result (self.new ≡ insert_key value_order self.old value.now) }
    {
        self.put(value.copy()?)
    }

    fn put(&mut self, value: Value) -> Result<(), Memory>
        ensures { OnOk result (self.new ≡ insert_key value_order self.old value) }
    {
        self.values.insert(value)?;
        Ok(())
    }

    /// How many there are. It takes no memory.
    pub fn count(&self) -> u64
        ensures { result ≡ length self.now }
    {
        self.values.len() as u64
    }
}
