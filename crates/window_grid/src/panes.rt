//! `Panes`, windows with the running aggregates of the rows that they hold.

ghost use Rattle.std.specs.Prelude.{◌≡◌, [], map, IfOk, OnOk};
ghost use Rattle.row_groups.specs.Groups.{with_item};
ghost use Rattle.row_groups.specs.Tallies.{tallies_start, tallies_with};
ghost use Rattle.std.specs.BTreeMap.{insert_entry};
ghost use Rattle.window_grid.specs.Panes.{pane_order};
ghost use Rattle.window_grid.specs.State.{closed_at, kept_at, row_of};

use crate::Pane;
use event_value::{Aggregate, Copies, Memory, Seq, Stamped};
use row_groups::Tallies;
use std::alloc::Global;
use std::collections::BTreeMap;
use std::marker::Model;
use tick_time::Moment;

/// Windows with their running aggregates. Contracts see the list of both, in the windows' order.
#[derive(Drop)]
pub struct Panes {
    panes: BTreeMap<Pane, Tallies>,
}

impl Model for Panes {
    ghost use Rattle.window_grid.specs.State.{Tallied};

    ghost Value = { Tallied };

    ghost view = { λ p. p.panes.entries };
}

impl Panes {
    /// No windows. It takes no memory.
    pub fn none(alloc: Global) -> Self
        ensures { result ≡ [] }
    {
        Panes {
            panes: BTreeMap::new(alloc),
        }
    }

    /// Adds a row to a window, which is new where it isn't there.
    ///
    /// # Errors
    /// `Memory` where there was none for it; the windows are then to be given up.
    pub fn add(
        &mut self,
        alloc: Global,
        pane: &Pane,
        aggregates: &[Aggregate],
        row: &Stamped,
    ) -> Result<(), Memory>
        ensures { OnOk result (self.new ≡ with_item pane_order (tallies_start aggregates.now)
            tallies_with self.old pane.now row.now) }
    {
        match self.panes.get_mut(pane) {
            Some(tallies) => {
                tallies.add(row)?;
                Ok(())
            }
            None => {
                let mut first = Tallies::start(alloc, aggregates)?;
                first.add(row)?;
                self.put(pane.copy()?, first)?;
                Ok(())
            }
        }
    }

    fn put(&mut self, pane: Pane, tallies: Tallies) -> Result<(), Memory>
        ensures { OnOk result (self.new ≡ insert_entry pane_order self.old pane tallies) }
    {
        self.panes.insert(pane, tallies)?;
        Ok(())
    }

    /// Takes the windows out that end at a moment or later.
    ///
    /// # Errors
    /// `Memory` where there was none to divide them.
    pub fn take_from(&mut self, alloc: Global, upto: Moment) -> Result<Self, Memory>
        ensures closed { OnOk result (self.new ≡ closed_at upto self.old) }
        ensures kept { IfOk result (λ kept. kept ≡ kept_at upto self.old) }
    {
        let first = Pane {
            end: upto,
            key: Seq::empty(alloc),
        };
        let panes = self.panes.split_off(&first)?;
        Ok(Panes { panes })
    }

    /// The row of each window.
    ///
    /// # Errors
    /// `Memory` where there was none for them.
    pub fn rows(&self, alloc: Global) -> Result<Seq<Stamped>, Memory>
        ensures { IfOk result (λ rows. rows ≡ map row_of self.now) }
    {
        let mut rows = Seq::empty(alloc);
        for (pane, tallies) in &self.panes {
            let mut values = pane.key.copy()?;
            tallies.push_values(&mut values)?;
            rows.push(Stamped {
                time: pane.end,
                values,
            })?;
        }
        Ok(rows)
    }
}
