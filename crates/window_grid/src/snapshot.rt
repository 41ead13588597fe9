//! `Snapshot`, a window for each time.

ghost use Rattle.std.specs.Prelude.{◌≡◌};
ghost use Rattle.window_grid.specs.Snapshot.{snapshot_fits, snapshot_windows};
ghost use Rattle.window_grid.specs.SnapshotLaws.{snapshot_windows-sound};

use crate::{Windowed, Windows};
use event_value::{Aggregate, Copies, Memory, Seq};
use std::alloc::Global;
use tick_time::Moment;

/// A snapshot: a window for each time, of the rows at that time.
pub type Snapshot = Windowed<SnapshotSpec>;

/// What a snapshot is begun with.
#[derive(Drop)]
pub struct SnapshotSpec {
    /// How many of the first columns are the key.
    pub keys: u16,
    /// What a window gives behind the key.
    pub aggs: Seq<Aggregate>,
}

impl Copies for SnapshotSpec {
    fn copy(&self) -> Result<Self, Memory> {
        Ok(SnapshotSpec {
            keys: self.keys,
            aggs: self.aggs.copy()?,
        })
    }
}

impl Windows for SnapshotSpec {
    ghost fits = { snapshot_fits };

    ghost windows = { snapshot_windows };

    fn keys(&self) -> u16 {
        self.keys
    }

    fn aggregates(&self) -> &[Aggregate] {
        self.aggs.items()
    }

    fn ends(&self, alloc: Global, time: Moment) -> Result<Seq<Moment>, Memory> {
        let _count = time.count();
        let mut ends = Seq::empty(alloc);
        ends.push(time)?;
        Ok(ends)
    }

    ghost sound = { λ spec fits. snapshot_windows-sound spec };
}
