//! `Versions`, the snapshots of a reference.

ghost use Rattle.std.specs.Prelude.{◌≡◌, IfOk, length};
ghost use Rattle.stream_joins.specs.Snapshots.{Ascend, in_force, rows_in_force};

use event_value::{Copies, Memory, Seq, Stamped};
use std::marker::Model;
use tick_time::Moment;

/// The snapshots of a reference, each in force from a moment on. Contracts see the list of these
/// moments, which ascend, and the list of the rows of each.
#[derive(Drop)]
pub struct Versions {
    effective: Seq<Moment>,
    rows: Seq<Seq<Stamped>>,
}

impl Model for Versions {
    ghost use Rattle.stream_joins.specs.Snapshots.{AreSnapshots, Snapshots};

    ghost Value = { Snapshots };

    ghost view = { λ v. record { effective = v.effective; rows = v.rows } };

    ghost invariant = { λ v. AreSnapshots v.effective v.rows };
}

impl Versions {
    /// The snapshots that are in force from these moments on, with the rows of each.
    ///
    /// # Errors
    /// `Memory` where there was none for the moments, or there are 2^32 of them or more.
    pub fn of(effective: &[Moment], rows: Seq<Seq<Stamped>>) -> Result<Self, Memory>
        requires ascending { Ascend effective.now }
        requires paired { length effective.now ≡ length rows }
        ensures { IfOk result (λ versions.
            versions ≡ record { effective = effective.now; rows = rows }) }
    {
        if effective.len() > u32::MAX as usize {
            return Err(Memory);
        }
        let effective = Seq::of(rows.allocator(), effective)?;
        Ok(Versions { effective, rows })
    }

    /// The place of the snapshot that is in force at a time: the last that is so from a moment at
    /// or before it; `None` exactly before the first. It takes no memory.
    pub fn in_force(&self, t: Moment) -> Option<u32>
        ensures { result ≡ in_force self.now.effective t }
    {
        let count = self
            .effective
            .items()
            .partition_point(|moment| *moment <= t);
        if count == 0 {
            return None;
        }
        Some((count - 1) as u32)
    }

    // The rows of the snapshot that is in force at a time, and none before the first.
    pub(crate) fn rows_in_force(&self, t: Moment) -> &[Stamped]
        ensures { result.now ≡ rows_in_force self.now t }
    {
        match self.in_force(t) {
            Some(place) => self.rows.items()[place as usize].items(),
            None => &[],
        }
    }
}

impl Copies for Versions {
    fn copy(&self) -> Result<Self, Memory> {
        Ok(Versions {
            effective: self.effective.copy()?,
            rows: self.rows.copy()?,
        })
    }
}
