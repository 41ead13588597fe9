//! `Grid`, windows of one size that end at the multiples of a hop.

ghost use Rattle.std.specs.Prelude.{◌≡◌, ◌<◌, ◌≤◌, ◌++◌, IfOk, OnOk, filter};
ghost use Rattle.tick_time.specs.Moment.{end_ticks};
ghost use Rattle.tick_time.specs.Span.{max_span_ticks};
ghost use Rattle.window_grid.specs.Grid as spec;
ghost use Rattle.window_grid.specs.Grid.{grid_fits, grid_windows};
ghost use Rattle.window_grid.specs.GridLaws.{grid_windows-sound};
ghost use Rattle.window_grid.specs.State.{end_within, is_moment};

use crate::{Windowed, Windows};
use event_value::{Aggregate, Copies, Memory, Seq};
use std::alloc::Global;
use tick_time::{Moment, Span};

/// A grid: a window of this size ends at each multiple of the hop, counted from moment 0, and
/// holds the rows after its start up to its end.
pub type Grid = Windowed<GridSpec>;

/// What a grid is begun with. The size and the hop are to be above 0.
#[derive(Drop)]
pub struct GridSpec {
    /// The size of a window.
    pub size: Span,
    /// From one end to the next; the size itself where windows tumble.
    pub hop: Span,
    /// Of no effect yet.
    pub offset: Span,
    /// How many of the first columns are the key.
    pub keys: u16,
    /// What a window gives behind the key.
    pub aggs: Seq<Aggregate>,
}

impl GridSpec {
    /// Whether a grid may be begun with it: the size and the hop are above 0. It takes no memory.
    pub fn fits(&self) -> bool
        ensures { result ≡ grid_fits self.now }
    {
        self.size.ticks() > 0 && self.hop.ticks() > 0
    }
}

impl Copies for GridSpec {
    fn copy(&self) -> Result<Self, Memory> {
        Ok(GridSpec {
            size: self.size,
            hop: self.hop,
            offset: self.offset,
            keys: self.keys,
            aggs: self.aggs.copy()?,
        })
    }
}

impl Windows for GridSpec {
    ghost fits = { grid_fits };

    ghost windows = { grid_windows };

    fn keys(&self) -> u16 {
        self.keys
    }

    fn aggregates(&self) -> &[Aggregate] {
        self.aggs.items()
    }

    fn ends(&self, alloc: Global, time: Moment) -> Result<Seq<Moment>, Memory> {
        let size = self.size.ticks().unsigned_abs();
        let hop = self.hop.ticks().unsigned_abs();
        ends_of(alloc, size, hop, time.count())
    }

    ghost sound = { grid_windows-sound };
}

fn ends_of(alloc: Global, size: u64, hop: u64, time: u64) -> Result<Seq<Moment>, Memory>
    requires above { 0 < hop }
    requires short { size ≤ max_span_ticks }
    requires near { hop ≤ max_span_ticks }
    requires moment { time ≤ end_ticks }
    ensures { IfOk result (λ ends. ends ≡ filter is_moment (spec.grid_ends size hop time)) }
{
    let first = (time + (hop - 1)) / hop;
    let mut ends = Seq::empty(alloc);
    for place in 0..size / hop + 1 {
        push_end(&mut ends, (first + place) * hop, time + size)?;
    }
    Ok(ends)
}

// Adds an end, where it is below a limit and there is such a moment.
fn push_end(ends: &mut Seq<Moment>, end: u64, limit: u64) -> Result<(), Memory>
    ensures { OnOk result (ends.new ≡ ends.old ++ end_within end limit) }
{
    if end >= limit {
        return Ok(());
    }
    if end > LAST {
        return Ok(());
    }
    ends.push(Moment::of_count(end))
}

// The last moment.
const LAST: u64 = tick_time::END as u64;
