//! `Sliding`, the window of the last rows of each key.

ghost use Rattle.std.specs.Prelude.{◌≡◌, ◌≤◌, [], ◌∷◌, ◌++◌, IfOk, OnOk, Some, filter};
ghost use Rattle.std.specs.List.{flat_map};
ghost use Rattle.std.specs.Ordering.{nat_cmp};
ghost use Rattle.row_groups.specs.Distinct.{distinct, with_each};
ghost use Rattle.stream_op.specs.Rows.{AreInOrder};
ghost use Rattle.tick_time.specs.Span.{max_span_ticks};
ghost use Rattle.window_flow.specs.Groups.{is_within};
ghost use Rattle.window_flow.specs.Sliding.{content, moments_of, size_of, slides_at};
ghost use Rattle.window_flow.specs.Sliding.{sliding_fits, sliding_parting};
ghost use Rattle.window_flow.specs.SlidingLaws.{sliding-sound};

use crate::aggregated::row_of;
use crate::stretch::stretch_of;
use crate::{Parted, Parts};
use event_value::{Aggregate, Copies, Memory, Seq, Stamped, Value};
use std::alloc::Global;
use std::collections::BTreeSet;
use tick_time::{Moment, Span};

/// A sliding window: for each key a row at each moment at which a row of the key enters the window
/// or leaves it, where the window then holds some. It holds a row from its time on, and below its
/// time plus the size.
pub type Sliding = Parted<SlidingSpec>;

/// What a sliding window is begun with. The size is to be above 0.
#[derive(Drop)]
pub struct SlidingSpec {
    /// The size of the window.
    pub size: Span,
    /// How many of the first columns are the key.
    pub keys: u16,
    /// What the window gives behind the key.
    pub aggs: Seq<Aggregate>,
}

impl SlidingSpec {
    /// Whether a sliding window may be begun with it: the size is above 0. It takes no memory.
    pub fn fits(&self) -> bool
        ensures { result ≡ sliding_fits self.now }
    {
        self.size.ticks() > 0
    }

    // The ticks of the size.
    fn ticks(&self) -> u64
        ensures value { result ≡ size_of self.now }
        ensures in_range { result ≤ max_span_ticks }
    {
        self.size.ticks().unsigned_abs()
    }

    // Adds the row at each of some moments at which the window holds some rows.
    fn push_slides(
        &self,
        alloc: Global,
        key: &[Value],
        rows: &[Stamped],
        moments: &BTreeSet<Moment>,
        given: &mut Seq<Stamped>,
    ) -> Result<(), Memory>
        ensures { OnOk result (AreInOrder rows.now → given.new
            ≡ given.old ++ slides_at self.now key.now rows.now moments.now.keys) }
    {
        let size = self.ticks();
        for moment in moments {
            let held = held_at(size, rows, *moment);
            if !held.is_empty() {
                given.push(row_of(alloc, *moment, self.aggs.items(), key, held)?)?;
            }
        }
        Ok(())
    }
}

impl Copies for SlidingSpec {
    fn copy(&self) -> Result<Self, Memory> {
        Ok(SlidingSpec {
            size: self.size,
            keys: self.keys,
            aggs: self.aggs.copy()?,
        })
    }
}

impl Parts for SlidingSpec {
    ghost fits = { sliding_fits };

    ghost parting = { sliding_parting };

    ghost reach = { λ spec. Some (size_of spec) };

    fn columns(&self) -> u16 {
        self.keys
    }

    fn ticks_back(&self) -> Option<u64> {
        Some(self.ticks())
    }

    fn push_rows(
        &self,
        alloc: Global,
        part: &[Value],
        rows: &[Stamped],
        from: Moment,
        upto: Moment,
        given: &mut Seq<Stamped>,
    ) -> Result<(), Memory> {
        let moments = moments_within(alloc, self.ticks(), rows, from, upto)?;
        self.push_slides(alloc, part, rows, &moments, given)?;
        Ok(())
    }

    ghost sound = { λ spec fits. sliding-sound spec };
}

// The moments from one on, below another, at which rows enter or leave.
fn moments_within(
    alloc: Global,
    size: u64,
    rows: &[Stamped],
    from: Moment,
    upto: Moment,
) -> Result<BTreeSet<Moment>, Memory>
    requires { size ≤ max_span_ticks }
    ensures { IfOk result (λ moments. moments.keys ≡ distinct nat_cmp
        (filter (is_within from upto) (flat_map (moments_of size) rows.now))) }
{
    let mut moments = BTreeSet::new(alloc);
    for row in rows {
        let time = row.time.count();
        put_moment(&mut moments, time, from, upto)?;
        put_moment(&mut moments, time + size, from, upto)?;
    }
    Ok(moments)
}

// Puts a moment into its place, where it is within a stretch.
fn put_moment(
    moments: &mut BTreeSet<Moment>,
    ticks: u64,
    from: Moment,
    upto: Moment,
) -> Result<(), Memory>
    ensures { OnOk result (moments.new.keys ≡ with_each nat_cmp moments.old.keys
        (filter (is_within from upto) (ticks ∷ []))) }
{
    if from.count() <= ticks && ticks < upto.count() {
        moments.insert(Moment::of_count(ticks))?;
    }
    Ok(())
}

// The rows that the window holds at a moment.
fn held_at(size: u64, rows: &[Stamped], moment: Moment) -> &[Stamped]
    ensures { AreInOrder rows.now → result.now ≡ content size rows.now moment }
{
    let next = moment.count() + 1;
    stretch_of(rows, next.saturating_sub(size), next)
}
