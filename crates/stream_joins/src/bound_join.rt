//! `BoundJoin`, a join of two streams whose rows are no further apart than a bound says.

ghost use Rattle.std.specs.Prelude.{◌≡◌, ℕ, ℤ, ◌≤◌, ◌++◌, List, [], ◌∷◌, Bool, false, true, IfOk, OnOk, Option, Some, filter, map};
ghost use Rattle.std.specs.List.{list_any};
ghost use Rattle.event_value.specs.declared.record.Stamped.{Stamped};
ghost use Rattle.stream_joins.specs.Bound.{alone, bound_join, bound_reach, is_pair, pair_row, positive_part, rows_of};
ghost use Rattle.stream_joins.specs.BoundLaws.{bound_join-laws};
ghost use Rattle.stream_joins.specs.Specs.{bound_of};
ghost use Rattle.stream_op.specs.Rows.{AreInOrder, AreTaken, between};
ghost use Rattle.tick_time.specs.Span.{max_span_ticks};

use crate::Matches;
use crate::near::near_rows;
use crate::pairs::{join_rows, row_alone};
use event_value::{Copies, Memory, Seq, Stamped};
use row_order::put_in_order;
use std::alloc::Global;
use stream_op::{StreamOp, push_rows};
use tick_time::{Moment, Span};

/// What a join within a bound is begun with: a right row matches a left one where its time is at
/// least `low` and at most `high` behind that of the left one, and `matches` says so.
#[derive(Drop)]
pub struct BoundSpec<M> {
    /// Which rows match.
    pub matches: M,
    /// How far behind the left row the right one is at least.
    pub low: Span,
    /// How far behind the left row the right one is at most.
    pub high: Span,
    /// Whether a left row without a match comes alone.
    pub outer: bool,
    /// The number of right columns.
    pub width: u16,
}

impl<M: Matches> Copies for BoundSpec<M> {
    fn copy(&self) -> Result<Self, Memory> {
        Ok(BoundSpec {
            matches: self.matches.copy()?,
            low: self.low,
            high: self.high,
            outer: self.outer,
            width: self.width,
        })
    }
}

/// All pairs of a left and a right row that match, each at the later of their times, and where it
/// is asked for the left rows without a match. It holds all rows that it was given.
#[derive(Drop)]
pub struct BoundJoin<M> {
    spec: BoundSpec<M>,
    left: Seq<Stamped>,
    right: Seq<Stamped>,
    upto: Moment,
}

// From a moment on, below another.
#[derive(Drop)]
struct Stretch {
    from: Moment,
    upto: Moment,
}

impl<M: Matches> StreamOp for BoundJoin<M> {
    type Spec = BoundSpec<M>;

    ghost fits = { λ _. Unit {0} };

    ghost one_input = { false };

    ghost op = { λ spec. bound_join (bound_of M.pairs spec) };

    ghost reach = { λ spec. Some (bound_reach (bound_of M.pairs spec)) };

    ghost stands = { λ o spec left right w.
        (o.spec ≡ spec) × (o.left ≡ left) × (o.right ≡ right) × (o.upto ≡ w)
        × AreTaken w left right };

    fn begin(alloc: Global, spec: &BoundSpec<M>) -> Result<Self, Memory> {
        Ok(BoundJoin {
            spec: spec.copy()?,
            left: Seq::empty(alloc),
            right: Seq::empty(alloc),
            upto: Moment::zero(),
        })
    }

    fn advance(
        self,
        alloc: Global,
        left: &[Stamped],
        right: &[Stamped],
        upto: Moment,
    ) -> Result<(Self, Seq<Stamped>), Memory> {
        let mut join = self;
        let stretch = Stretch {
            from: join.upto,
            upto,
        };
        push_rows(&mut join.left, left)?;
        push_rows(&mut join.right, right)?;
        join.upto = upto;
        let (left, right) = (join.left.items(), join.right.items());
        let rows = rows_within(alloc, &join.spec, left, right, &stretch)?;
        Ok((join, rows))
    }

    ghost stands_only = { record {
      fitting = λ o spec left right w stands. tt;
      taken = λ o spec left right w stands. stands.4;
    } };

    ghost laws = { bound_join-laws (bound_of M.pairs) };
}

// The rows of a stretch. Left rows whose rows all come before it are passed over by a search.
fn rows_within<M: Matches>(
    alloc: Global,
    spec: &BoundSpec<M>,
    left: &[Stamped],
    right: &[Stamped],
    stretch: &Stretch,
) -> Result<Seq<Stamped>, Memory>
    ensures { IfOk result (λ rows. AreInOrder left.now → AreInOrder right.now
        → rows ≡ between stretch.now.from stretch.now.upto
        (bound_join (bound_of M.pairs spec.now) left.now right.now)) }
{
    let start = stretch.from.count().saturating_sub(ahead(spec.high));
    let first = left.partition_point(|row| row.time.count() < start);
    let mut rows = Seq::empty(alloc);
    for row in &left[first..] {
        add_rows(&mut rows, alloc, spec, row, right, stretch)?;
    }
    put_in_order(rows)
}

// A length where it is above 0, and else 0.
fn ahead(length: Span) -> u64
    ensures value { result ≡ positive_part length }
    ensures in_range { result ≤ max_span_ticks }
{
    length.ticks().max(0).unsigned_abs()
}

// Adds the rows of a left row that are in a stretch, the pairs in the order of the right rows.
fn add_rows<M: Matches>(
    rows: &mut Seq<Stamped>,
    alloc: Global,
    spec: &BoundSpec<M>,
    left: &Stamped,
    right: &[Stamped],
    stretch: &Stretch,
) -> Result<(), Memory>
    ensures { OnOk result (AreInOrder right.now → rows.new
        ≡ rows.old ++ between stretch.now.from stretch.now.upto
        (rows_of (bound_of M.pairs spec.now) right.now left.now)) }
{
    let near = near_rows(spec.low, spec.high, left.time, right);
    let any = add_pairs(rows, alloc, spec, left, near, stretch)?;
    if spec.outer && !any {
        add_alone(rows, spec, left, stretch)?;
    }
    Ok(())
}

// Adds the pairs of a left row with near right rows, those that are in a stretch, and says whether
// there is any pair, in the stretch or not.
fn add_pairs<M: Matches>(
    rows: &mut Seq<Stamped>,
    alloc: Global,
    spec: &BoundSpec<M>,
    left: &Stamped,
    near: &[Stamped],
    stretch: &Stretch,
) -> Result<bool, Memory>
    ensures pairs { OnOk result (rows.new ≡ rows.old ++ between stretch.now.from stretch.now.upto
        (map (pair_row left.now) (filter (is_pair (bound_of M.pairs spec.now) left.now) near.now))) }
    ensures any { IfOk result (λ any.
        any ≡ list_any (is_pair (bound_of M.pairs spec.now) left.now) near.now) }
{
    let mut any = false;
    for other in near {
        let time = left.time.max(other.time);
        let (values, others) = (left.values.items(), other.values.items());
        if spec.matches.pair(alloc, values, others, time)? {
            any = true;
            add_pair(rows, left, other, stretch)?;
        }
    }
    Ok(any)
}

// Adds the row of two rows, where it is in a stretch.
fn add_pair(
    rows: &mut Seq<Stamped>,
    left: &Stamped,
    right: &Stamped,
    stretch: &Stretch,
) -> Result<(), Memory>
    ensures { OnOk result (rows.new
        ≡ rows.old ++ between stretch.now.from stretch.now.upto (pair_row left.now right.now ∷ [])) }
{
    let time = left.time.max(right.time);
    if stretch.from <= time && time < stretch.upto {
        rows.push(join_rows(time, left, right)?)?;
    }
    Ok(())
}

// Adds the row of a left row without a match, where it is in a stretch.
fn add_alone<M: Matches>(
    rows: &mut Seq<Stamped>,
    spec: &BoundSpec<M>,
    left: &Stamped,
    stretch: &Stretch,
) -> Result<(), Memory>
    ensures { OnOk result (rows.new ≡ rows.old ++ between stretch.now.from stretch.now.upto
        (alone (bound_of M.pairs spec.now) left.now ∷ [])) }
{
    let time = left.time.count() + ahead(spec.high);
    if stretch.from.count() <= time && time < stretch.upto.count() {
        rows.push(row_alone(Moment::of_count(time), spec.width, left)?)?;
    }
    Ok(())
}
