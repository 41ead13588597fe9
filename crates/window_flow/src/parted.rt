//! `Parted`, the operator of rows that are judged part by part.

ghost use Rattle.std.specs.Prelude.{◌≡◌, ◌++◌, ℕ, List, [], Bool, true, IfOk, OnOk, Option};
ghost use Rattle.std.proofs.Common.{subst};
ghost use Rattle.event_value.specs.declared.record.Stamped.{Stamped};
ghost use Rattle.stream_op.specs.Rows.{AreInOrder, AreTaken, between};
ghost use Rattle.window_flow.specs.Groups.{within};
ghost use Rattle.window_flow.specs.PartLaws.{AreSound, parted-laws};
ghost use Rattle.window_flow.specs.Parts.{Parting, parted};

use crate::groups::Groups;
use event_value::{Copies, Memory, Seq, Stamped, Value};
use row_order::put_in_order;
use std::alloc::Global;
use stream_op::{StreamOp, push_rows};
use tick_time::Moment;

/// How rows are parted, and what a part gives.
pub trait Parts: Copies {
    /// What an operator may be begun with.
    ghost fits: { Self → Bool };

    /// The parts.
    ghost parting: { Self → Parting };

    /// How far back of what it gives a part's rows matter, in ticks, where there is such a number.
    ghost reach: { Self → Option ℕ };

    /// How many of the first columns tell the parts apart.
    fn columns(&self) -> u16
        ensures { result ≡ (parting self.now).columns };

    /// The reach.
    fn ticks_back(&self) -> Option<u64>
        requires { fits self.now ≡ true }
        ensures { result ≡ reach self.now };

    /// Adds what a part gives from a moment on, below another, where its rows are in order of time.
    ///
    /// # Errors
    /// `Memory` where there was none for it.
    fn push_rows(
        &self,
        alloc: Global,
        part: &[Value],
        rows: &[Stamped],
        from: Moment,
        upto: Moment,
        given: &mut Seq<Stamped>,
    ) -> Result<(), Memory>
        requires { fits self.now ≡ true }
        ensures { OnOk result (AreInOrder rows.now → given.new
            ≡ given.old ++ between from upto ((parting self.now).rows part.now rows.now)) };

    /// The parts are sound.
    ghost sound: { (spec : Self) → fits spec ≡ true → AreSound (parting spec) (reach spec) };
}

/// An operator that holds the rows within its reach, all of them where it has none.
#[derive(Drop)]
pub struct Parted<S: Parts> {
    spec: S,
    held: Seq<Stamped>,
    upto: Moment,
    ghost fitting: { S.fits spec ≡ true },
}

impl<S: Parts> StreamOp for Parted<S> {
    type Spec = S;

    ghost fits = { λ spec. S.fits spec ≡ true };

    ghost one_input = { true };

    ghost op = { λ spec left right. parted (S.parting spec) left };

    ghost reach = { S.reach };

    ghost stands = { λ o spec left right w.
        (o.spec ≡ spec) × (o.held ≡ within (S.reach spec) w left) × (o.upto ≡ w)
        × AreTaken w left right };

    fn begin(alloc: Global, spec: &S) -> Result<Self, Memory> {
        Ok(Parted {
            spec: spec.copy()?,
            held: Seq::empty(alloc),
            upto: Moment::zero(),
        })
    }

    fn advance(
        self,
        alloc: Global,
        left: &[Stamped],
        right: &[Stamped],
        upto: Moment,
    ) -> Result<(Self, Seq<Stamped>), Memory> {
        let Parted {
            spec,
            mut held,
            upto: last,
        } = self;
        push_rows(&mut held, left)?;
        let rows = rows_between(alloc, &spec, held.items(), last, upto)?;
        let held = held_within(held, spec.ticks_back(), upto);
        Ok((Parted { spec, held, upto }, rows))
    }

    ghost stands_only = { record {
      fitting = λ o spec left right w stands.
          subst (λ (s : S). S.fits s ≡ true) stands.0 o.fitting;
      taken = λ o spec left right w stands. stands.3;
    } };

    ghost laws = { parted-laws S.fits S.parting S.reach S.sound };
}

// What all parts give from a moment on, below another.
fn rows_between<S: Parts>(
    alloc: Global,
    spec: &S,
    rows: &[Stamped],
    from: Moment,
    upto: Moment,
) -> Result<Seq<Stamped>, Memory>
    requires { S.fits spec.now ≡ true }
    ensures { IfOk result (λ given. AreInOrder rows.now
        → given ≡ between from upto (parted (S.parting spec.now) rows.now)) }
{
    let groups = Groups::of(alloc, 0, spec.columns(), rows)?;
    let mut given = Seq::empty(alloc);
    groups.push_given(alloc, spec, from, upto, &mut given)?;
    Ok(put_in_order(given)?)
}

// The rows that are no further back of a moment than the reach.
fn held_within(rows: Seq<Stamped>, reach: Option<u64>, upto: Moment) -> Seq<Stamped>
    ensures { result ≡ within reach upto rows }
{
    let Some(ticks) = reach else {
        return rows;
    };
    let first = upto.count().saturating_sub(ticks);
    let mut rows = rows.into_vec();
    rows.retain(|row| first <= row.time.count());
    Seq::from_vec(rows)
}
