//! `Windowed`, the operator of windows that have ends of their own.

ghost use Rattle.std.specs.Prelude.{◌≡◌, ℕ, List, [], Bool, true, IfOk, OnOk, Option, Some, filter};
ghost use Rattle.std.specs.List.{flat_map};
ghost use Rattle.std.proofs.Common.{subst};
ghost use Rattle.event_value.specs.declared.record.Stamped.{Stamped};
ghost use Rattle.stream_op.specs.Rows.{AreTaken};
ghost use Rattle.window_grid.specs.State.{is_moment, state, with_panes, with_row};
ghost use Rattle.window_grid.specs.WindowLaws.{windowed-laws};
ghost use Rattle.window_grid.specs.Windows.{AreSound, windowed};
ghost use Rattle.window_grid.specs.Windows.{Windows as Ends};

use crate::Pane;
use crate::panes::Panes;
use event_value::{Aggregate, Copies, Memory, Seq, Stamped};
use row_groups::key_of;
use std::alloc::Global;
use stream_op::StreamOp;
use tick_time::Moment;

/// Which windows there are.
pub trait Windows: Copies {
    /// What an operator may be begun with.
    ghost fits: { Self → Bool };

    /// The windows.
    ghost windows: { Self → Ends };

    /// How many of the first columns are the key.
    fn keys(&self) -> u16
        ensures { result ≡ (windows self.now).keys };

    /// What a window gives behind the key.
    fn aggregates(&self) -> &[Aggregate]
        ensures { result.now ≡ (windows self.now).aggregates };

    /// The ends of the windows that hold a row at this time, those after the last moment left out.
    ///
    /// # Errors
    /// `Memory` where there was none for them.
    fn ends(&self, alloc: Global, time: Moment) -> Result<Seq<Moment>, Memory>
        requires { fits self.now ≡ true }
        ensures { IfOk result (λ ends. ends ≡ filter is_moment ((windows self.now).ends time)) };

    /// The ends are sound.
    ghost sound: { (spec : Self) → fits spec ≡ true → AreSound (windows spec) };
}

/// An operator that keeps the windows that are still to come, and no rows.
#[derive(Drop)]
pub struct Windowed<S: Windows> {
    spec: S,
    panes: Panes,
    ghost fitting: { S.fits spec ≡ true },
}

impl<S: Windows> StreamOp for Windowed<S> {
    type Spec = S;

    ghost fits = { λ spec. S.fits spec ≡ true };

    ghost one_input = { true };

    ghost op = { λ spec left right. windowed (S.windows spec) left };

    ghost reach = { λ spec. Some (S.windows spec).reach };

    ghost stands = { λ o spec left right w.
        (o.spec ≡ spec) × (o.panes ≡ state (S.windows spec) left w) × AreTaken w left right };

    fn begin(alloc: Global, spec: &S) -> Result<Self, Memory> {
        Ok(Windowed {
            spec: spec.copy()?,
            panes: Panes::none(alloc),
        })
    }

    fn advance(
        self,
        alloc: Global,
        left: &[Stamped],
        right: &[Stamped],
        upto: Moment,
    ) -> Result<(Self, Seq<Stamped>), Memory> {
        let Windowed { spec, mut panes } = self;
        let _last = upto.count();
        add_rows(&mut panes, alloc, &spec, left)?;
        let kept = panes.take_from(alloc, upto)?;
        let rows = panes.rows(alloc)?;
        Ok((Windowed { spec, panes: kept }, rows))
    }

    ghost stands_only = { record {
      fitting = λ o spec left right w stands.
          subst (λ (s : S). S.fits s ≡ true) stands.0 o.fitting;
      taken = λ o spec left right w stands. stands.2;
    } };

    ghost laws = { windowed-laws S.fits S.windows S.sound };
}

// Adds rows to the windows that hold them.
fn add_rows<S: Windows>(
    panes: &mut Panes,
    alloc: Global,
    spec: &S,
    rows: &[Stamped],
) -> Result<(), Memory>
    requires { S.fits spec.now ≡ true }
    ensures { OnOk result (panes.new ≡ with_row (S.windows spec.now) panes.old
        (flat_map (with_panes (S.windows spec.now)) rows.now)) }
{
    for row in rows {
        add_row(panes, alloc, spec, row)?;
    }
    Ok(())
}

// Adds a row to the windows that hold it.
fn add_row<S: Windows>(
    panes: &mut Panes,
    alloc: Global,
    spec: &S,
    row: &Stamped,
) -> Result<(), Memory>
    requires { S.fits spec.now ≡ true }
    ensures { OnOk result (panes.new ≡ with_row (S.windows spec.now) panes.old
        (with_panes (S.windows spec.now) row.now)) }
{
    let mut pane = Pane {
        end: row.time,
        key: key_of(alloc, spec.keys(), row.values.items())?,
    };
    let ends = spec.ends(alloc, row.time)?;
    for end in ends.items() {
        pane.end = *end;
        panes.add(alloc, &pane, spec.aggregates(), row)?;
    }
    Ok(())
}
