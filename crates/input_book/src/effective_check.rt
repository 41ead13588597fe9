//! The order of the moments of snapshots.

ghost use Rattle.std.specs.Prelude.{◌≡◌, [], IfOk, IfErr, Ok, codes};
ghost use Rattle.input_book.specs.Checks.{each, effective_check, effective_order, is_above, reference_order, snapshot_order};
ghost use Rattle.input_book.specs.Refusals.{IsRefusal};

use crate::InputErr;
use crate::key::Key;
use crate::refusals::{read_inside, refused};
use input_types::{Inputs, SnapshotName};
use std::alloc::Global;
use tick_time::Moment;

fn is_above(before: Option<Moment>, moment: Moment) -> bool
    ensures { result ≡ is_above before moment }
{
    match before {
        None => true,
        Some(before) => before < moment,
    }
}

// A snapshot behind one that is in force from this moment on, if there is one.
fn check_snapshot(
    alloc: Global,
    before: Option<Moment>,
    snapshot: &SnapshotName,
) -> Result<(), InputErr>
    ensures ok { IfOk result (λ x. effective_check before snapshot.now ≡ Ok x) }
    ensures err { IfErr result (IsRefusal (effective_check before snapshot.now)) }
{
    if is_above(before, snapshot.effective) {
        Ok(())
    } else {
        let key = Key::Member("effective");
        Err(refused(alloc, InputErr::EffectiveOrder, key))
    }
}

fn check_snapshots(alloc: Global, snapshots: &[SnapshotName]) -> Result<(), InputErr>
    ensures ok { IfOk result (λ x.
        each snapshot_order (codes "snapshots") [] snapshots.now ≡ Ok x) }
    ensures err { IfErr result (IsRefusal
        (each snapshot_order (codes "snapshots") [] snapshots.now)) }
{
    let mut before = None;
    for (index, snapshot) in snapshots.iter().enumerate() {
        let checked = check_snapshot(alloc, before, snapshot);
        read_inside(alloc, Key::Entry("snapshots", index), checked)?;
        before = Some(snapshot.effective);
    }
    Ok(())
}

// Each snapshot is in force later than the one before it in its reference.
#[tactic(auto, unfolding(crate::specs::Checks::effective_order))]
pub fn check_effective(alloc: Global, inputs: &Inputs) -> Result<(), InputErr>
    ensures ok { IfOk result (λ x. effective_order inputs.now ≡ Ok x) }
    ensures err { IfErr result (IsRefusal (effective_order inputs.now)) }
{
    for (index, reference) in inputs.references.items().iter().enumerate() {
        let checked = check_snapshots(alloc, reference.snapshots.items());
        read_inside(alloc, Key::Entry("reference", index), checked)?;
    }
    Ok(())
}
