//! What forms make of the outcomes of their parts, over the rows or over the groups.

ghost use Rattle.std.specs.Prelude.{◌≡◌, ◌++◌, Ok, Err, IfOk, OnOk};
ghost use Rattle.query_forms.specs.Faults.{and_then};
ghost use Rattle.query_forms.specs.Senses.{shaped as shaped_senses};
ghost use Rattle.query_readings.specs.Reading as spec;

use crate::reading::{Outcome, Reading, Side};
use event_value::{Copies, Memory, Seq};
use query_forms::{Checked, Fault, Form, Sense, push_faults, shaped, shaped_pair};
use std::alloc::Global;

/// What a reading is over the rows or over the groups.
pub fn take_side(side: Side, reading: Reading) -> Outcome
    ensures { result ≡ spec.outcome_of side reading }
{
    match side {
        Side::Rows => reading.rows,
        Side::Groups => reading.groups,
    }
}

fn push_outcome_faults(faults: &mut Seq<Fault>, outcome: &Outcome) -> Result<(), Memory>
    ensures { OnOk result (faults.new ≡ faults.old ++ spec.faults_in outcome.now) }
{
    match outcome {
        Ok(_) => Ok(()),
        Err(more) => push_faults(faults, more.items()),
    }
}

fn push_part_faults(faults: &mut Seq<Fault>, side: Side, part: &Reading) -> Result<(), Memory>
    ensures { OnOk result (
        faults.new ≡ faults.old ++ spec.faults_in (spec.outcome_of side part.now)) }
{
    match side {
        Side::Rows => push_outcome_faults(faults, &part.rows),
        Side::Groups => push_outcome_faults(faults, &part.groups),
    }
}

fn faults_of(alloc: Global, side: Side, parts: &[Reading]) -> Result<Seq<Fault>, Memory>
    ensures { IfOk result (λ faults. faults ≡ spec.faults_of side parts.now) }
{
    let mut faults = Seq::empty(alloc);
    for part in parts {
        push_part_faults(&mut faults, side, part)?;
    }
    Ok(faults)
}

fn push_outcome_sense(
    alloc: Global,
    senses: &mut Seq<Sense>,
    outcome: &Outcome,
) -> Result<(), Memory>
    ensures { OnOk result (senses.new ≡ senses.old ++ spec.senses_in outcome.now) }
{
    match outcome {
        Ok(sense) => senses.push(sense.copy(alloc)?),
        Err(_) => Ok(()),
    }
}

fn push_part_sense(
    alloc: Global,
    senses: &mut Seq<Sense>,
    side: Side,
    part: &Reading,
) -> Result<(), Memory>
    ensures { OnOk result (
        senses.new ≡ senses.old ++ spec.senses_in (spec.outcome_of side part.now)) }
{
    match side {
        Side::Rows => push_outcome_sense(alloc, senses, &part.rows),
        Side::Groups => push_outcome_sense(alloc, senses, &part.groups),
    }
}

fn senses_of(alloc: Global, side: Side, parts: &[Reading]) -> Result<Seq<Sense>, Memory>
    ensures { IfOk result (λ senses. senses ≡ spec.senses_of side parts.now) }
{
    let mut senses = Seq::empty(alloc);
    for part in parts {
        push_part_sense(alloc, &mut senses, side, part)?;
    }
    Ok(senses)
}

/// The senses of all parts, or the faults of all.
#[tactic(auto, unfolding(crate::specs::Reading::checked_senses))]
pub fn checked_senses(
    alloc: Global,
    side: Side,
    parts: &[Reading],
) -> Result<Checked<Seq<Sense>>, Memory>
    ensures { IfOk result (λ checked. checked ≡ spec.checked_senses side parts.now) }
{
    let faults = faults_of(alloc, side, parts)?;
    match faults.items() {
        [] => Ok(Ok(senses_of(alloc, side, parts)?)),
        [_, ..] => Ok(Err(faults)),
    }
}

/// What a form makes of parts on one side.
pub fn shaped_side(
    alloc: Global,
    place: u32,
    form: Form,
    side: Side,
    parts: &[Reading],
) -> Result<Outcome, Memory>
    ensures { IfOk result (λ outcome. outcome ≡ spec.shaped_side place form side parts.now) }
{
    match checked_senses(alloc, side, parts)? {
        Ok(senses) => shaped(alloc, place, form, senses.items()),
        Err(faults) => Ok(Err(faults)),
    }
}

fn shaped_unless(
    alloc: Global,
    place: u32,
    form: Form,
    faults: Seq<Fault>,
    senses: Seq<Sense>,
) -> Result<Outcome, Memory>
    ensures { IfOk result (λ outcome.
        outcome ≡ and_then (spec.unless_faults faults senses) (shaped_senses place form)) }
{
    match faults.items() {
        [] => shaped(alloc, place, form, senses.items()),
        [_, ..] => Ok(Err(faults)),
    }
}

// The left part is refused.
fn outcome_of_faults(
    alloc: Global,
    place: u32,
    form: Form,
    left: Seq<Fault>,
    right: &Outcome,
) -> Result<Outcome, Memory>
    ensures { IfOk result (λ outcome.
        outcome ≡ spec.shaped_pair place form (Err left) right.now) }
{
    let mut faults = left;
    push_outcome_faults(&mut faults, right)?;
    let mut senses = Seq::empty(alloc);
    push_outcome_sense(alloc, &mut senses, right)?;
    shaped_unless(alloc, place, form, faults, senses)
}

// The left part isn't refused, and the right one is.
fn outcome_beside_faults(
    alloc: Global,
    place: u32,
    form: Form,
    left: Sense,
    right: &Seq<Fault>,
) -> Result<Outcome, Memory>
    ensures { IfOk result (λ outcome.
        outcome ≡ spec.shaped_pair place form (Ok left) (Err right.now)) }
{
    let mut senses = Seq::empty(alloc);
    senses.push(left)?;
    shaped_unless(alloc, place, form, right.copy()?, senses)
}

/// What a form makes of two parts, of which the left is given up.
pub fn outcome_of_two(
    alloc: Global,
    place: u32,
    form: Form,
    left: Outcome,
    right: &Outcome,
) -> Result<Outcome, Memory>
    ensures { IfOk result (λ outcome. outcome ≡ spec.shaped_pair place form left right.now) }
{
    match left {
        Err(faults) => outcome_of_faults(alloc, place, form, faults, right),
        Ok(left) => match right {
            Err(faults) => outcome_beside_faults(alloc, place, form, left, faults),
            Ok(right) => shaped_pair(alloc, place, form, left, right.copy(alloc)?),
        },
    }
}
