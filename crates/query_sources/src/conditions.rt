//! Readings where a condition is due, or a value.

ghost use Rattle.std.specs.Prelude.{◌≡◌, IfOk, OnOk};
ghost use Rattle.query_sources.specs.Conditions as spec;

use crate::draft::Draft;
use event_value::Memory;
use query_forms::{Cause, Checked, Sense, Valued, refuse};
use query_plan::{Cond, Step};
use query_readings::{Outcome, Scope, Side, take_side};
use query_senses::read_expr;
use query_tree::Expr;
use std::alloc::Global;

/// The condition, or what is refused; a value is refused at this place.
pub fn condition_of(alloc: Global, place: u32, outcome: Outcome) -> Result<Checked<Cond>, Memory>
    ensures { IfOk result (λ checked. checked ≡ spec.condition_of place outcome) }
{
    match outcome {
        Err(faults) => Ok(Err(faults)),
        Ok(Sense::Value(_)) => refuse(alloc, place, Cause::Kind),
        Ok(Sense::Condition(condition)) => Ok(Ok(condition)),
    }
}

/// The value, or what is refused; a condition is refused at this place.
pub fn value_of(alloc: Global, place: u32, outcome: Outcome) -> Result<Checked<Valued>, Memory>
    ensures { IfOk result (λ checked. checked ≡ spec.value_of place outcome) }
{
    match outcome {
        Err(faults) => Ok(Err(faults)),
        Ok(Sense::Condition(_)) => refuse(alloc, place, Cause::Kind),
        Ok(Sense::Value(value)) => Ok(Ok(value)),
    }
}

fn filter(checked: Checked<Cond>, draft: &mut Draft) -> Result<(), Memory>
    ensures { OnOk result (draft.new ≡ spec.filtered_by checked draft.old) }
{
    match checked {
        Err(faults) => draft.note_all(faults.items()),
        Ok(cond) => draft.go_on(Step::Filter {
            from: draft.last,
            cond,
        }),
    }
}

/// Reads a condition over the rows or the groups, and goes on with the rows where it is true.
#[tactic(auto, unfolding(crate::specs::Conditions::filtered))]
pub fn read_filter(
    alloc: Global,
    scope: &Scope,
    side: Side,
    condition: &Expr,
    draft: &mut Draft,
) -> Result<(), Memory>
    ensures { OnOk result (draft.new ≡ spec.filtered scope.now side condition.now draft.old) }
{
    let reading = read_expr(alloc, scope, condition)?;
    let checked = condition_of(alloc, condition.place, take_side(side, reading))?;
    filter(checked, draft)
}
