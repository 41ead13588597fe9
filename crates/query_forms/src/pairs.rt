//! A form of two parts that are given up. Nothing of the first is copied, so that a chain of such
//! forms takes time by its length.

ghost use Rattle.std.specs.Prelude.{◌≡◌, ◌∷◌, [], IfOk};
ghost use Rattle.query_forms.specs.Senses as spec;
ghost use Rattle.query_forms.specs.declared.sense.Sense.TheVariants as spec_sense;

use crate::fault::{Cause, Checked, refuse};
use crate::form::Form;
use crate::forms::shaped;
use crate::operations::{is_widened, operation_kind, widening};
use crate::sense::{Sense, Valued};
use event_value::{Kind, Memory, Seq};
use query_plan::{Cond, Expr, Op};
use sqlite_items::{Boxed, Items};
use std::alloc::Global;

#[tactic(auto, unfolding(crate::specs::Senses::conjunction))]
fn conjoined(alloc: Global, left: Sense, right: Sense) -> Result<Option<Sense>, Memory>
    ensures { IfOk result (λ sense. sense ≡ spec.conjunction left right) }
{
    match left {
        Sense::Value(_) => Ok(None),
        Sense::Condition(left) => match right {
            Sense::Value(_) => Ok(None),
            Sense::Condition(right) => {
                let left = Boxed::new(alloc, left)?;
                Ok(Some(Sense::Condition(Cond::And(left, Boxed::new(alloc, right)?))))
            }
        },
    }
}

#[tactic(auto, unfolding(crate::specs::Senses::disjunction))]
fn disjoined(alloc: Global, left: Sense, right: Sense) -> Result<Option<Sense>, Memory>
    ensures { IfOk result (λ sense. sense ≡ spec.disjunction left right) }
{
    match left {
        Sense::Value(_) => Ok(None),
        Sense::Condition(left) => match right {
            Sense::Value(_) => Ok(None),
            Sense::Condition(right) => {
                let left = Boxed::new(alloc, left)?;
                Ok(Some(Sense::Condition(Cond::Or(left, Boxed::new(alloc, right)?))))
            }
        },
    }
}

// A value given up, cast to fixed where the common kind asks for it.
fn widened(alloc: Global, common: Option<Kind>, value: Valued) -> Result<Expr, Memory>
    ensures { IfOk result (λ expr. expr ≡ spec.widened common value) }
{
    if is_widened(common, value.kind) {
        return Ok(Expr::Cast(Boxed::new(alloc, value.expr)?, Kind::Fixed));
    }
    Ok(value.expr)
}

// The operands of an operation, widened to a kind.
fn widened_pair(
    alloc: Global,
    common: Option<Kind>,
    left: Valued,
    right: Valued,
) -> Result<Items<Expr>, Memory>
    ensures { IfOk result (λ operands.
        operands ≡ spec.widened common left ∷ spec.widened common right ∷ []) }
{
    let mut operands = Items::new(alloc);
    operands.push(widened(alloc, common, left)?)?;
    operands.push(widened(alloc, common, right)?)?;
    Ok(operands)
}

// An operation on two values, where their kinds fit it.
fn applied_to_values(
    alloc: Global,
    op: Op,
    left: Valued,
    right: Valued,
) -> Result<Option<Sense>, Memory>
    ensures { IfOk result (λ sense. sense ≡ spec.operation_of_values op left right) }
{
    let kinds = [left.kind, right.kind];
    match operation_kind(op, &kinds) {
        None => Ok(None),
        Some(kind) => Ok(Some(Sense::Value(Valued {
            expr: Expr::Apply(op, widened_pair(alloc, widening(op, kind), left, right)?),
            kind,
        }))),
    }
}

// An operation on two parts, where both are values and fit it.
#[tactic(auto, unfolding(crate::specs::Senses::operation, crate::specs::Senses::kinds_from, crate::specs::Senses::exprs_from))]
fn applied(alloc: Global, op: Op, left: Sense, right: Sense) -> Result<Option<Sense>, Memory>
    ensures { IfOk result (λ sense. sense ≡ spec.operation op (left ∷ right ∷ [])) }
{
    match left {
        Sense::Condition(_) => Ok(None),
        Sense::Value(left) => match right {
            Sense::Condition(_) => Ok(None),
            Sense::Value(right) => applied_to_values(alloc, op, left, right),
        },
    }
}

fn or_unfit(alloc: Global, place: u32, sense: Option<Sense>) -> Result<Checked<Sense>, Memory>
    ensures { IfOk result (λ checked. checked ≡ spec.or_unfit place sense) }
{
    match sense {
        None => refuse(alloc, place, Cause::Kind),
        Some(sense) => Ok(Ok(sense)),
    }
}

fn shaped_by_list(
    alloc: Global,
    place: u32,
    form: Form,
    left: Sense,
    right: Sense,
) -> Result<Checked<Sense>, Memory>
    ensures { IfOk result (λ checked. checked ≡ spec.shaped place form (left ∷ right ∷ [])) }
{
    let mut parts = Seq::empty(alloc);
    parts.push(left)?;
    parts.push(right)?;
    shaped(alloc, place, form, parts.items())
}

/// What a form makes of two parts, as `shaped` says. AND, OR and operations copy nothing.
///
/// # Errors
/// `Memory` where there was none.
#[tactic(auto, unfolding(crate::specs::Senses::shaped, crate::specs::Senses::made))]
pub fn shaped_pair(
    alloc: Global,
    place: u32,
    form: Form,
    left: Sense,
    right: Sense,
) -> Result<Checked<Sense>, Memory>
    ensures { IfOk result (λ checked. checked ≡ spec.shaped place form (left ∷ right ∷ [])) }
{
    match form {
        Form::And => or_unfit(alloc, place, conjoined(alloc, left, right)?),
        Form::Or => or_unfit(alloc, place, disjoined(alloc, left, right)?),
        Form::Apply(op) => or_unfit(alloc, place, applied(alloc, op, left, right)?),
        _ => shaped_by_list(alloc, place, form, left, right),
    }
}
