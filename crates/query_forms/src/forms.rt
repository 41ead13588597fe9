//! What each form makes of its parts.

ghost use Rattle.std.specs.Prelude.{◌≡◌, IfOk};
ghost use Rattle.query_forms.specs.Senses as spec;

use crate::cases::{choice, choice_by_subject};
use crate::conditions::{
    between, comparison, conjunction, disjunction, likeness, membership, negation, null_test,
};
use crate::fault::{Cause, Checked, refuse};
use crate::form::Form;
use crate::operations::{conversion, operation};
use crate::sense::Sense;
use event_value::Memory;
use std::alloc::Global;

fn made_of_one(alloc: Global, form: Form, part: &Sense) -> Result<Option<Sense>, Memory>
    ensures { IfOk result (λ sense. sense ≡ spec.made_of_one form part.now) }
{
    match form {
        Form::Not => negation(alloc, part),
        Form::IsNull(negated) => null_test(alloc, negated, part),
        Form::Cast(to) => conversion(alloc, to, part),
        _ => Ok(None),
    }
}

fn made_of_two(
    alloc: Global,
    form: Form,
    left: &Sense,
    right: &Sense,
) -> Result<Option<Sense>, Memory>
    ensures { IfOk result (λ sense. sense ≡ spec.made_of_two form left.now right.now) }
{
    match form {
        Form::Or => disjunction(alloc, left, right),
        Form::And => conjunction(alloc, left, right),
        Form::Compare(rel) => comparison(alloc, rel, left, right),
        Form::Like(negated) => likeness(alloc, negated, left, right),
        _ => Ok(None),
    }
}

fn made_of_three(
    alloc: Global,
    form: Form,
    part: &Sense,
    low: &Sense,
    high: &Sense,
) -> Result<Option<Sense>, Memory>
    ensures { IfOk result (λ sense. sense ≡ spec.made_of_three form part.now low.now high.now) }
{
    match form {
        Form::Between(negated) => between(alloc, negated, part, low, high),
        _ => Ok(None),
    }
}

fn made_of(alloc: Global, form: Form, parts: &[Sense]) -> Result<Option<Sense>, Memory>
    ensures { IfOk result (λ sense. sense ≡ spec.made_of form parts.now) }
{
    match parts {
        [part] => made_of_one(alloc, form, part),
        [left, right] => made_of_two(alloc, form, left, right),
        [part, low, high] => made_of_three(alloc, form, part, low, high),
        _ => Ok(None),
    }
}

#[tactic(auto, unfolding(crate::specs::Senses::made))]
fn made(alloc: Global, form: Form, parts: &[Sense]) -> Result<Option<Sense>, Memory>
    ensures { IfOk result (λ sense. sense ≡ spec.made form parts.now) }
{
    match form {
        Form::In(negated) => membership(alloc, negated, parts),
        Form::Case(false) => choice(alloc, None, parts),
        Form::Case(true) => choice_by_subject(alloc, parts),
        Form::Apply(op) => operation(alloc, op, parts),
        _ => made_of(alloc, form, parts),
    }
}

fn made_or_unfit(
    alloc: Global,
    place: u32,
    form: Form,
    parts: &[Sense],
) -> Result<Checked<Sense>, Memory>
    ensures { IfOk result (λ checked.
        checked ≡ spec.or_unfit place (spec.made form parts.now)) }
{
    match made(alloc, form, parts)? {
        None => refuse(alloc, place, Cause::Kind),
        Some(sense) => Ok(Ok(sense)),
    }
}

/// What a form makes of its parts, or that they don't fit it, or that it isn't built.
#[tactic(auto, unfolding(crate::specs::Senses::shaped))]
pub fn shaped(
    alloc: Global,
    place: u32,
    form: Form,
    parts: &[Sense],
) -> Result<Checked<Sense>, Memory>
    ensures { IfOk result (λ checked. checked ≡ spec.shaped place form parts.now) }
{
    match form {
        Form::Unknown => refuse(alloc, place, Cause::Unsupported),
        _ => made_or_unfit(alloc, place, form, parts),
    }
}
