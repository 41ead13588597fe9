//! Conditions made of their parts.

ghost use Rattle.std.specs.Prelude.{◌≡◌, [], IfOk};
ghost use Rattle.query_plan.specs.declared.expr.Expr.{out-Expr};
ghost use Rattle.query_forms.specs.Senses as spec;

use crate::kinds::{is_comparable, is_of};
use crate::sense::{Sense, Valued};
use event_value::{Copies, Kind, Memory, Text, Value};
use query_plan::{Cond, Expr, Rel};
use sqlite_items::{Boxed, Items};
use std::alloc::Global;

fn perhaps_not(alloc: Global, negated: bool, condition: Cond) -> Result<Sense, Memory>
    ensures { IfOk result (λ sense. sense ≡ spec.perhaps_not negated condition) }
{
    if negated {
        return Ok(Sense::Condition(Cond::Not(Boxed::new(alloc, condition)?)));
    }
    Ok(Sense::Condition(condition))
}

/// The opposite of a condition.
#[tactic(auto, unfolding(crate::specs::Senses::negation))]
pub fn negation(alloc: Global, part: &Sense) -> Result<Option<Sense>, Memory>
    ensures { IfOk result (λ sense. sense ≡ spec.negation part.now) }
{
    match part {
        Sense::Condition(condition) => Ok(Some(perhaps_not(alloc, true, condition.copy(alloc)?)?)),
        Sense::Value(_) => Ok(None),
    }
}

fn boxed(alloc: Global, condition: &Cond) -> Result<Boxed<Cond>, Memory>
    ensures { IfOk result (λ boxed. boxed ≡ condition.now) }
{
    Ok(Boxed::new(alloc, condition.copy(alloc)?)?)
}

/// Both of two conditions.
#[tactic(auto, unfolding(crate::specs::Senses::conjunction))]
pub fn conjunction(alloc: Global, left: &Sense, right: &Sense) -> Result<Option<Sense>, Memory>
    ensures { IfOk result (λ sense. sense ≡ spec.conjunction left.now right.now) }
{
    match left {
        Sense::Value(_) => Ok(None),
        Sense::Condition(left) => match right {
            Sense::Value(_) => Ok(None),
            Sense::Condition(right) => Ok(Some(Sense::Condition(Cond::And(
                boxed(alloc, left)?,
                boxed(alloc, right)?,
            )))),
        },
    }
}

/// One of two conditions.
#[tactic(auto, unfolding(crate::specs::Senses::disjunction))]
pub fn disjunction(alloc: Global, left: &Sense, right: &Sense) -> Result<Option<Sense>, Memory>
    ensures { IfOk result (λ sense. sense ≡ spec.disjunction left.now right.now) }
{
    match left {
        Sense::Value(_) => Ok(None),
        Sense::Condition(left) => match right {
            Sense::Value(_) => Ok(None),
            Sense::Condition(right) => Ok(Some(Sense::Condition(Cond::Or(
                boxed(alloc, left)?,
                boxed(alloc, right)?,
            )))),
        },
    }
}

fn compared_values(
    alloc: Global,
    rel: Rel,
    left: &Valued,
    right: &Valued,
) -> Result<Option<Cond>, Memory>
    ensures { IfOk result (λ found. found ≡ spec.compared_values rel left.now right.now) }
{
    if is_comparable(left.kind, right.kind) {
        return Ok(Some(Cond::Compare(rel, left.expr.copy(alloc)?, right.expr.copy(alloc)?)));
    }
    Ok(None)
}

/// Two values in a relation, where they can be compared.
pub fn compared(
    alloc: Global,
    rel: Rel,
    left: &Sense,
    right: &Sense,
) -> Result<Option<Cond>, Memory>
    ensures { IfOk result (λ found. found ≡ spec.compared rel left.now right.now) }
{
    match left {
        Sense::Condition(_) => Ok(None),
        Sense::Value(left) => match right {
            Sense::Condition(_) => Ok(None),
            Sense::Value(right) => compared_values(alloc, rel, left, right),
        },
    }
}

/// A comparison of two values.
#[tactic(auto, unfolding(crate::specs::Senses::comparison))]
pub fn comparison(
    alloc: Global,
    rel: Rel,
    left: &Sense,
    right: &Sense,
) -> Result<Option<Sense>, Memory>
    ensures { IfOk result (λ sense. sense ≡ spec.comparison rel left.now right.now) }
{
    match compared(alloc, rel, left, right)? {
        None => Ok(None),
        Some(condition) => Ok(Some(Sense::Condition(condition))),
    }
}

/// A value that is Null, or that isn't.
#[tactic(auto, unfolding(crate::specs::Senses::null_test))]
pub fn null_test(alloc: Global, negated: bool, part: &Sense) -> Result<Option<Sense>, Memory>
    ensures { IfOk result (λ sense. sense ≡ spec.null_test negated part.now) }
{
    match part {
        Sense::Value(value) => Ok(Some(perhaps_not(
            alloc,
            negated,
            Cond::IsNull(value.expr.copy(alloc)?),
        )?)),
        Sense::Condition(_) => Ok(None),
    }
}

/// A value between two others, or outside them.
#[tactic(auto, unfolding(crate::specs::Senses::between))]
pub fn between(
    alloc: Global,
    negated: bool,
    value: &Sense,
    low: &Sense,
    high: &Sense,
) -> Result<Option<Sense>, Memory>
    ensures { IfOk result (λ sense. sense ≡ spec.between negated value.now low.now high.now) }
{
    let Some(above) = compared(alloc, Rel::Ge, value, low)? else {
        return Ok(None);
    };
    let above = Boxed::new(alloc, above)?;
    let Some(below) = compared(alloc, Rel::Le, value, high)? else {
        return Ok(None);
    };
    let both = Cond::And(above, Boxed::new(alloc, below)?);
    Ok(Some(perhaps_not(alloc, negated, both)?))
}

fn pattern_in(expr: &Expr) -> Result<Option<Text>, Memory>
    ensures { IfOk result (λ found. found ≡ spec.pattern_in (out-Expr expr.now)) }
{
    match expr {
        Expr::Lit(Value::Text(text)) => Ok(Some(text.copy()?)),
        _ => Ok(None),
    }
}

fn pattern_of(pattern: &Sense) -> Result<Option<Text>, Memory>
    ensures { IfOk result (λ found. found ≡ spec.pattern_of pattern.now) }
{
    match pattern {
        Sense::Value(value) => pattern_in(&value.expr),
        Sense::Condition(_) => Ok(None),
    }
}

/// A text that fits a pattern, or that doesn't.
#[tactic(auto, unfolding(crate::specs::Senses::likeness))]
pub fn likeness(
    alloc: Global,
    negated: bool,
    part: &Sense,
    pattern: &Sense,
) -> Result<Option<Sense>, Memory>
    ensures { IfOk result (λ sense. sense ≡ spec.likeness negated part.now pattern.now) }
{
    match part {
        Sense::Condition(_) => Ok(None),
        Sense::Value(value) => {
            if !is_of(Kind::Text, value.kind) {
                return Ok(None);
            }
            match pattern_of(pattern)? {
                None => Ok(None),
                Some(text) => {
                    let like = Cond::Like(value.expr.copy(alloc)?, text);
                    Ok(Some(perhaps_not(alloc, negated, like)?))
                }
            }
        }
    }
}

fn comparable_expr(alloc: Global, kind: Option<Kind>, item: &Sense) -> Result<Option<Expr>, Memory>
    ensures { IfOk result (λ found. found ≡ spec.comparable_expr kind item.now) }
{
    match item {
        Sense::Condition(_) => Ok(None),
        Sense::Value(value) => {
            if is_comparable(kind, value.kind) {
                return Ok(Some(value.expr.copy(alloc)?));
            }
            Ok(None)
        }
    }
}

#[tactic(auto, unfolding(crate::specs::Senses::comparable_from))]
fn comparable_exprs(
    alloc: Global,
    kind: Option<Kind>,
    items: &[Sense],
) -> Result<Option<Items<Expr>>, Memory>
    ensures { IfOk result (λ found. found ≡ spec.comparable_from kind [] items.now) }
{
    let mut exprs = Items::new(alloc);
    for item in items {
        match comparable_expr(alloc, kind, item)? {
            None => return Ok(None),
            Some(expr) => exprs.push(expr)?,
        }
    }
    Ok(Some(exprs))
}

fn membership_of(
    alloc: Global,
    negated: bool,
    part: &Sense,
    items: &[Sense],
) -> Result<Option<Sense>, Memory>
    ensures { IfOk result (λ sense. sense ≡ spec.membership_of negated part.now items.now) }
{
    match part {
        Sense::Condition(_) => Ok(None),
        Sense::Value(value) => match comparable_exprs(alloc, value.kind, items)? {
            None => Ok(None),
            Some(exprs) => {
                let among = Cond::OneOf(value.expr.copy(alloc)?, exprs);
                Ok(Some(perhaps_not(alloc, negated, among)?))
            }
        },
    }
}

/// A value among others, or apart from them.
#[tactic(auto, unfolding(crate::specs::Senses::membership))]
pub fn membership(alloc: Global, negated: bool, parts: &[Sense]) -> Result<Option<Sense>, Memory>
    ensures { IfOk result (λ sense. sense ≡ spec.membership negated parts.now) }
{
    match parts {
        [] => Ok(None),
        [part, items @ ..] => membership_of(alloc, negated, part, items),
    }
}
