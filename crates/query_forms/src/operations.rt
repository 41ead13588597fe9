//! Values made by operations and casts.

ghost use Rattle.std.specs.Prelude.{◌≡◌, [], IfOk, if◌then◌else◌};
ghost use Rattle.query_forms.specs.Senses as spec;

use crate::kinds::{is_castable, is_number, is_of, mix};
use crate::sense::{Sense, Valued};
use event_value::{Kind, Memory, Seq};
use query_plan::{Expr, Op};
use sqlite_items::{Boxed, Items};
use std::alloc::Global;

/// A value as one of another kind, where there is such a cast.
#[tactic(auto, unfolding(crate::specs::Senses::conversion))]
pub fn conversion(alloc: Global, to: Kind, part: &Sense) -> Result<Option<Sense>, Memory>
    ensures { IfOk result (λ sense. sense ≡ spec.conversion to part.now) }
{
    match part {
        Sense::Condition(_) => Ok(None),
        Sense::Value(value) => {
            if !is_castable(value.kind, to) {
                return Ok(None);
            }
            Ok(Some(Sense::Value(Valued {
                expr: Expr::Cast(Boxed::new(alloc, value.expr.copy(alloc)?)?, to),
                kind: Some(to),
            })))
        }
    }
}

/// Whether a value of a kind is cast to fixed beside a common kind.
pub fn is_widened(common: Option<Kind>, kind: Option<Kind>) -> bool
    ensures { result ≡ spec.is_widened common kind }
{
    match common {
        Some(Kind::Fixed) => match kind {
            Some(Kind::Big) => true,
            _ => false,
        },
        _ => false,
    }
}

fn widened(alloc: Global, common: Option<Kind>, value: &Valued) -> Result<Expr, Memory>
    ensures { IfOk result (λ expr. expr ≡ spec.widened common value.now) }
{
    if is_widened(common, value.kind) {
        return Ok(Expr::Cast(Boxed::new(alloc, value.expr.copy(alloc)?)?, Kind::Fixed));
    }
    value.expr.copy(alloc)
}

/// The kind of a value.
pub fn kind_of(part: &Sense) -> Option<Option<Kind>>
    ensures { result ≡ spec.kind_of part.now }
{
    match part {
        Sense::Value(value) => Some(value.kind),
        Sense::Condition(_) => None,
    }
}

/// The expression of a value, cast to fixed where the common kind asks for it.
pub fn expr_of(alloc: Global, common: Option<Kind>, part: &Sense) -> Result<Option<Expr>, Memory>
    ensures { IfOk result (λ expr. expr ≡ spec.expr_of common part.now) }
{
    match part {
        Sense::Value(value) => Ok(Some(widened(alloc, common, value)?)),
        Sense::Condition(_) => Ok(None),
    }
}

#[tactic(auto, unfolding(crate::specs::Senses::kinds_from))]
fn kinds_of(alloc: Global, parts: &[Sense]) -> Result<Option<Seq<Option<Kind>>>, Memory>
    ensures { IfOk result (λ kinds. kinds ≡ spec.kinds_from [] parts.now) }
{
    let mut kinds = Seq::empty(alloc);
    for part in parts {
        match kind_of(part) {
            None => return Ok(None),
            Some(kind) => kinds.push(kind)?,
        }
    }
    Ok(Some(kinds))
}

#[tactic(auto, unfolding(crate::specs::Senses::exprs_from))]
fn exprs_of(
    alloc: Global,
    common: Option<Kind>,
    parts: &[Sense],
) -> Result<Option<Items<Expr>>, Memory>
    ensures { IfOk result (λ exprs. exprs ≡ spec.exprs_from common [] parts.now) }
{
    let mut exprs = Items::new(alloc);
    for part in parts {
        match expr_of(alloc, common, part)? {
            None => return Ok(None),
            Some(expr) => exprs.push(expr)?,
        }
    }
    Ok(Some(exprs))
}

#[tactic(auto, unfolding(crate::specs::Senses::mix_from))]
fn mix_all(kinds: &[Option<Kind>]) -> Option<Option<Kind>>
    ensures { result ≡ spec.mix_from None kinds.now }
{
    let mut common = None;
    for kind in kinds {
        match mix(common, *kind) {
            None => return None,
            Some(mixed) => common = mixed,
        }
    }
    Some(common)
}

#[tactic(auto, unfolding(crate::specs::Senses::are_texts))]
fn are_texts(kinds: &[Option<Kind>]) -> bool
    ensures { result ≡ spec.are_texts kinds.now }
{
    for kind in kinds {
        if !is_of(Kind::Text, *kind) {
            return false;
        }
    }
    true
}

fn where_it_fits(fits: bool, kind: Kind) -> Option<Option<Kind>>
    ensures { result ≡ (if fits then Some (Some kind) else None) }
{
    if fits { Some(Some(kind)) } else { None }
}

fn number_kind(left: Option<Kind>, right: Option<Kind>) -> Option<Option<Kind>>
    ensures { result ≡ spec.number_kind left right }
{
    if is_number(left) && is_number(right) {
        mix(left, right)
    } else {
        None
    }
}

fn kind_with_one(op: Op, kind: Option<Kind>) -> Option<Option<Kind>>
    ensures { result ≡ spec.kind_with_one op kind }
{
    match op {
        Op::Neg => { if is_number(kind) { Some(kind) } else { None } }
        Op::Abs => { if is_number(kind) { Some(kind) } else { None } }
        Op::DatePart(_) => where_it_fits(is_of(Kind::Moment, kind), Kind::Big),
        Op::Len => where_it_fits(is_of(Kind::Text, kind), Kind::Big),
        Op::Lower => where_it_fits(is_of(Kind::Text, kind), Kind::Text),
        Op::Upper => where_it_fits(is_of(Kind::Text, kind), Kind::Text),
        _ => None,
    }
}

fn kind_with_two(op: Op, left: Option<Kind>, right: Option<Kind>) -> Option<Option<Kind>>
    ensures { result ≡ spec.kind_with_two op left right }
{
    match op {
        Op::Add => number_kind(left, right),
        Op::Sub => number_kind(left, right),
        Op::Mul => number_kind(left, right),
        Op::Div => number_kind(left, right),
        Op::Rem => where_it_fits(is_of(Kind::Big, left) && is_of(Kind::Big, right), Kind::Big),
        Op::DateAdd(_) => where_it_fits(
            is_of(Kind::Big, left) && is_of(Kind::Moment, right),
            Kind::Moment,
        ),
        Op::DateDiff(_) => where_it_fits(
            is_of(Kind::Moment, left) && is_of(Kind::Moment, right),
            Kind::Big,
        ),
        _ => None,
    }
}

fn kind_with_three(
    op: Op,
    text: Option<Kind>,
    from: Option<Kind>,
    count: Option<Kind>,
) -> Option<Option<Kind>>
    ensures { result ≡ spec.kind_with_three op text from count }
{
    match op {
        Op::Substring => where_it_fits(
            is_of(Kind::Text, text) && is_of(Kind::Big, from) && is_of(Kind::Big, count),
            Kind::Text,
        ),
        _ => None,
    }
}

fn kind_with_operands(op: Op, kinds: &[Option<Kind>]) -> Option<Option<Kind>>
    ensures { result ≡ spec.kind_with_operands op kinds.now }
{
    match kinds {
        [kind] => kind_with_one(op, *kind),
        [left, right] => kind_with_two(op, *left, *right),
        [text, from, count] => kind_with_three(op, *text, *from, *count),
        _ => None,
    }
}

fn kind_of_texts(kinds: &[Option<Kind>]) -> Option<Option<Kind>>
    ensures { result ≡ spec.kind_of_texts kinds.now }
{
    match kinds {
        [] => None,
        [_, ..] => where_it_fits(are_texts(kinds), Kind::Text),
    }
}

fn kind_of_choices(kinds: &[Option<Kind>]) -> Option<Option<Kind>>
    ensures { result ≡ spec.kind_of_choices kinds.now }
{
    match kinds {
        [] => None,
        [_, ..] => mix_all(kinds),
    }
}

/// The kind of an operation on values of these kinds, where they fit it.
#[tactic(auto, unfolding(crate::specs::Senses::operation_kind))]
pub fn operation_kind(op: Op, kinds: &[Option<Kind>]) -> Option<Option<Kind>>
    ensures { result ≡ spec.operation_kind op kinds.now }
{
    match op {
        Op::Concat => kind_of_texts(kinds),
        Op::Coalesce => kind_of_choices(kinds),
        _ => kind_with_operands(op, kinds),
    }
}

/// The kind to which bigint operands are cast.
pub fn widening(op: Op, kind: Option<Kind>) -> Option<Kind>
    ensures { result ≡ spec.widening op kind }
{
    match op {
        Op::Coalesce => kind,
        _ => None,
    }
}

fn operation_of(
    alloc: Global,
    op: Op,
    kind: Option<Kind>,
    parts: &[Sense],
) -> Result<Option<Sense>, Memory>
    ensures { IfOk result (λ sense. sense ≡ spec.operation_of op kind parts.now) }
{
    match exprs_of(alloc, widening(op, kind), parts)? {
        None => Ok(None),
        Some(exprs) => Ok(Some(Sense::Value(Valued {
            expr: Expr::Apply(op, exprs),
            kind,
        }))),
    }
}

/// An operation on values, where their kinds fit it.
#[tactic(auto, unfolding(crate::specs::Senses::operation))]
pub fn operation(alloc: Global, op: Op, parts: &[Sense]) -> Result<Option<Sense>, Memory>
    ensures { IfOk result (λ sense. sense ≡ spec.operation op parts.now) }
{
    match kinds_of(alloc, parts)? {
        None => Ok(None),
        Some(kinds) => match operation_kind(op, kinds.items()) {
            None => Ok(None),
            Some(kind) => operation_of(alloc, op, kind, parts),
        },
    }
}
