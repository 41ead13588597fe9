//! Parts of expressions that hold no further ones, or their readings.

ghost use Rattle.std.specs.Prelude.{◌≡◌, IfOk};
ghost use Rattle.query_senses.specs.Parts as spec;

use crate::calls::{Given, Quantifier};
use event_value::{Kind, Memory, Seq, Value};
use query_forms::{Cause, Form, Sense, Valued, refuse};
use query_plan::Expr;
use query_readings::{
    Face, Outcome, PredicateRest, Reading, Scope, formed, formed_of_one, refused_reading,
};
use query_tree::{Number, TypeName};
use std::alloc::Global;
use tick_time::is_name;

// How many items IN may have.
const MAX_IN_ITEMS: usize = 64;

/// A number that is written out.
pub fn number_sense(number: Number) -> Sense
    ensures { result ≡ spec.number_sense number }
{
    match number {
        Number::Whole(whole) => Sense::Value(Valued {
            expr: Expr::Lit(Value::Big(whole)),
            kind: Some(Kind::Big),
        }),
        Number::Decimal(millionths) => Sense::Value(Valued {
            expr: Expr::Lit(Value::Fixed(millionths)),
            kind: Some(Kind::Fixed),
        }),
    }
}

/// An expression in parentheses.
pub fn nested(place: u32, inner: Reading) -> Reading
    ensures { result ≡ spec.nested place inner }
{
    Reading {
        place,
        rows: inner.rows,
        groups: inner.groups,
        calls: inner.calls,
        face: Face::Other,
    }
}

/// The arguments of a call without any.
pub fn nothing_given(alloc: Global) -> Given
    ensures { result ≡ spec.nothing_given }
{
    Given {
        quantifier: Quantifier::Plain,
        parts: Seq::empty(alloc),
    }
}

/// What stands before arguments, given whether DISTINCT does.
pub fn quantifier_of(distinct: bool) -> Quantifier
    ensures { result ≡ spec.quantifier_of distinct }
{
    if distinct {
        Quantifier::Distinct
    } else {
        Quantifier::Plain
    }
}

#[tactic(auto, unfolding(crate::specs::Parts::kind_named))]
fn kind_named(word: &[u8]) -> Option<Kind>
    ensures { result ≡ spec.kind_named word.now }
{
    if is_name(b"bigint", word) {
        Some(Kind::Big)
    } else if is_name(b"fixed", word) {
        Some(Kind::Fixed)
    } else if is_name(b"datetime", word) {
        Some(Kind::Moment)
    } else if is_name(b"bit", word) {
        Some(Kind::Bit)
    } else {
        None
    }
}

#[tactic(auto, unfolding(crate::specs::Parts::kind_of_type))]
fn kind_of_type(to: &TypeName) -> Option<Kind>
    ensures { result ≡ spec.kind_of_type to.now }
{
    match &to.size {
        None => kind_named(to.word.text.items()),
        Some(size) => {
            if is_name(b"nvarchar", to.word.text.items()) && is_name(b"max", size.text.items()) {
                Some(Kind::Text)
            } else {
                None
            }
        }
    }
}

/// A cast to the kind that a type names; a type that names none is refused beside what is cast.
#[tactic(auto, unfolding(crate::specs::Parts::cast_reading))]
pub fn cast_reading(
    alloc: Global,
    scope: &Scope,
    place: u32,
    inner: Reading,
    to: &TypeName,
) -> Result<Reading, Memory>
    ensures { IfOk result (λ reading. reading ≡ spec.cast_reading scope.now place inner to.now) }
{
    match kind_of_type(to) {
        Some(kind) => formed_of_one(alloc, scope, place, Form::Cast(kind), inner),
        None => {
            let mut parts = Seq::empty(alloc);
            parts.push(inner)?;
            parts.push(refused_reading(alloc, to.place, Cause::Unsupported)?)?;
            formed(alloc, scope, place, Form::Unfit, parts.items())
        }
    }
}

fn place_above_limit(parts: &[Reading]) -> Option<u32>
    ensures { result ≡ spec.place_above_limit parts.now }
{
    match parts.get(MAX_IN_ITEMS) {
        None => None,
        Some(part) => Some(part.place),
    }
}

fn excess_of(rest: &PredicateRest) -> Option<u32>
    ensures { result ≡ spec.excess_of rest.now }
{
    match rest.form {
        Form::In(_) => place_above_limit(rest.parts.items()),
        _ => None,
    }
}

fn limited(alloc: Global, place: u32, outcome: Outcome) -> Result<Outcome, Memory>
    ensures { IfOk result (λ limited. limited ≡ spec.limited place outcome) }
{
    match outcome {
        Ok(_) => refuse(alloc, place, Cause::TooMany),
        Err(faults) => Ok(Err(faults)),
    }
}

fn limited_reading(alloc: Global, excess: Option<u32>, reading: Reading) -> Result<Reading, Memory>
    ensures { IfOk result (λ limited. limited ≡ spec.limited_reading excess reading) }
{
    match excess {
        None => Ok(reading),
        Some(place) => {
            let groups = limited(alloc, place, reading.groups)?;
            Ok(Reading {
                place: reading.place,
                rows: limited(alloc, place, reading.rows)?,
                groups,
                calls: reading.calls,
                face: reading.face,
            })
        }
    }
}

/// A sum with what stands behind it.
#[tactic(auto, unfolding(crate::specs::Parts::pred_reading))]
pub fn pred_reading(
    alloc: Global,
    scope: &Scope,
    place: u32,
    sum: Reading,
    rest: &PredicateRest,
) -> Result<Reading, Memory>
    ensures { IfOk result (λ reading. reading ≡ spec.pred_reading scope.now place sum rest.now) }
{
    let mut parts = Seq::empty(alloc);
    parts.push(sum)?;
    for part in rest.parts.items() {
        parts.push(part.copy(alloc)?)?;
    }
    let reading = formed(alloc, scope, place, rest.form, parts.items())?;
    limited_reading(alloc, excess_of(rest), reading)
}
