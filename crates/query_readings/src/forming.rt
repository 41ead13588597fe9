//! Readings made of the readings of their parts.

ghost use Rattle.std.specs.Prelude.{◌≡◌, ◌++◌, IfOk};
ghost use Rattle.query_readings.specs.Reading as spec;

use crate::outcomes::{outcome_of_two, shaped_side};
use crate::reading::{
    AggregateCall, Face, Outcome, Part, Reading, Side, copied_outcome, push_calls,
};
use crate::same::is_same_expr;
use crate::scope::{GroupKey, Scope};
use event_value::{Kind, Memory, Seq, both};
use query_forms::{Cause, Form, Sense, Valued, refuse};
use query_plan::Expr;
use std::alloc::Global;

fn calls_of(alloc: Global, parts: &[Reading]) -> Result<Seq<AggregateCall>, Memory>
    ensures { IfOk result (λ calls. calls ≡ spec.calls_of parts.now) }
{
    let mut calls = Seq::empty(alloc);
    for part in parts {
        push_calls(alloc, &mut calls, part.calls.items())?;
    }
    Ok(calls)
}

/// A column of the groups, as a sense.
pub fn column_sense(column: u16, kind: Option<Kind>) -> Sense
    ensures { result ≡ spec.column_sense column kind }
{
    Sense::Value(Valued {
        expr: Expr::Col(column),
        kind,
    })
}

fn key_from(keys: &[GroupKey], expr: &Expr) -> Option<Sense>
    ensures { result ≡ spec.key_from keys.now expr.now }
{
    for key in keys {
        if is_same_expr(&key.expr, expr) {
            return Some(column_sense(key.column, key.kind));
        }
    }
    None
}

fn key_of(keys: &[GroupKey], rows: &Outcome) -> Option<Sense>
    ensures { result ≡ spec.key_of keys.now rows.now }
{
    match rows {
        Ok(Sense::Value(value)) => key_from(keys, &value.expr),
        Ok(Sense::Condition(_)) => None,
        Err(_) => None,
    }
}

/// The reading of an expression whose outcomes over the rows and by its parts are these: over the
/// groups it is the column of the group expression that it equals, if there is one.
#[tactic(auto, unfolding(crate::specs::Reading::keyed))]
pub fn keyed(
    scope: &Scope,
    place: u32,
    rows: Outcome,
    groups: Outcome,
    calls: Seq<AggregateCall>,
    face: Face,
) -> Reading
    ensures { result ≡ spec.keyed scope.now place rows groups calls face }
{
    match key_of(scope.keys.items(), &rows) {
        None => Reading {
            place,
            rows,
            groups,
            calls,
            face,
        },
        Some(sense) => Reading {
            place,
            rows,
            groups: Ok(sense),
            calls,
            face,
        },
    }
}

/// The reading of an expression of this form with these parts.
#[tactic(auto, unfolding(crate::specs::Reading::formed))]
pub fn formed(
    alloc: Global,
    scope: &Scope,
    place: u32,
    form: Form,
    parts: &[Reading],
) -> Result<Reading, Memory>
    ensures { IfOk result (λ reading. reading ≡ spec.formed scope.now place form parts.now) }
{
    let calls = calls_of(alloc, parts)?;
    let groups = shaped_side(alloc, place, form, Side::Groups, parts)?;
    let rows = shaped_side(alloc, place, form, Side::Rows, parts)?;
    Ok(keyed(scope, place, rows, groups, calls, Face::Other))
}

/// A reading of one part.
pub fn formed_of_one(
    alloc: Global,
    scope: &Scope,
    place: u32,
    form: Form,
    part: Reading,
) -> Result<Reading, Memory>
    ensures { IfOk result (λ reading. reading ≡ spec.formed_of_one scope.now place form part) }
{
    let mut parts = Seq::empty(alloc);
    parts.push(part)?;
    formed(alloc, scope, place, form, parts.items())
}

fn calls_of_two(
    alloc: Global,
    left: Seq<AggregateCall>,
    right: &Reading,
) -> Result<Seq<AggregateCall>, Memory>
    ensures { IfOk result (λ calls. calls ≡ left ++ right.now.calls) }
{
    let mut calls = left;
    push_calls(alloc, &mut calls, right.calls.items())?;
    Ok(calls)
}

// The parts of a reading that is given up, with a further reading.
fn joined(
    alloc: Global,
    scope: &Scope,
    place: u32,
    form: Form,
    rows: Outcome,
    groups: Outcome,
    calls: Seq<AggregateCall>,
    right: &Reading,
) -> Result<Reading, Memory>
    ensures { IfOk result (λ reading.
        reading ≡ spec.joined scope.now place form rows groups calls right.now) }
{
    let calls = calls_of_two(alloc, calls, right);
    let groups = outcome_of_two(alloc, place, form, groups, &right.groups);
    let rows = outcome_of_two(alloc, place, form, rows, &right.rows);
    let ((rows, groups), calls) = both(both(rows, groups), calls)?;
    Ok(keyed(scope, place, rows, groups, calls, Face::Other))
}

#[tactic(auto, unfolding(crate::specs::Reading::formed, crate::specs::Reading::checked_senses))]
fn formed_of_two(
    alloc: Global,
    scope: &Scope,
    place: u32,
    form: Form,
    left: Reading,
    right: &Reading,
) -> Result<Reading, Memory>
    ensures { IfOk result (λ reading.
        reading ≡ spec.formed_of_two scope.now place form left right.now) }
{
    joined(
        alloc,
        scope,
        place,
        form,
        left.rows,
        left.groups,
        left.calls,
        right,
    )
}

/// A chain of one form, from the left.
#[tactic(auto, unfolding(crate::specs::Reading::chain))]
pub fn chain(
    alloc: Global,
    scope: &Scope,
    place: u32,
    form: Form,
    first: Reading,
    more: &[Reading],
) -> Result<Reading, Memory>
    ensures { IfOk result (λ reading. reading ≡ spec.chain scope.now place form first more.now) }
{
    let mut so_far = first;
    for part in more {
        so_far = formed_of_two(alloc, scope, place, form, so_far, part)?;
    }
    Ok(so_far)
}

/// A chain of parts each with its own form, from the left.
#[tactic(auto, unfolding(crate::specs::Reading::operations))]
pub fn operations(
    alloc: Global,
    scope: &Scope,
    place: u32,
    first: Reading,
    more: &[Part],
) -> Result<Reading, Memory>
    ensures { IfOk result (λ reading. reading ≡ spec.operations scope.now place first more.now) }
{
    let mut so_far = first;
    for part in more {
        so_far = formed_of_two(alloc, scope, place, part.form, so_far, &part.reading)?;
    }
    Ok(so_far)
}

/// A reading as the pattern of a LIKE: a text that is written out is no group expression there.
#[tactic(auto, unfolding(crate::specs::Reading::as_pattern))]
pub fn as_pattern(alloc: Global, reading: Reading) -> Result<Reading, Memory>
    ensures { IfOk result (λ pattern. pattern ≡ spec.as_pattern reading) }
{
    match reading.face {
        Face::Literal => {
            let groups = copied_outcome(alloc, &reading.rows)?;
            Ok(Reading {
                place: reading.place,
                rows: reading.rows,
                groups,
                calls: reading.calls,
                face: Face::Literal,
            })
        }
        _ => Ok(reading),
    }
}

/// The reading of an expression that is the same over rows and groups.
pub fn plain(
    alloc: Global,
    scope: &Scope,
    place: u32,
    sense: Sense,
    face: Face,
) -> Result<Reading, Memory>
    ensures { IfOk result (λ reading. reading ≡ spec.plain scope.now place sense face) }
{
    let groups = Ok(sense.copy(alloc)?);
    Ok(keyed(scope, place, Ok(sense), groups, Seq::empty(alloc), face))
}

/// The reading of a part that is refused by one rule, over rows and groups.
pub fn refused_reading(alloc: Global, place: u32, cause: Cause) -> Result<Reading, Memory>
    ensures { IfOk result (λ reading. reading ≡ spec.refused_reading place cause) }
{
    let groups = refuse(alloc, place, cause)?;
    Ok(Reading {
        place,
        rows: refuse(alloc, place, cause)?,
        groups,
        calls: Seq::empty(alloc),
        face: Face::Other,
    })
}
