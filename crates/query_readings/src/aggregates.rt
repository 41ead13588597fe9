//! Aggregate calls: their argument is read over the rows, and they stand over the groups alone.

ghost use Rattle.std.specs.Prelude.{◌≡◌, IfOk};
ghost use Rattle.query_readings.specs.Reading as spec;

use crate::columns::undecided;
use crate::forming::column_sense;
use crate::outcomes::checked_senses;
use crate::reading::{AggregateCall, Face, Reading, Side};
use crate::scope::{AggregateColumn, Scope};
use event_value::{AggKind, Copies, Kind, Memory, Seq};
use query_forms::{Cause, Checked, Sense, Valued, is_number, refuse};
use std::alloc::Global;

fn is_aggregable(aggregate: AggKind, kind: Option<Kind>) -> bool
    ensures { result ≡ spec.is_aggregable aggregate kind }
{
    match aggregate {
        AggKind::Sum => is_number(kind),
        AggKind::Avg => is_number(kind),
        AggKind::Count => true,
        AggKind::CountDistinct => true,
        AggKind::Min => true,
        AggKind::Max => true,
    }
}

fn aggregate_kind(aggregate: AggKind, kind: Option<Kind>) -> Option<Kind>
    ensures { result ≡ spec.aggregate_kind aggregate kind }
{
    match aggregate {
        AggKind::Count => Some(Kind::Big),
        AggKind::CountDistinct => Some(Kind::Big),
        AggKind::Sum => kind,
        AggKind::Avg => Some(Kind::Fixed),
        AggKind::Min => kind,
        AggKind::Max => kind,
    }
}

fn argument_in(
    alloc: Global,
    place: u32,
    aggregate: AggKind,
    part: &Sense,
) -> Result<Checked<Valued>, Memory>
    ensures { IfOk result (λ argument. argument ≡ spec.argument_in place aggregate part.now) }
{
    match part {
        Sense::Condition(_) => refuse(alloc, place, Cause::Kind),
        Sense::Value(value) => {
            if is_aggregable(aggregate, value.kind) {
                return Ok(Ok(value.copy(alloc)?));
            }
            refuse(alloc, place, Cause::Kind)
        }
    }
}

fn argument_of(
    alloc: Global,
    place: u32,
    aggregate: AggKind,
    parts: &[Sense],
) -> Result<Checked<Valued>, Memory>
    ensures { IfOk result (λ argument. argument ≡ spec.argument_of place aggregate parts.now) }
{
    match parts {
        [part] => argument_in(alloc, place, aggregate, part),
        _ => refuse(alloc, place, Cause::Kind),
    }
}

#[tactic(auto, unfolding(crate::specs::Reading::aggregate_argument))]
fn aggregate_argument(
    alloc: Global,
    place: u32,
    aggregate: AggKind,
    parts: &[Reading],
) -> Result<Checked<Valued>, Memory>
    ensures { IfOk result (λ argument.
        argument ≡ spec.aggregate_argument place aggregate parts.now) }
{
    match checked_senses(alloc, Side::Rows, parts)? {
        Ok(senses) => argument_of(alloc, place, aggregate, senses.items()),
        Err(faults) => Ok(Err(faults)),
    }
}

fn column_of_call(columns: &[AggregateColumn], place: u32) -> Option<u16>
    ensures { result ≡ spec.column_of_call columns.now place }
{
    for column in columns {
        if column.place == place {
            return Some(column.column);
        }
    }
    None
}

fn aggregate_sense(scope: &Scope, place: u32, kind: Option<Kind>) -> Sense
    ensures { result ≡ spec.aggregate_sense scope.now place kind }
{
    match column_of_call(scope.aggregates.items(), place) {
        None => undecided(kind),
        Some(column) => column_sense(column, kind),
    }
}

fn aggregate_reading(
    alloc: Global,
    scope: &Scope,
    place: u32,
    kind: Option<Kind>,
    call: AggregateCall,
) -> Result<Reading, Memory>
    ensures { IfOk result (λ reading.
        reading ≡ spec.aggregate_reading scope.now place kind call) }
{
    let mut calls = Seq::empty(alloc);
    calls.push(call)?;
    Ok(Reading {
        place,
        rows: refuse(alloc, place, Cause::Aggregate)?,
        groups: Ok(aggregate_sense(scope, place, kind)),
        calls,
        face: Face::Other,
    })
}

/// An aggregate of the values of its argument.
#[tactic(auto, unfolding(crate::specs::Reading::aggregate))]
pub fn aggregate(
    alloc: Global,
    scope: &Scope,
    place: u32,
    aggregate: AggKind,
    parts: &[Reading],
) -> Result<Reading, Memory>
    ensures { IfOk result (λ reading. reading ≡ spec.aggregate scope.now place aggregate parts.now) }
{
    match aggregate_argument(alloc, place, aggregate, parts)? {
        Ok(value) => {
            let kind = aggregate_kind(aggregate, value.kind);
            let call = AggregateCall {
                place,
                kind: aggregate,
                argument: Some(value.expr),
            };
            aggregate_reading(alloc, scope, place, kind, call)
        }
        Err(faults) => Ok(Reading {
            place,
            rows: Err(faults.copy()?),
            groups: Err(faults),
            calls: Seq::empty(alloc),
            face: Face::Other,
        }),
    }
}

/// The number of the rows.
#[tactic(auto, unfolding(crate::specs::Reading::row_count))]
pub fn row_count(alloc: Global, scope: &Scope, place: u32) -> Result<Reading, Memory>
    ensures { IfOk result (λ reading. reading ≡ spec.row_count scope.now place) }
{
    let call = AggregateCall {
        place,
        kind: AggKind::Count,
        argument: None,
    };
    aggregate_reading(alloc, scope, place, Some(Kind::Big), call)
}
