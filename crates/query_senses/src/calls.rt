//! Calls, by the function that their name names.

ghost use Rattle.std.specs.Prelude.{◌≡◌, IfOk};
ghost use Rattle.query_senses.specs.Calls as spec;

use event_value::{AggKind, Memory, Seq};
use query_forms::{Cause, Form};
use query_readings::{
    DateOperation, Function, Reading, Scope, aggregate, date_form, formed, function_of,
    refused_reading, row_count, time_reading,
};
use query_tree::Path;
use std::alloc::Global;

/// What stands before the arguments of a call, or in their place.
#[derive(Clone, Copy)]
pub enum Quantifier {
    /// Nothing.
    Plain,
    /// `*` in the place of arguments.
    Star,
    /// DISTINCT before them.
    Distinct,
}

/// The arguments of a call.
#[derive(Drop)]
pub struct Given {
    pub quantifier: Quantifier,
    pub parts: Seq<Reading>,
}

fn unsupported(alloc: Global, place: u32) -> Result<Reading, Memory>
    ensures { IfOk result (λ reading. reading ≡ spec.unsupported place) }
{
    refused_reading(alloc, place, Cause::Unsupported)
}

fn count_with(
    alloc: Global,
    scope: &Scope,
    place: u32,
    quantifier: Quantifier,
    parts: &[Reading],
) -> Result<Reading, Memory>
    ensures { IfOk result (λ reading. reading ≡ spec.count_with scope.now place quantifier parts.now) }
{
    match quantifier {
        Quantifier::Plain => aggregate(alloc, scope, place, AggKind::Count, parts),
        Quantifier::Star => row_count(alloc, scope, place),
        Quantifier::Distinct => aggregate(alloc, scope, place, AggKind::CountDistinct, parts),
    }
}

fn aggregate_with(
    alloc: Global,
    scope: &Scope,
    place: u32,
    kind: AggKind,
    quantifier: Quantifier,
    parts: &[Reading],
) -> Result<Reading, Memory>
    ensures { IfOk result (λ reading.
        reading ≡ spec.aggregate_with scope.now place kind quantifier parts.now) }
{
    match kind {
        AggKind::Count => count_with(alloc, scope, place, quantifier, parts),
        _ => match quantifier {
            Quantifier::Plain => aggregate(alloc, scope, place, kind, parts),
            Quantifier::Star => unsupported(alloc, place),
            Quantifier::Distinct => unsupported(alloc, place),
        },
    }
}

fn dated(
    alloc: Global,
    scope: &Scope,
    place: u32,
    operation: DateOperation,
    parts: &[Reading],
) -> Result<Reading, Memory>
    ensures { IfOk result (λ reading. reading ≡ spec.dated scope.now place operation parts.now) }
{
    match parts {
        [] => formed(alloc, scope, place, Form::Unfit, parts),
        [part, rest @ ..] => formed(alloc, scope, place, date_form(operation, &part.face), rest),
    }
}

fn timed(alloc: Global, scope: &Scope, place: u32, parts: &[Reading]) -> Result<Reading, Memory>
    ensures { IfOk result (λ reading. reading ≡ spec.timed scope.now place parts.now) }
{
    match parts {
        [] => time_reading(alloc, scope, place),
        [_, ..] => formed(alloc, scope, place, Form::Unfit, parts),
    }
}

fn function_with_parts(
    alloc: Global,
    scope: &Scope,
    place: u32,
    function: Function,
    parts: &[Reading],
) -> Result<Reading, Memory>
    ensures { IfOk result (λ reading.
        reading ≡ spec.function_with_parts scope.now place function parts.now) }
{
    match function {
        Function::Operation(op) => formed(alloc, scope, place, Form::Apply(op), parts),
        Function::Dated(operation) => dated(alloc, scope, place, operation, parts),
        Function::Time => timed(alloc, scope, place, parts),
        _ => formed(alloc, scope, place, Form::Unknown, parts),
    }
}

fn function_with_quantifier(
    alloc: Global,
    scope: &Scope,
    place: u32,
    function: Function,
    quantifier: Quantifier,
    parts: &[Reading],
) -> Result<Reading, Memory>
    ensures { IfOk result (λ reading.
        reading ≡ spec.function_with_quantifier scope.now place function quantifier parts.now) }
{
    match quantifier {
        Quantifier::Plain => function_with_parts(alloc, scope, place, function, parts),
        Quantifier::Star => unsupported(alloc, place),
        Quantifier::Distinct => unsupported(alloc, place),
    }
}

#[tactic(auto, unfolding(crate::specs::Calls::called_function))]
fn called_function(
    alloc: Global,
    scope: &Scope,
    place: u32,
    function: Function,
    given: &Given,
) -> Result<Reading, Memory>
    ensures { IfOk result (λ reading.
        reading ≡ spec.called_function scope.now place function given.now) }
{
    match function {
        Function::Window => unsupported(alloc, place),
        Function::Aggregate(kind) => {
            aggregate_with(
                alloc,
                scope,
                place,
                kind,
                given.quantifier,
                given.parts.items(),
            )
        }
        _ => function_with_quantifier(
            alloc,
            scope,
            place,
            function,
            given.quantifier,
            given.parts.items(),
        ),
    }
}

/// A call of the function that a path names.
#[tactic(auto, unfolding(crate::specs::Calls::called))]
pub fn called(
    alloc: Global,
    scope: &Scope,
    place: u32,
    path: &Path,
    given: &Given,
) -> Result<Reading, Memory>
    ensures { IfOk result (λ reading. reading ≡ spec.called scope.now place path.now given.now) }
{
    called_function(alloc, scope, place, function_of(path), given)
}
