//! The aggregate calls of a select: their columns over the groups, and what they are computed of.

ghost use Rattle.std.specs.Prelude.{◌≡◌, ◌++◌, IfOk, OnOk};
ghost use Rattle.query_windows.specs.Aggregates as spec;

use event_value::{Aggregate, Memory, Seq};
use query_plan::Expr;
use query_readings::{AggregateCall, AggregateColumn, GroupKey, Scope, push_calls};
use query_senses::read_expr;
use query_sources::number_of;
use query_tree::{Expr as Tree, Having, Item, SelectItems};
use std::alloc::Global;

/// What a window step takes of each row, and the aggregates that it computes.
#[derive(Drop)]
pub struct Arguments {
    pub exprs: Seq<Expr>,
    pub aggregates: Seq<Aggregate>,
}

fn push_calls_in(
    alloc: Global,
    scope: &Scope,
    expr: &Tree,
    calls: &mut Seq<AggregateCall>,
) -> Result<(), Memory>
    ensures { OnOk result (calls.new ≡ calls.old ++ spec.calls_in scope.now expr.now) }
{
    let reading = read_expr(alloc, scope, expr)?;
    push_calls(alloc, calls, reading.calls.items())
}

fn push_calls_in_items(
    alloc: Global,
    scope: &Scope,
    items: &SelectItems,
    calls: &mut Seq<AggregateCall>,
) -> Result<(), Memory>
    ensures { OnOk result (calls.new ≡ calls.old ++ spec.calls_in_items scope.now items.now) }
{
    match items {
        SelectItems::Star(_) => Ok(()),
        SelectItems::Listed(_, first, more) => {
            push_calls_in(alloc, scope, &first.expr, calls)?;
            push_calls_in_list(alloc, scope, more.items(), calls)
        }
    }
}

fn push_calls_in_list(
    alloc: Global,
    scope: &Scope,
    items: &[Item],
    calls: &mut Seq<AggregateCall>,
) -> Result<(), Memory>
    ensures { OnOk result (calls.new ≡ calls.old ++ spec.calls_in_list scope.now items.now) }
{
    for item in items {
        push_calls_in(alloc, scope, &item.expr, calls)?;
    }
    Ok(())
}

/// The aggregate calls of a select, in order of place.
#[tactic(auto, unfolding(crate::specs::Aggregates::calls_of_select))]
pub fn calls_of_select(
    alloc: Global,
    scope: &Scope,
    items: &SelectItems,
    having: &Option<Having>,
) -> Result<Seq<AggregateCall>, Memory>
    ensures { IfOk result (λ calls.
        calls ≡ spec.calls_of_select scope.now items.now having.now) }
{
    let mut calls = Seq::empty(alloc);
    push_calls_in_items(alloc, scope, items, &mut calls)?;
    if let Some(having) = having {
        push_calls_in(alloc, scope, &having.condition, &mut calls)?;
    }
    Ok(calls)
}

/// The columns of calls over the groups, behind so many group expressions.
pub fn call_columns(
    alloc: Global,
    keys: usize,
    calls: &[AggregateCall],
) -> Result<Seq<AggregateColumn>, Memory>
    ensures { IfOk result (λ columns. columns ≡ spec.call_columns keys calls.now) }
{
    let mut columns = Seq::empty(alloc);
    let mut number = keys;
    for call in calls {
        columns.push(AggregateColumn {
            place: call.place,
            column: number_of(number)?,
        })?;
        match number.checked_add(1) {
            None => return Err(Memory),
            Some(next) => number = next,
        }
    }
    Ok(columns)
}

fn part_exprs(alloc: Global, parts: &[u16]) -> Result<Seq<Expr>, Memory>
    ensures { IfOk result (λ exprs. exprs ≡ spec.part_exprs parts.now) }
{
    let mut exprs = Seq::empty(alloc);
    for part in parts {
        exprs.push(Expr::Col(*part))?;
    }
    Ok(exprs)
}

fn push_key_exprs(alloc: Global, keys: &[GroupKey], exprs: &mut Seq<Expr>) -> Result<(), Memory>
    ensures { OnOk result (exprs.new ≡ exprs.old ++ spec.key_exprs keys.now) }
{
    for key in keys {
        exprs.push(key.expr.copy(alloc)?)?;
    }
    Ok(())
}

fn push_call(alloc: Global, call: &AggregateCall, arguments: &mut Arguments) -> Result<(), Memory>
    ensures { OnOk result (arguments.new ≡ spec.with_call arguments.old call.now) }
{
    match &call.argument {
        None => arguments.aggregates.push(Aggregate {
            kind: call.kind,
            column: None,
        }),
        Some(expr) => {
            let column = number_of(arguments.exprs.items().len())?;
            arguments.exprs.push(expr.copy(alloc)?)?;
            arguments.aggregates.push(Aggregate {
                kind: call.kind,
                column: Some(column),
            })
        }
    }
}

/// The columns of the parts, the group expressions and the arguments of calls behind them, and the
/// aggregates of those.
#[tactic(auto, unfolding(crate::specs::Aggregates::arguments_of))]
pub fn arguments_of(
    alloc: Global,
    parts: &[u16],
    keys: &[GroupKey],
    calls: &[AggregateCall],
) -> Result<Arguments, Memory>
    ensures { IfOk result (λ arguments.
        arguments ≡ spec.arguments_of parts.now keys.now calls.now) }
{
    let mut exprs = part_exprs(alloc, parts)?;
    push_key_exprs(alloc, keys, &mut exprs)?;
    let mut arguments = Arguments {
        exprs,
        aggregates: Seq::empty(alloc),
    };
    for call in calls {
        push_call(alloc, call, &mut arguments)?;
    }
    Ok(arguments)
}
