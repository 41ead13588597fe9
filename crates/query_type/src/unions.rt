//! UNION: selects of equal columns, joined from the left.

ghost use Rattle.std.specs.Prelude.{◌≡◌, IfOk, OnOk};
ghost use Rattle.query_type.specs.Unions as spec;

use crate::selects::read_select;
use event_value::{Copies, Kind, Memory, Seq};
use query_forms::{Cause, is_same_kind};
use query_plan::Step;
use query_sources::{Draft, KnownSource, ResultColumn};
use query_tree::{Select, Union};
use std::alloc::Global;

fn is_equal_kind(left: Option<Kind>, right: Option<Kind>) -> bool
    ensures { result ≡ spec.is_equal_kind left right }
{
    match left {
        None => true,
        Some(left) => match right {
            None => true,
            Some(right) => is_same_kind(left, right),
        },
    }
}

fn is_equal_column(left: &ResultColumn, right: &ResultColumn) -> bool
    ensures { result ≡ spec.is_equal_column left.now right.now }
{
    is_equal_kind(left.kind, right.kind)
}

fn are_equal_columns(left: &[ResultColumn], right: &[ResultColumn]) -> bool
    ensures { result ≡ spec.are_equal_columns left.now right.now }
{
    let mut others = right;
    for column in left {
        match others {
            [] => return false,
            [other, rest @ ..] => {
                if !is_equal_column(column, other) {
                    return false;
                }
                others = rest;
            }
        }
    }
    others.is_empty()
}

fn known_kind(left: Option<Kind>, right: Option<Kind>) -> Option<Kind>
    ensures { result ≡ spec.known_kind left right }
{
    match left {
        Some(kind) => Some(kind),
        None => right,
    }
}

fn merged_column(left: &ResultColumn, right: &ResultColumn) -> Result<ResultColumn, Memory>
    ensures { IfOk result (λ column. column ≡ spec.merged_column left.now right.now) }
{
    Ok(ResultColumn {
        name: left.name.copy()?,
        kind: known_kind(left.kind, right.kind),
    })
}

fn merged_columns(
    alloc: Global,
    left: &[ResultColumn],
    right: &[ResultColumn],
) -> Result<Seq<ResultColumn>, Memory>
    ensures { IfOk result (λ columns. columns ≡ spec.merged_columns left.now right.now) }
{
    let mut columns = Seq::empty(alloc);
    let mut others = right;
    for column in left {
        match others {
            [] => columns.push(column.copy()?)?,
            [other, rest @ ..] => {
                columns.push(merged_column(column, other)?)?;
                others = rest;
            }
        }
    }
    Ok(columns)
}

// Joins a further select to the rows so far, which have these columns.
#[tactic(auto, unfolding(crate::specs::Unions::joined_columns, crate::specs::Unions::joined_read))]
fn join_select(
    alloc: Global,
    known: &[KnownSource],
    columns: &[ResultColumn],
    select: &Select,
    draft: &mut Draft,
) -> Result<Seq<ResultColumn>, Memory>
    ensures columns { IfOk result (λ joined.
        joined ≡ spec.joined_columns known.now columns.now select.now) }
    ensures draft { OnOk result (
        draft.new ≡ spec.joined_read known.now columns.now select.now draft.old) }
{
    let first = draft.last;
    let next = read_select(
        alloc,
        known,
        select.place,
        true,
        &select.items,
        &select.tail,
        draft,
    )?;
    if !are_equal_columns(columns, next.items()) {
        draft.note(select.place, Cause::Kind)?;
    }
    draft.go_on(Step::Union {
        first,
        second: draft.last,
    })?;
    merged_columns(alloc, columns, next.items())
}

/// Joins further selects to the rows so far, which have these columns.
pub fn join_selects(
    alloc: Global,
    known: &[KnownSource],
    first: Seq<ResultColumn>,
    more: &[Select],
    draft: &mut Draft,
) -> Result<Seq<ResultColumn>, Memory>
    ensures columns { IfOk result (λ columns.
        columns ≡ spec.columns_from known.now first more.now) }
    ensures draft { OnOk result (draft.new ≡ spec.joined_from known.now first more.now draft.old) }
{
    let mut columns = first;
    for select in more {
        let joined = join_select(alloc, known, columns.items(), select, draft)?;
        columns = joined;
    }
    Ok(columns)
}

/// Reads a union.
pub fn read_union(
    alloc: Global,
    known: &[KnownSource],
    union: &Union,
    draft: &mut Draft,
) -> Result<Seq<ResultColumn>, Memory>
    ensures columns { IfOk result (λ columns. columns ≡ spec.columns_of_union known.now union.now) }
    ensures draft { OnOk result (draft.new ≡ spec.union_read known.now union.now draft.old) }
{
    let select = &union.first;
    let columns = read_select(
        alloc,
        known,
        select.place,
        false,
        &select.items,
        &select.tail,
        draft,
    )?;
    join_selects(alloc, known, columns, union.more.items(), draft)
}
