//! One select: its steps, its columns, the faults in it.

ghost use Rattle.std.specs.Prelude.{◌≡◌, IfOk, OnOk};
ghost use Rattle.query_type.specs.Selects as spec;

use crate::grouped::open_groups;
use crate::items::{Picked, column_names, read_items};
use event_value::{Memory, Seq};
use query_forms::Cause;
use query_plan::Step;
use query_readings::{Scope, Side};
use query_sources::{
    Draft, KnownSource, ResultColumn, known_named, mention_tail, note_repeats, read_filter,
    read_joins, scope_of_tail,
};
use query_tree::{Expr, GroupBy, Having, SelectItems, Tail};
use std::alloc::Global;

fn filter_steps(condition: &Option<Expr>) -> usize
    ensures { result ≡ spec.filter_steps condition.now }
{
    match condition {
        None => 0,
        Some(_) => 1,
    }
}

fn having_steps(having: &Option<Having>) -> usize
    ensures { result ≡ spec.having_steps having.now }
{
    match having {
        None => 0,
        Some(_) => 1,
    }
}

fn group_steps(tail: &Tail) -> usize
    ensures { result ≡ spec.group_steps tail.now.groups tail.now.having }
{
    match tail.groups {
        None => 0,
        Some(_) => having_steps(&tail.having) + 2,
    }
}

// How many steps a select asks for: those of its joins, its clauses and its items.
fn step_count(tail: &Tail) -> Result<usize, Memory>
    ensures { IfOk result (λ count. count ≡ spec.step_count tail.now) }
{
    let clauses = filter_steps(&tail.condition) + group_steps(tail) + 1;
    match tail.joins.items().len().checked_add(clauses) {
        None => Err(Memory),
        Some(count) => Ok(count),
    }
}

fn whole_count(later: bool, tail: &Tail) -> Result<usize, Memory>
    ensures { IfOk result (λ count. count ≡ spec.whole_count later tail.now) }
{
    let own = step_count(tail)?;
    if !later {
        return Ok(own);
    }
    match own.checked_add(1) {
        None => Err(Memory),
        Some(count) => Ok(count),
    }
}

fn first_step(known: &[KnownSource], tail: &Tail) -> u16
    ensures { result ≡ spec.first_step known.now tail.now }
{
    match known_named(known, tail.source.name.text.items()) {
        None => 0,
        Some(source) => source.step,
    }
}

fn read_where(
    alloc: Global,
    scope: &Scope,
    condition: &Option<Expr>,
    draft: &mut Draft,
) -> Result<(), Memory>
    ensures { OnOk result (draft.new ≡ spec.where_read scope.now condition.now draft.old) }
{
    match condition {
        None => Ok(()),
        Some(condition) => read_filter(alloc, scope, Side::Rows, condition, draft),
    }
}

// The items as the last step of a select.
fn project(alloc: Global, picked: Picked, draft: &mut Draft) -> Result<Seq<ResultColumn>, Memory>
    ensures columns { IfOk result (λ columns. columns ≡ picked.columns) }
    ensures draft { OnOk result (draft.new ≡ spec.projected picked draft.old) }
{
    draft.note_all(picked.faults.items())?;
    note_repeats(
        alloc,
        column_names(alloc, picked.columns.items())?.items(),
        draft,
    )?;
    draft.go_on(Step::Project {
        from: draft.last,
        exprs: picked.exprs,
    })?;
    Ok(picked.columns)
}

// HAVING without groups isn't built.
fn refuse_having(having: &Option<Having>, draft: &mut Draft) -> Result<(), Memory>
    ensures { OnOk result (draft.new ≡ spec.having_refused having.now draft.old) }
{
    match having {
        None => Ok(()),
        Some(having) => draft.note(having.place, Cause::Unsupported),
    }
}

fn read_having(
    alloc: Global,
    scope: &Scope,
    having: &Option<Having>,
    draft: &mut Draft,
) -> Result<(), Memory>
    ensures { OnOk result (draft.new ≡ spec.having_read scope.now having.now draft.old) }
{
    match having {
        None => Ok(()),
        Some(having) => read_filter(alloc, scope, Side::Groups, &having.condition, draft),
    }
}

#[tactic(auto, unfolding(crate::specs::Selects::grouped_columns, crate::specs::Selects::grouped_read))]
fn read_grouped(
    alloc: Global,
    scope: Scope,
    groups: &GroupBy,
    having: &Option<Having>,
    items: &SelectItems,
    draft: &mut Draft,
) -> Result<Seq<ResultColumn>, Memory>
    ensures columns { IfOk result (λ columns.
        columns ≡ spec.grouped_columns scope groups.now having.now items.now) }
    ensures draft { OnOk result (
        draft.new ≡ spec.grouped_read scope groups.now having.now items.now draft.old) }
{
    let over = open_groups(alloc, scope, groups, having, items, draft)?;
    read_having(alloc, &over, having, draft)?;
    let picked = read_items(alloc, &over, Side::Groups, items)?;
    project(alloc, picked, draft)
}

#[tactic(auto, unfolding(crate::specs::Selects::plain_columns, crate::specs::Selects::plain_read))]
fn read_plain(
    alloc: Global,
    scope: &Scope,
    having: &Option<Having>,
    items: &SelectItems,
    draft: &mut Draft,
) -> Result<Seq<ResultColumn>, Memory>
    ensures columns { IfOk result (λ columns. columns ≡ spec.plain_columns scope.now items.now) }
    ensures draft { OnOk result (
        draft.new ≡ spec.plain_read scope.now having.now items.now draft.old) }
{
    refuse_having(having, draft)?;
    let picked = read_items(alloc, scope, Side::Rows, items)?;
    project(alloc, picked, draft)
}

// Begins a select: its steps are counted, its sources mentioned and joined to the first.
#[tactic(auto, unfolding(crate::specs::Selects::begun))]
fn begin(
    alloc: Global,
    known: &[KnownSource],
    place: u32,
    later: bool,
    tail: &Tail,
    draft: &mut Draft,
) -> Result<(), Memory>
    ensures { OnOk result (draft.new ≡ spec.begun known.now place later tail.now draft.old) }
{
    draft.ask(place, whole_count(later, tail)?)?;
    mention_tail(alloc, known, tail, draft)?;
    draft.last = first_step(known, tail);
    read_joins(alloc, known, tail, draft)
}

/// Reads a select at a place; a later one of a union asks for the step that joins it.
#[tactic(auto, unfolding(crate::specs::Selects::columns_of, crate::specs::Selects::select_read))]
pub fn read_select(
    alloc: Global,
    known: &[KnownSource],
    place: u32,
    later: bool,
    items: &SelectItems,
    tail: &Tail,
    draft: &mut Draft,
) -> Result<Seq<ResultColumn>, Memory>
    ensures columns { IfOk result (λ columns.
        columns ≡ spec.columns_of known.now items.now tail.now) }
    ensures draft { OnOk result (
        draft.new ≡ spec.select_read known.now place later items.now tail.now draft.old) }
{
    begin(alloc, known, place, later, tail, draft)?;
    let scope = scope_of_tail(alloc, known, tail)?;
    read_where(alloc, &scope, &tail.condition, draft)?;
    match &tail.groups {
        None => read_plain(alloc, &scope, &tail.having, items, draft),
        Some(groups) => read_grouped(alloc, scope, groups, &tail.having, items, draft),
    }
}
