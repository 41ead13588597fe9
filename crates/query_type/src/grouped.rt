//! The groups of a select: what the window takes of each row, the window, the scope over them.

ghost use Rattle.std.specs.Prelude.{◌≡◌, IfOk, OnOk, pos};
ghost use Rattle.query_windows.specs.Groups.{first_window};
ghost use Rattle.query_type.specs.Selects as spec;

use event_value::{Aggregate, Memory, Seq};
use query_plan::Step;
use query_readings::{AggregateCall, GroupKey, Scope};
use query_sources::{Draft, number_of};
use query_tree::{GroupBy, Having, SelectItems};
use query_windows::{Window, arguments_of, call_columns, calls_of_select, read_groups};
use std::alloc::Global;
use tick_time::{Span, Unit, span_of};

// The offset of a window without one.
#[tactic(auto, unfolding(tick_time::specs::Span::span_of_units))]
fn no_offset() -> Option<Span>
    ensures { result ≡ Some (pos 0) }
{
    span_of(Unit::Day, 0)
}

fn go_on_with_window(
    window: Window,
    parts: u16,
    keys: u16,
    aggs: Seq<Aggregate>,
    draft: &mut Draft,
) -> Result<(), Memory>
    ensures { OnOk result (draft.new ≡ spec.with_window window parts keys aggs draft.old) }
{
    let from = draft.last;
    match window {
        Window::Snapshot => draft.go_on(Step::Snapshot { from, keys, aggs }),
        Window::Grid(size, hop) => match no_offset() {
            None => Err(Memory),
            Some(offset) => draft.go_on(Step::Grid {
                from,
                size,
                hop,
                offset,
                keys,
                aggs,
            }),
        },
        Window::Sliding(size) => draft.go_on(Step::Sliding {
            from,
            size,
            keys,
            aggs,
        }),
        Window::Session(timeout, most) => draft.go_on(Step::Session {
            from,
            timeout,
            most,
            parts,
            keys,
            aggs,
        }),
    }
}

// The steps of groups: what the window takes of each row, and the window.
fn go_on_with_groups(
    alloc: Global,
    window: Window,
    parts: &[u16],
    keys: &[GroupKey],
    calls: &[AggregateCall],
    draft: &mut Draft,
) -> Result<(), Memory>
    ensures { OnOk result (
        draft.new ≡ spec.grouped window parts.now keys.now calls.now draft.old) }
{
    let part_number = number_of(parts.len())?;
    let number = number_of(keys.len())?;
    let arguments = arguments_of(alloc, parts, keys, calls)?;
    draft.go_on(Step::Project {
        from: draft.last,
        exprs: arguments.exprs,
    })?;
    go_on_with_window(window, part_number, number, arguments.aggregates, draft)
}

fn first_window(windows: &[Option<Window>]) -> Window
    ensures { result ≡ first_window windows.now }
{
    match windows {
        [] => Window::Snapshot,
        [None, ..] => Window::Snapshot,
        [Some(window), ..] => *window,
    }
}

fn with_keys(scope: Scope, keys: Seq<GroupKey>) -> Scope
    ensures { result ≡ spec.with_keys keys scope }
{
    Scope {
        sources: scope.sources,
        timed: scope.timed,
        keys,
        aggregates: scope.aggregates,
    }
}

fn with_calls(alloc: Global, scope: Scope, calls: &[AggregateCall]) -> Result<Scope, Memory>
    ensures { IfOk result (λ made. made ≡ spec.with_calls calls.now scope) }
{
    let aggregates = call_columns(alloc, scope.keys.items().len(), calls)?;
    Ok(Scope {
        sources: scope.sources,
        timed: scope.timed,
        keys: scope.keys,
        aggregates,
    })
}

/// Reads the groups of a select and goes on with them; the scope is that of what stands over them.
#[tactic(auto, unfolding(crate::specs::Selects::group_scope, crate::specs::Selects::groups_read))]
pub fn open_groups(
    alloc: Global,
    scope: Scope,
    groups: &GroupBy,
    having: &Option<Having>,
    items: &SelectItems,
    draft: &mut Draft,
) -> Result<Scope, Memory>
    ensures scope { IfOk result (λ made.
        made ≡ spec.group_scope scope groups.now having.now items.now) }
    ensures draft { OnOk result (
        draft.new ≡ spec.groups_read scope groups.now having.now items.now draft.old) }
{
    let grouping = read_groups(alloc, &scope, groups)?;
    draft.note_all(grouping.faults.items())?;
    let window = first_window(grouping.windows.items());
    let parts = grouping.parts;
    let keyed = with_keys(scope, grouping.keys);
    let calls = calls_of_select(alloc, &keyed, items, having)?;
    go_on_with_groups(
        alloc,
        window,
        parts.items(),
        keyed.keys.items(),
        calls.items(),
        draft,
    )?;
    with_calls(alloc, keyed, calls.items())
}
