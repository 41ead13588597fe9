//! GROUP BY: its windows and its group expressions.

ghost use Rattle.std.specs.Prelude.{◌≡◌, IfOk, OnOk};
ghost use Rattle.query_windows.specs.Groups as spec;

use crate::windows::{Window, WindowName, window_named, window_of};
use event_value::{Memory, Seq};
use query_forms::{Cause, Checked, Fault, Valued, push_faults};
use query_literals::bare_primary;
use query_readings::{GroupKey, Scope, is_time};
use query_senses::read_expr;
use query_sources::{Columns, columns_listed, number_of, value_of};
use query_tree::{Args, Call, Expr, Group, GroupBy, Partition, Path, Primary};
use std::alloc::Global;

/// The groups so far, and the faults in them; a window that is refused is none. The parts are the
/// columns behind the OVER of a session window.
#[derive(Drop)]
pub struct Grouping {
    pub keys: Seq<GroupKey>,
    pub windows: Seq<Option<Window>>,
    pub parts: Seq<u16>,
    pub faults: Seq<Fault>,
}

// How many group items a select may have.
const MAX_GROUPS: usize = 16;

fn named_window(
    alloc: Global,
    place: u32,
    path: &Path,
    args: &Option<Args>,
) -> Result<Option<Checked<Window>>, Memory>
    ensures { IfOk result (λ window. window ≡ spec.named_window place path.now args.now) }
{
    match path.second {
        Some(_) => Ok(None),
        None => match window_named(path.first.text.items()) {
            None => Ok(None),
            Some(name) => Ok(Some(window_of(alloc, place, name, args)?)),
        },
    }
}

fn window_of_function(
    alloc: Global,
    place: u32,
    path: &Path,
    args: &Option<Args>,
) -> Result<Option<Checked<Window>>, Memory>
    ensures { IfOk result (λ window. window ≡ spec.window_of_function place path.now args.now) }
{
    if !is_time(path) {
        return named_window(alloc, place, path, args);
    }
    match args {
        None => Ok(Some(Ok(Window::Snapshot))),
        Some(_) => Ok(None),
    }
}

fn window_of_call(alloc: Global, call: &Call) -> Result<Option<Checked<Window>>, Memory>
    ensures { IfOk result (λ window. window ≡ spec.window_of_call call.now) }
{
    match call {
        Call::Cast(_, _, _, _) => Ok(None),
        Call::Function(place, path, args) => window_of_function(alloc, *place, path, args),
    }
}

fn window_of_primary(alloc: Global, primary: &Primary) -> Result<Option<Checked<Window>>, Memory>
    ensures { IfOk result (λ window. window ≡ spec.window_of_primary primary.now) }
{
    match primary {
        Primary::Call(call) => window_of_call(alloc, call),
        Primary::Column(path) => {
            if is_time(path) {
                Ok(Some(Ok(Window::Snapshot)))
            } else {
                Ok(None)
            }
        }
        _ => Ok(None),
    }
}

fn window_in(alloc: Global, expr: &Expr) -> Result<Option<Checked<Window>>, Memory>
    ensures { IfOk result (λ window. window ≡ spec.window_in expr.now) }
{
    match bare_primary(expr) {
        None => Ok(None),
        Some(primary) => window_of_primary(alloc, primary),
    }
}

fn push_window(window: Checked<Window>, grouping: &mut Grouping) -> Result<(), Memory>
    ensures { OnOk result (grouping.new ≡ spec.with_window window grouping.old) }
{
    match window {
        Ok(window) => grouping.windows.push(Some(window)),
        Err(faults) => {
            push_faults(&mut grouping.faults, faults.items())?;
            grouping.windows.push(None)
        }
    }
}

fn push_key(value: Checked<Valued>, grouping: &mut Grouping) -> Result<(), Memory>
    ensures { OnOk result (grouping.new ≡ spec.with_key value grouping.old) }
{
    match value {
        Err(faults) => push_faults(&mut grouping.faults, faults.items()),
        Ok(value) => {
            let column = number_of(grouping.keys.items().len())?;
            grouping.keys.push(GroupKey {
                expr: value.expr,
                kind: value.kind,
                column,
            })
        }
    }
}

fn is_session_path(path: &Path) -> bool
    ensures { result ≡ spec.is_session_named path.now.first path.now.second }
{
    match path.second {
        Some(_) => false,
        None => match window_named(path.first.text.items()) {
            Some(WindowName::Session) => true,
            _ => false,
        },
    }
}

fn is_session_call(call: &Call) -> bool
    ensures { result ≡ spec.is_session_call call.now }
{
    match call {
        Call::Cast(_, _, _, _) => false,
        Call::Function(_, path, _) => is_session_path(path),
    }
}

fn is_session_primary(primary: &Primary) -> bool
    ensures { result ≡ spec.is_session_primary primary.now }
{
    match primary {
        Primary::Call(call) => is_session_call(call),
        _ => false,
    }
}

// Whether a group is a session window, whatever its arguments.
fn is_session(expr: &Expr) -> bool
    ensures { result ≡ spec.is_session expr.now }
{
    match bare_primary(expr) {
        None => false,
        Some(primary) => is_session_primary(primary),
    }
}

fn with_parts(columns: Columns, grouping: &mut Grouping) -> Result<(), Memory>
    ensures { OnOk result (grouping.new ≡ spec.with_parts columns grouping.old) }
{
    push_faults(&mut grouping.faults, columns.faults.items())?;
    grouping.parts = columns.found;
    Ok(())
}

fn push_partition(
    alloc: Global,
    scope: &Scope,
    group: &Group,
    partition: &Partition,
    grouping: &mut Grouping,
) -> Result<(), Memory>
    ensures { OnOk result (grouping.new ≡ spec.with_partition scope.now group.now.place
        (spec.is_session group.now.expr) partition.now grouping.old) }
{
    if !is_session(&group.expr) {
        return grouping.faults.push(Fault {
            place: group.place,
            cause: Cause::Unsupported,
        });
    }
    let columns = columns_listed(
        alloc,
        scope.sources.items(),
        &partition.first,
        partition.more.items(),
    )?;
    with_parts(columns, grouping)
}

// OVER belongs to a session window.
fn push_over(
    alloc: Global,
    scope: &Scope,
    group: &Group,
    grouping: &mut Grouping,
) -> Result<(), Memory>
    ensures { OnOk result (grouping.new ≡ spec.with_over scope.now group.now grouping.old) }
{
    match &group.partition {
        None => Ok(()),
        Some(partition) => push_partition(alloc, scope, group, partition, grouping),
    }
}

fn push_group(
    alloc: Global,
    scope: &Scope,
    group: &Group,
    grouping: &mut Grouping,
) -> Result<(), Memory>
    ensures { OnOk result (grouping.new ≡ spec.with_group scope.now grouping.old group.now) }
{
    push_over(alloc, scope, group, grouping)?;
    match window_in(alloc, &group.expr)? {
        Some(window) => push_window(window, grouping),
        None => {
            let reading = read_expr(alloc, scope, &group.expr)?;
            let value = value_of(alloc, group.expr.place, reading.rows)?;
            push_key(value, grouping)
        }
    }
}

// The first group above the limit.
fn push_excess(groups: &GroupBy, grouping: &mut Grouping) -> Result<(), Memory>
    ensures { OnOk result (grouping.new ≡ spec.with_excess groups.now grouping.old) }
{
    match groups.more.items().get(MAX_GROUPS - 1) {
        None => Ok(()),
        Some(group) => grouping.faults.push(Fault {
            place: group.place,
            cause: Cause::TooMany,
        }),
    }
}

fn push_count(groups: &GroupBy, grouping: &mut Grouping) -> Result<(), Memory>
    ensures { OnOk result (grouping.new ≡ spec.with_one_window groups.now.place grouping.old) }
{
    match grouping.windows.items() {
        [_] => Ok(()),
        _ => grouping.faults.push(Fault {
            place: groups.place,
            cause: Cause::Window,
        }),
    }
}

/// Reads the groups of a select.
#[tactic(auto, unfolding(crate::specs::Groups::grouping_of))]
pub fn read_groups(alloc: Global, scope: &Scope, groups: &GroupBy) -> Result<Grouping, Memory>
    ensures { IfOk result (λ grouping. grouping ≡ spec.grouping_of scope.now groups.now) }
{
    let mut grouping = Grouping {
        keys: Seq::empty(alloc),
        windows: Seq::empty(alloc),
        parts: Seq::empty(alloc),
        faults: Seq::empty(alloc),
    };
    push_group(alloc, scope, &groups.first, &mut grouping)?;
    for group in groups.more.items() {
        push_group(alloc, scope, group, &mut grouping)?;
    }
    push_excess(groups, &mut grouping)?;
    push_count(groups, &mut grouping)?;
    Ok(grouping)
}
