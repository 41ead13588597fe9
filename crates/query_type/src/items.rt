//! The items of a select: their values, and the names and kinds of its columns.

ghost use Rattle.std.specs.Prelude.{◌≡◌, ◌++◌, ◌+◌, IfOk, OnOk, length};
ghost use Rattle.query_type.specs.Items as spec;

use event_value::{Copies, Memory, Seq, Text};
use query_forms::{Cause, Checked, Fault, Valued, push_faults};
use query_plan::Expr;
use query_readings::{Face, Scope, ScopeColumn, Side, take_side};
use query_senses::read_expr;
use query_sources::{ResultColumn, value_of};
use query_tree::{Item, Name, SelectItems};
use std::alloc::Global;
use value_text::push_number;

/// The items so far: the columns that they give, their expressions, the faults in them.
#[derive(Drop)]
pub struct Picked {
    pub columns: Seq<ResultColumn>,
    pub exprs: Seq<Expr>,
    pub faults: Seq<Fault>,
}

// How many items a select may have.
const MAX_ITEMS: usize = 64;

// The name of an item without a written one: its column's, or its number.
fn name_of_face(alloc: Global, number: usize, face: &Face) -> Result<Text, Memory>
    ensures { IfOk result (λ name. name ≡ spec.name_of_face number face.now) }
{
    match face {
        Face::Word(name) => name.copy(),
        Face::Qualified(name) => name.copy(),
        Face::Literal => numbered(alloc, number),
        Face::Other => numbered(alloc, number),
    }
}

fn numbered(alloc: Global, number: usize) -> Result<Text, Memory>
    ensures { IfOk result (λ name. name ≡ spec.numbered number) }
{
    let mut name = Text::of(alloc, b"Column")?;
    push_number(&mut name, number as u64)?;
    Ok(name)
}

fn item_name(alloc: Global, number: usize, item: &Item, face: &Face) -> Result<Name, Memory>
    ensures { IfOk result (λ name. name ≡ spec.item_name number item.now face.now) }
{
    match &item.alias {
        Some(alias) => alias.name.copy(),
        None => Ok(Name {
            place: item.place,
            text: name_of_face(alloc, number, face)?,
        }),
    }
}

fn push_value(name: Name, value: Checked<Valued>, picked: &mut Picked) -> Result<(), Memory>
    ensures { OnOk result (picked.new ≡ spec.with_value name value picked.old) }
{
    match value {
        Err(faults) => {
            push_faults(&mut picked.faults, faults.items())?;
            picked.columns.push(ResultColumn { name, kind: None })
        }
        Ok(value) => {
            picked.exprs.push(value.expr)?;
            picked.columns.push(ResultColumn {
                name,
                kind: value.kind,
            })
        }
    }
}

fn push_item(
    alloc: Global,
    scope: &Scope,
    side: Side,
    item: &Item,
    picked: &mut Picked,
) -> Result<(), Memory>
    ensures { OnOk result (picked.new ≡ spec.with_item scope.now side picked.old item.now) }
{
    let Some(number) = picked.columns.items().len().checked_add(1) else {
        return Err(Memory);
    };
    let reading = read_expr(alloc, scope, &item.expr)?;
    let name = item_name(alloc, number, item, &reading.face)?;
    let value = value_of(alloc, item.expr.place, take_side(side, reading))?;
    push_value(name, value, picked)
}

fn push_excess(more: &[Item], picked: &mut Picked) -> Result<(), Memory>
    ensures { OnOk result (picked.new ≡ spec.with_excess more.now picked.old) }
{
    match more.get(MAX_ITEMS - 1) {
        None => Ok(()),
        Some(item) => picked.faults.push(Fault {
            place: item.place,
            cause: Cause::TooMany,
        }),
    }
}

fn push_column(place: u32, column: &ScopeColumn, picked: &mut Picked) -> Result<(), Memory>
    ensures { OnOk result (picked.new ≡ spec.with_column place picked.old column.now) }
{
    picked.exprs.push(Expr::Col(column.column))?;
    picked.columns.push(ResultColumn {
        name: Name {
            place,
            text: column.name.copy()?,
        },
        kind: column.kind,
    })
}

fn push_columns(place: u32, columns: &[ScopeColumn], picked: &mut Picked) -> Result<(), Memory>
    ensures { OnOk result (picked.new ≡ spec.with_columns place picked.old columns.now) }
{
    for column in columns {
        push_column(place, column, picked)?;
    }
    Ok(())
}

// All columns of all sources; over groups they are refused.
fn push_star(scope: &Scope, side: Side, place: u32, picked: &mut Picked) -> Result<(), Memory>
    ensures { OnOk result (picked.new ≡ spec.with_star scope.now side place picked.old) }
{
    push_side(side, place, picked)?;
    for source in scope.sources.items() {
        push_columns(place, source.columns.items(), picked)?;
    }
    Ok(())
}

fn push_side(side: Side, place: u32, picked: &mut Picked) -> Result<(), Memory>
    ensures { OnOk result (picked.new ≡ spec.with_side side place picked.old) }
{
    match side {
        Side::Rows => Ok(()),
        Side::Groups => picked.faults.push(Fault {
            place,
            cause: Cause::NotGrouped,
        }),
    }
}

/// Reads the items of a select over the rows or the groups.
#[tactic(auto, unfolding(crate::specs::Items::picked_of))]
pub fn read_items(
    alloc: Global,
    scope: &Scope,
    side: Side,
    items: &SelectItems,
) -> Result<Picked, Memory>
    ensures { IfOk result (λ picked. picked ≡ spec.picked_of scope.now side items.now) }
{
    let mut picked = Picked {
        columns: Seq::empty(alloc),
        exprs: Seq::empty(alloc),
        faults: Seq::empty(alloc),
    };
    match items {
        SelectItems::Star(place) => {
            push_star(scope, side, *place, &mut picked)?;
            Ok(picked)
        }
        SelectItems::Listed(_, first, more) => {
            push_item(alloc, scope, side, first, &mut picked)?;
            for item in more.items() {
                push_item(alloc, scope, side, item, &mut picked)?;
            }
            push_excess(more.items(), &mut picked)?;
            Ok(picked)
        }
    }
}

/// The names of columns.
pub fn column_names(alloc: Global, columns: &[ResultColumn]) -> Result<Seq<Name>, Memory>
    ensures { IfOk result (λ names. names ≡ spec.column_names columns.now) }
{
    let mut names = Seq::empty(alloc);
    for column in columns {
        names.push(column.name.copy()?)?;
    }
    Ok(names)
}
