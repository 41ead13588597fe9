//! The names of all sources that a script names.

ghost use Rattle.std.specs.Prelude.{◌≡◌, ◌++◌, IfOk, OnOk};
ghost use Rattle.query_sources.specs.ScriptNames as spec;

use event_value::{Copies, Memory, Seq};
use query_tree::{Name, Script, Select, Stmt, Tail, Union, With};
use std::alloc::Global;

fn push_tail(tail: &Tail, names: &mut Seq<Name>) -> Result<(), Memory>
    ensures { OnOk result (names.new ≡ names.old ++ spec.names_of_tail tail.now) }
{
    names.push(tail.source.name.copy()?)?;
    for join in tail.joins.items() {
        names.push(join.source.name.copy()?)?;
    }
    Ok(())
}

fn push_selects(selects: &[Select], names: &mut Seq<Name>) -> Result<(), Memory>
    ensures { OnOk result (names.new ≡ names.old ++ spec.names_of_selects selects.now) }
{
    for select in selects {
        push_tail(&select.tail, names)?;
    }
    Ok(())
}

fn push_union(union: &Union, names: &mut Seq<Name>) -> Result<(), Memory>
    ensures { OnOk result (names.new ≡ names.old ++ spec.names_of_union union.now) }
{
    push_tail(&union.first.tail, names)?;
    push_selects(union.more.items(), names)
}

fn push_statement(stmt: &Stmt, names: &mut Seq<Name>) -> Result<(), Memory>
    ensures { OnOk result (names.new ≡ names.old ++ spec.names_of_statement stmt.now) }
{
    push_tail(&stmt.tail, names)?;
    push_selects(stmt.more.items(), names)
}

fn push_with(with: &With, names: &mut Seq<Name>) -> Result<(), Memory>
    ensures { OnOk result (names.new ≡ names.old ++ spec.names_of_with with.now) }
{
    push_union(&with.first.union, names)?;
    for def in with.more.items() {
        push_union(&def.union, names)?;
    }
    Ok(())
}

/// The names of all sources that a script names, in order of the text.
#[tactic(auto, unfolding(crate::specs::ScriptNames::names_of_script))]
pub fn names_of_script(alloc: Global, script: &Script) -> Result<Seq<Name>, Memory>
    ensures { IfOk result (λ names. names ≡ spec.names_of_script script.now) }
{
    let mut names = Seq::empty(alloc);
    if let Some(with) = &script.with {
        push_with(with, &mut names)?;
    }
    push_statement(&script.first, &mut names)?;
    for more in script.more.items() {
        push_statement(&more.stmt, &mut names)?;
    }
    Ok(names)
}
