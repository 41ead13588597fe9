//! Columns by name, and the time of a row.

ghost use Rattle.std.specs.Prelude.{◌≡◌, IfOk};
ghost use Rattle.query_readings.specs.Reading as spec;
ghost use Rattle.query_readings.specs.declared.columns.Found.TheVariants as spec_found;

use crate::forming::{column_sense, keyed, plain, refused_reading};
use crate::functions::is_time;
use crate::reading::{Face, Outcome, Reading};
use crate::scope::{Scope, ScopeColumn, ScopeSource};
use event_value::{Copies, Kind, Memory, Seq, Value};
use query_forms::{Cause, Sense, Valued, refuse};
use query_plan::Expr;
use query_tree::Path;
use std::alloc::Global;

/// In how many sources a column stands.
#[derive(Clone, Copy)]
pub enum Found {
    Nowhere,
    Once(u16, Option<Kind>),
    Twice,
}

/// What a path finds among the sources.
#[derive(Clone, Copy)]
pub enum Finding {
    /// A column.
    Column(u16, Option<Kind>),
    /// Nothing, where a source is unknown that may have it.
    Undecided,
    /// Nothing, by this rule.
    Missing(Cause),
}

fn column_in(columns: &[ScopeColumn], name: &[u8]) -> Option<(u16, Option<Kind>)>
    ensures { result ≡ spec.column_in columns.now name.now }
{
    for column in columns {
        if column.name.items() == name {
            return Some((column.column, column.kind));
        }
    }
    None
}

fn with_found(so_far: Found, found: Option<(u16, Option<Kind>)>) -> Found
    ensures { result ≡ spec.with_found so_far found }
{
    match found {
        None => so_far,
        Some((column, kind)) => match so_far {
            Found::Nowhere => Found::Once(column, kind),
            Found::Once(_, _) => Found::Twice,
            Found::Twice => Found::Twice,
        },
    }
}

fn found_in(sources: &[ScopeSource], name: &[u8]) -> Found
    ensures { result ≡ spec.found_from spec_found.Nowhere sources.now name.now }
{
    let mut found = Found::Nowhere;
    for source in sources {
        found = with_found(found, column_in(source.columns.items(), name));
    }
    found
}

fn finding_in_source(source: &ScopeSource, column: &[u8]) -> Finding
    ensures { result ≡ spec.finding_in_source source.now (
        spec.column_in source.now.columns column.now) }
{
    match column_in(source.columns.items(), column) {
        Some((column, kind)) => Finding::Column(column, kind),
        None => {
            if source.known {
                Finding::Missing(Cause::UnknownColumn)
            } else {
                Finding::Undecided
            }
        }
    }
}

// A column behind the name of a source.
fn qualified_in(sources: &[ScopeSource], name: &[u8], column: &[u8]) -> Finding
    ensures { result ≡ spec.qualified_in sources.now name.now column.now }
{
    for source in sources {
        if source.name.items() == name {
            return finding_in_source(source, column);
        }
    }
    Finding::Missing(Cause::UnknownColumn)
}

fn are_known(sources: &[ScopeSource]) -> bool
    ensures { result ≡ spec.are_known sources.now }
{
    for source in sources {
        if !source.known {
            return false;
        }
    }
    true
}

fn missing(sources: &[ScopeSource]) -> Finding
    ensures { result ≡ spec.missing sources.now }
{
    if are_known(sources) {
        Finding::Missing(Cause::UnknownColumn)
    } else {
        Finding::Undecided
    }
}

/// What a path finds among sources. It takes no memory.
#[tactic(auto, unfolding(crate::specs::Reading::finding_of))]
pub fn finding_of(sources: &[ScopeSource], path: &Path) -> Finding
    ensures { result ≡ spec.finding_of sources.now path.now }
{
    match &path.second {
        None => match found_in(sources, path.first.text.items()) {
            Found::Nowhere => missing(sources),
            Found::Once(column, kind) => Finding::Column(column, kind),
            Found::Twice => Finding::Missing(Cause::Ambiguous),
        },
        Some(second) => qualified_in(sources, path.first.text.items(), second.text.items()),
    }
}

/// A value that another fault leaves open.
pub fn undecided(kind: Option<Kind>) -> Sense
    ensures { result ≡ spec.undecided kind }
{
    Sense::Value(Valued {
        expr: Expr::Lit(Value::Null),
        kind,
    })
}

fn column_over_rows(alloc: Global, place: u32, finding: Finding) -> Result<Outcome, Memory>
    ensures { IfOk result (λ outcome. outcome ≡ spec.column_over_rows place finding) }
{
    match finding {
        Finding::Column(column, kind) => Ok(Ok(column_sense(column, kind))),
        Finding::Undecided => Ok(Ok(undecided(None))),
        Finding::Missing(cause) => refuse(alloc, place, cause),
    }
}

fn column_over_groups(alloc: Global, place: u32, finding: Finding) -> Result<Outcome, Memory>
    ensures { IfOk result (λ outcome. outcome ≡ spec.column_over_groups place finding) }
{
    match finding {
        Finding::Column(_, _) => refuse(alloc, place, Cause::NotGrouped),
        Finding::Undecided => Ok(Ok(undecided(None))),
        Finding::Missing(cause) => refuse(alloc, place, cause),
    }
}

fn column_face(path: &Path) -> Result<Face, Memory>
    ensures { IfOk result (λ face. face ≡ spec.column_face path.now) }
{
    match &path.second {
        None => Ok(Face::Word(path.first.text.copy()?)),
        Some(second) => Ok(Face::Qualified(second.text.copy()?)),
    }
}

#[tactic(auto, unfolding(crate::specs::Reading::named_column))]
fn named_column(alloc: Global, scope: &Scope, path: &Path) -> Result<Reading, Memory>
    ensures { IfOk result (λ reading. reading ≡ spec.named_column scope.now path.now) }
{
    let finding = finding_of(scope.sources.items(), path);
    let face = column_face(path)?;
    let rows = column_over_rows(alloc, path.place, finding)?;
    let groups = column_over_groups(alloc, path.place, finding)?;
    Ok(keyed(scope, path.place, rows, groups, Seq::empty(alloc), face))
}

/// The time of a row, where it may be named.
#[tactic(auto, unfolding(crate::specs::Reading::time_reading))]
pub fn time_reading(alloc: Global, scope: &Scope, place: u32) -> Result<Reading, Memory>
    ensures { IfOk result (λ reading. reading ≡ spec.time_reading scope.now place) }
{
    if !scope.timed {
        return refused_reading(alloc, place, Cause::Unsupported);
    }
    let time = Sense::Value(Valued {
        expr: Expr::Stamp,
        kind: Some(Kind::Moment),
    });
    plain(alloc, scope, place, time, Face::Other)
}

/// A column, or the time of a row.
#[tactic(auto, unfolding(crate::specs::Reading::column_reading))]
pub fn column_reading(alloc: Global, scope: &Scope, path: &Path) -> Result<Reading, Memory>
    ensures { IfOk result (λ reading. reading ≡ spec.column_reading scope.now path.now) }
{
    if is_time(path) {
        return time_reading(alloc, scope, path.place);
    }
    named_column(alloc, scope, path)
}
