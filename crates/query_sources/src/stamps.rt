//! TIMESTAMP BY, and which mentions of a stream agree on it.

ghost use Rattle.std.specs.Prelude.{◌≡◌, ◌++◌, IfOk, OnOk};
ghost use Rattle.query_sources.specs.Stamps as spec;

use crate::draft::{Draft, Mention, Stamping};
use event_value::{Kind, Memory, Seq};
use query_forms::{Cause, Checked, Fault, Sense, is_of, refuse};
use query_plan::Expr;
use query_readings::{Finding, Outcome, Scope, ScopeSource, finding_of, is_same_expr};
use query_senses::read_expr;
use query_tree::{Over, Path, Stamp};
use std::alloc::Global;

/// The columns behind OVER so far, and the faults in them.
#[derive(Drop)]
pub struct Columns {
    pub found: Seq<u16>,
    pub faults: Seq<Fault>,
}

fn moment_of(alloc: Global, place: u32, outcome: Outcome) -> Result<Checked<Expr>, Memory>
    ensures { IfOk result (λ checked. checked ≡ spec.moment_of place outcome) }
{
    match outcome {
        Err(faults) => Ok(Err(faults)),
        Ok(Sense::Condition(_)) => refuse(alloc, place, Cause::Kind),
        Ok(Sense::Value(value)) => {
            if is_of(Kind::Moment, value.kind) {
                return Ok(Ok(value.expr));
            }
            refuse(alloc, place, Cause::Kind)
        }
    }
}

fn with_column(sources: &[ScopeSource], path: &Path, columns: &mut Columns) -> Result<(), Memory>
    ensures { OnOk result (columns.new ≡ spec.with_column sources.now columns.old path.now) }
{
    match finding_of(sources, path) {
        Finding::Column(column, _) => columns.found.push(column),
        Finding::Undecided => Ok(()),
        Finding::Missing(cause) => columns.faults.push(Fault {
            place: path.place,
            cause,
        }),
    }
}

fn no_columns(alloc: Global) -> Columns
    ensures { result ≡ spec.no_columns }
{
    Columns {
        found: Seq::empty(alloc),
        faults: Seq::empty(alloc),
    }
}

/// The columns that are listed behind OVER.
pub fn columns_listed(
    alloc: Global,
    sources: &[ScopeSource],
    first: &Path,
    more: &[Path],
) -> Result<Columns, Memory>
    ensures { IfOk result (λ columns. columns ≡ spec.columns_listed sources.now first.now more.now) }
{
    let mut columns = no_columns(alloc);
    with_column(sources, first, &mut columns)?;
    for path in more {
        with_column(sources, path, &mut columns)?;
    }
    Ok(columns)
}

fn columns_of(
    alloc: Global,
    sources: &[ScopeSource],
    over: &Option<Over>,
) -> Result<Columns, Memory>
    ensures { IfOk result (λ columns. columns ≡ spec.columns_of sources.now over.now) }
{
    match over {
        None => Ok(no_columns(alloc)),
        Some(over) => columns_listed(alloc, sources, &over.first, over.more.items()),
    }
}

fn stamping_of(expr: Expr, columns: Columns) -> Stamping
    ensures { result ≡ spec.stamping_of expr columns }
{
    match columns.faults.items() {
        [] => Stamping::By(expr, columns.found),
        [_, ..] => Stamping::Refused,
    }
}

/// Reads TIMESTAMP BY in the scope of its stream.
#[tactic(auto, unfolding(crate::specs::Stamps::stamping, crate::specs::Stamps::stamp_noted))]
pub fn read_stamp(
    alloc: Global,
    scope: &Scope,
    stamp: &Stamp,
    draft: &mut Draft,
) -> Result<Stamping, Memory>
    ensures stamping { IfOk result (λ stamping. stamping ≡ spec.stamping scope.now stamp.now) }
    ensures faults { OnOk result (draft.new ≡ spec.stamp_noted scope.now stamp.now draft.old) }
{
    let reading = read_expr(alloc, scope, &stamp.expr)?;
    let columns = columns_of(alloc, scope.sources.items(), &stamp.over)?;
    match moment_of(alloc, stamp.expr.place, reading.rows)? {
        Ok(expr) => {
            draft.note_all(columns.faults.items())?;
            Ok(stamping_of(expr, columns))
        }
        Err(faults) => {
            draft.note_all(faults.items())?;
            draft.note_all(columns.faults.items())?;
            Ok(Stamping::Refused)
        }
    }
}

fn are_same_columns(left: &[u16], right: &[u16]) -> bool
    ensures { result ≡ spec.are_same_columns left.now right.now }
{
    left == right
}

fn is_same_stamping(left: &Stamping, right: &Stamping) -> bool
    ensures { result ≡ spec.is_same_stamping left.now right.now }
{
    match left {
        Stamping::Arrival => match right {
            Stamping::Arrival => true,
            Stamping::By(_, _) => false,
            Stamping::Refused => false,
        },
        Stamping::By(expr, columns) => match right {
            Stamping::By(other, others) => {
                is_same_expr(expr, other) && are_same_columns(columns.items(), others.items())
            }
            Stamping::Arrival => false,
            Stamping::Refused => false,
        },
        Stamping::Refused => match right {
            Stamping::Refused => true,
            Stamping::Arrival => false,
            Stamping::By(_, _) => false,
        },
    }
}

fn differs_from_first(mentions: &[Mention], mention: &Mention) -> bool
    ensures { result ≡ spec.differs_from_first mentions.now mention.now }
{
    for first in mentions {
        if first.stream == mention.stream {
            return !is_same_stamping(&first.stamping, &mention.stamping);
        }
    }
    false
}

/// The faults of mentions that don't say the same as the first one of their stream.
pub fn faults_of_mentions(alloc: Global, mentions: &[Mention]) -> Result<Seq<Fault>, Memory>
    ensures { IfOk result (λ faults. faults ≡ spec.faults_of_mentions mentions.now mentions.now) }
{
    let mut faults = Seq::empty(alloc);
    for mention in mentions {
        if differs_from_first(mentions, mention) {
            faults.push(Fault {
                place: mention.place,
                cause: Cause::StampTwice,
            })?;
        }
    }
    Ok(faults)
}
