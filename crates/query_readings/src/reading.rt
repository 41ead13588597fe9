//! `Reading`, what an expression is over rows and groups, and its copies.

ghost use Rattle.std.specs.Prelude.{◌≡◌, ◌++◌, IfOk, OnOk};

use event_value::{AggKind, Copies, Memory, Seq, Text};
use query_forms::{Checked, Form, Sense};
use query_plan::Expr;
use std::alloc::Global;

/// What a part of a query is in a plan, or all the faults in it.
pub type Outcome = Checked<Sense>;

/// An aggregate call.
#[derive(Drop)]
pub struct AggregateCall {
    /// The place of the call.
    pub place: u32,
    /// What it computes.
    pub kind: AggKind,
    /// What it computes it of, over the rows; none for the number of the rows.
    pub argument: Option<Expr>,
}

/// How an expression is written, where it stands for itself.
#[derive(Drop)]
pub enum Face {
    /// A column without its source.
    Word(Text),
    /// A column behind its source.
    Qualified(Text),
    /// A text in quotes.
    Literal,
    /// Anything else.
    Other,
}

/// What an expression is.
#[derive(Drop)]
pub struct Reading {
    /// The place of its first byte.
    pub place: u32,
    /// Over the rows.
    pub rows: Outcome,
    /// Over the groups.
    pub groups: Outcome,
    /// The aggregate calls in it, in order of place.
    pub calls: Seq<AggregateCall>,
    /// How it is written.
    pub face: Face,
}

/// Over what an expression is read.
#[derive(Clone, Copy)]
pub enum Side {
    /// Over the rows of a source.
    Rows,
    /// Over the groups of a window.
    Groups,
}

/// A further part of a chain, with what it makes with the parts before it.
#[derive(Drop)]
pub struct Part {
    pub form: Form,
    pub reading: Reading,
}

/// What stands behind a sum in a predicate: the form, and the parts behind the sum.
#[derive(Drop)]
pub struct PredicateRest {
    pub form: Form,
    pub parts: Seq<Reading>,
}

impl AggregateCall {
    /// A call that equals this one.
    ///
    /// # Errors
    /// `Memory` where there was none for the copy.
    pub fn copy(&self, alloc: Global) -> Result<AggregateCall, Memory>
        ensures { IfOk result (λ copied. copied ≡ self.now) }
    {
        Ok(AggregateCall {
            place: self.place,
            kind: self.kind,
            argument: copied_expr(alloc, &self.argument)?,
        })
    }
}

fn copied_expr(alloc: Global, expr: &Option<Expr>) -> Result<Option<Expr>, Memory>
    ensures { IfOk result (λ copied. copied ≡ expr.now) }
{
    match expr {
        None => Ok(None),
        Some(expr) => Ok(Some(expr.copy(alloc)?)),
    }
}

fn copied_face(face: &Face) -> Result<Face, Memory>
    ensures { IfOk result (λ copied. copied ≡ face.now) }
{
    match face {
        Face::Word(name) => Ok(Face::Word(name.copy()?)),
        Face::Qualified(name) => Ok(Face::Qualified(name.copy()?)),
        Face::Literal => Ok(Face::Literal),
        Face::Other => Ok(Face::Other),
    }
}

/// A copy of an outcome.
pub fn copied_outcome(alloc: Global, outcome: &Outcome) -> Result<Outcome, Memory>
    ensures { IfOk result (λ copied. copied ≡ outcome.now) }
{
    match outcome {
        Ok(sense) => Ok(Ok(sense.copy(alloc)?)),
        Err(faults) => Ok(Err(faults.copy()?)),
    }
}

/// Adds copies of calls at the end.
///
/// # Errors
/// `Memory` where there was none; some of them may then stand at the end.
pub fn push_calls(
    alloc: Global,
    calls: &mut Seq<AggregateCall>,
    more: &[AggregateCall],
) -> Result<(), Memory>
    ensures { OnOk result (calls.new ≡ calls.old ++ more.now) }
{
    for call in more {
        calls.push(call.copy(alloc)?)?;
    }
    Ok(())
}

fn copied_calls(alloc: Global, calls: &[AggregateCall]) -> Result<Seq<AggregateCall>, Memory>
    ensures { IfOk result (λ copied. copied ≡ calls.now) }
{
    let mut copied = Seq::empty(alloc);
    push_calls(alloc, &mut copied, calls)?;
    Ok(copied)
}

impl Reading {
    /// A reading that equals this one.
    ///
    /// # Errors
    /// `Memory` where there was none for the copy.
    pub fn copy(&self, alloc: Global) -> Result<Reading, Memory>
        ensures { IfOk result (λ copied. copied ≡ self.now) }
    {
        let calls = copied_calls(alloc, self.calls.items())?;
        let face = copied_face(&self.face)?;
        let rows = copied_outcome(alloc, &self.rows)?;
        Ok(Reading {
            place: self.place,
            groups: copied_outcome(alloc, &self.groups)?,
            rows,
            calls,
            face,
        })
    }
}
