//! Copies of expressions and conditions, part by part.

ghost use Rattle.std.specs.Prelude.{◌≡◌, IfOk};

use crate::{Branch, Cond, Expr};
use event_value::{Copies, both};
use sqlite_items::{Boxed, Items};
use std::alloc::Global;
use tick_time::Memory;

impl Expr {
    /// An expression that equals this one.
    ///
    /// # Errors
    /// `Memory` where there was none for the copy.
    #[cycle(copies)]
    pub fn copy(&self, alloc: Global) -> Result<Expr, Memory>
        ensures { IfOk result (λ copied. copied ≡ self.now) }
    {
        match self {
            Expr::Lit(value) => Ok(Expr::Lit(value.copy()?)),
            Expr::Col(place) => Ok(Expr::Col(*place)),
            Expr::Stamp => Ok(Expr::Stamp),
            Expr::Cast(inner, kind) => Ok(Expr::Cast(boxed_expr(alloc, inner)?, *kind)),
            Expr::Apply(op, operands) => {
                Ok(Expr::Apply(*op, copies_of_exprs(alloc, operands.as_slice())?))
            }
            Expr::Choose(branches, None) => Ok(Expr::Choose(
                copies_of_branches(alloc, branches.as_slice())?,
                None,
            )),
            Expr::Choose(branches, Some(otherwise)) => {
                let branches = copies_of_branches(alloc, branches.as_slice());
                let (branches, otherwise) = both(branches, boxed_expr(alloc, otherwise))?;
                Ok(Expr::Choose(branches, Some(otherwise)))
            }
        }
    }
}

impl Branch {
    /// A branch that equals this one.
    ///
    /// # Errors
    /// `Memory` where there was none for the copy.
    #[cycle(copies)]
    pub fn copy(&self, alloc: Global) -> Result<Branch, Memory>
        ensures { IfOk result (λ copied. copied ≡ self.now) }
    {
        let (cond, value) = both(self.cond.copy(alloc), self.value.copy(alloc))?;
        Ok(Branch { cond, value })
    }
}

impl Cond {
    /// A condition that equals this one.
    ///
    /// # Errors
    /// `Memory` where there was none for the copy.
    #[cycle(copies)]
    pub fn copy(&self, alloc: Global) -> Result<Cond, Memory>
        ensures { IfOk result (λ copied. copied ≡ self.now) }
    {
        match self {
            Cond::Compare(rel, left, right) => {
                let (left, right) = both(left.copy(alloc), right.copy(alloc))?;
                Ok(Cond::Compare(*rel, left, right))
            }
            Cond::And(left, right) => {
                let (left, right) = both(boxed_cond(alloc, left), boxed_cond(alloc, right))?;
                Ok(Cond::And(left, right))
            }
            Cond::Or(left, right) => {
                let (left, right) = both(boxed_cond(alloc, left), boxed_cond(alloc, right))?;
                Ok(Cond::Or(left, right))
            }
            Cond::Not(inner) => Ok(Cond::Not(boxed_cond(alloc, inner)?)),
            Cond::IsNull(inner) => Ok(Cond::IsNull(inner.copy(alloc)?)),
            Cond::Like(inner, pattern) => {
                let (inner, pattern) = both(inner.copy(alloc), pattern.copy())?;
                Ok(Cond::Like(inner, pattern))
            }
            Cond::OneOf(inner, values) => {
                let values = copies_of_exprs(alloc, values.as_slice());
                let (inner, values) = both(inner.copy(alloc), values)?;
                Ok(Cond::OneOf(inner, values))
            }
        }
    }
}

#[cycle(copies)]
fn boxed_expr(alloc: Global, inner: &Boxed<Expr>) -> Result<Boxed<Expr>, Memory>
    ensures { IfOk result (λ copied. copied ≡ inner.now) }
{
    Ok(Boxed::new(alloc, inner.get().copy(alloc)?)?)
}

#[cycle(copies)]
fn boxed_cond(alloc: Global, inner: &Boxed<Cond>) -> Result<Boxed<Cond>, Memory>
    ensures { IfOk result (λ copied. copied ≡ inner.now) }
{
    Ok(Boxed::new(alloc, inner.get().copy(alloc)?)?)
}

#[cycle(copies)]
fn copies_of_exprs(alloc: Global, exprs: &[Expr]) -> Result<Items<Expr>, Memory>
    ensures { IfOk result (λ copied. copied ≡ exprs.now) }
{
    let mut copied = Items::new(alloc);
    for expr in exprs {
        copied.push(expr.copy(alloc)?)?;
    }
    Ok(copied)
}

#[cycle(copies)]
fn copies_of_branches(alloc: Global, branches: &[Branch]) -> Result<Items<Branch>, Memory>
    ensures { IfOk result (λ copied. copied ≡ branches.now) }
{
    let mut copied = Items::new(alloc);
    for branch in branches {
        copied.push(branch.copy(alloc)?)?;
    }
    Ok(copied)
}
