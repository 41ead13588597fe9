//! `RowCond` and `RowExprs`: the condition of a filter and the expressions of a projection, over
//! the values of a row and its time.

ghost use Rattle.std.specs.Prelude.{◌≡◌, IfOk};
ghost use Rattle.expr_eval.specs.Values.{value_of};
ghost use Rattle.query_meaning.specs.Steps.{passes, values_over};

use event_value::{Copies, Memory, Seq, Stamped, Value};
use expr_eval::{eval, holds};
use query_plan::{Cond, Expr};
use std::alloc::Global;
use std::marker::Model;
use stream_op::{RowBuild, RowTest};

/// A condition that rows pass where it is true. Contracts see the condition.
#[derive(Drop)]
pub struct RowCond {
    alloc: Global,
    cond: Cond,
}

impl Model for RowCond {
    ghost use Rattle.query_plan.specs.contracts.expr.Cond as cond_type;
    ghost use Rattle.query_plan.specs.declared.expr.Cond.{Cond};
    ghost use Rattle.std.specs.Coded.{codes};

    ghost Value = { Cond };

    ghost coded = { Prim.hlevel (codes, cond_type.the_row.coded) };

    ghost view = { λ c. c.cond };
}

impl RowCond {
    /// The test of a condition.
    ///
    /// # Errors
    /// `Memory` where there was none for a copy of the condition.
    pub fn of(alloc: Global, cond: &Cond) -> Result<RowCond, Memory>
        ensures { IfOk result (λ test. test ≡ cond.now) }
    {
        Ok(RowCond {
            alloc,
            cond: cond.copy(alloc)?,
        })
    }
}

impl Copies for RowCond {
    fn copy(&self) -> Result<Self, Memory> {
        RowCond::of(self.alloc, &self.cond)
    }
}

impl RowTest for RowCond {
    ghost passes = { passes };

    fn test(&self, alloc: Global, row: &Stamped) -> Result<bool, Memory> {
        let truth = holds(alloc, &self.cond, row.values.items(), row.time)?;
        Ok(truth == Some(true))
    }
}

/// Expressions whose values make a row. Contracts see the list of them.
#[derive(Drop)]
pub struct RowExprs {
    exprs: Seq<Expr>,
}

impl Model for RowExprs {
    ghost use Rattle.std.specs.Prelude.{List};
    ghost use Rattle.query_plan.specs.contracts.expr.Expr as expr_type;
    ghost use Rattle.query_plan.specs.declared.expr.Expr.{Expr};
    ghost use Rattle.std.specs.Coded.{codes};

    ghost Value = { List Expr };

    ghost coded = { Prim.hlevel (codes, expr_type.the_row.coded) };

    ghost view = { λ e. e.exprs };
}

impl RowExprs {
    /// What builds rows of these expressions' values.
    ///
    /// # Errors
    /// `Memory` where there was none for a copy of the expressions.
    pub fn of(alloc: Global, exprs: &[Expr]) -> Result<RowExprs, Memory>
        ensures { IfOk result (λ build. build ≡ exprs.now) }
    {
        let mut copied = Seq::empty(alloc);
        for expr in exprs {
            copied.push(expr.copy(alloc)?)?;
        }
        Ok(RowExprs { exprs: copied })
    }
}

impl Copies for RowExprs {
    fn copy(&self) -> Result<Self, Memory> {
        RowExprs::of(self.exprs.allocator(), self.exprs.items())
    }
}

impl RowBuild for RowExprs {
    ghost built = { values_over };

    fn build(&self, alloc: Global, row: &Stamped) -> Result<Seq<Value>, Memory> {
        let mut values = Seq::empty(alloc);
        let exprs = self.exprs.items();
        for expr in exprs {
            values.push(value_over(alloc, expr, row)?)?;
        }
        Ok(values)
    }
}

// The value of an expression over a row.
fn value_over(alloc: Global, expr: &Expr, row: &Stamped) -> Result<Value, Memory>
    ensures { IfOk result (λ value. value ≡ value_of row.now.values row.now.time expr.now) }
{
    eval(alloc, expr, row.values.items(), row.time)
}
