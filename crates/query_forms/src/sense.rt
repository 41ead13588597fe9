//! `Sense`, what a part of a query is in a plan.

ghost use Rattle.std.specs.Prelude.{◌≡◌, IfOk};

use event_value::{Kind, Memory};
use query_plan::{Cond, Expr};
use std::alloc::Global;

/// A value with its kind; where it rests on NULL alone it has none.
#[derive(Drop)]
pub struct Valued {
    /// The plan's expression.
    pub expr: Expr,
    /// The kind of its values.
    pub kind: Option<Kind>,
}

/// What a part of a query is in a plan: a value, or a condition.
#[derive(Drop)]
pub enum Sense {
    Value(Valued),
    Condition(Cond),
}

impl Valued {
    /// A value that equals this one.
    ///
    /// # Errors
    /// `Memory` where there was none for the copy.
    pub fn copy(&self, alloc: Global) -> Result<Valued, Memory>
        ensures { IfOk result (λ copied. copied ≡ self.now) }
    {
        Ok(Valued {
            expr: self.expr.copy(alloc)?,
            kind: self.kind,
        })
    }
}

impl Sense {
    /// A sense that equals this one.
    ///
    /// # Errors
    /// `Memory` where there was none for the copy.
    pub fn copy(&self, alloc: Global) -> Result<Sense, Memory>
        ensures { IfOk result (λ copied. copied ≡ self.now) }
    {
        match self {
            Sense::Value(value) => Ok(Sense::Value(value.copy(alloc)?)),
            Sense::Condition(condition) => Ok(Sense::Condition(condition.copy(alloc)?)),
        }
    }
}
