//! `JoinCond`, the condition of a join.

ghost use Rattle.std.specs.Prelude.{◌≡◌, IfOk};
ghost use Rattle.stream_joins.specs.JoinCond.{passes_over};

use crate::Matches;
use crate::pairs::values_of_both;
use event_value::{Copies, Memory, Value};
use expr_eval::holds;
use query_plan::Cond;
use std::alloc::Global;
use std::marker::Model;
use tick_time::Moment;

/// The condition of a join, over the values of the left row and behind them those of the right
/// one: they match where it is true. Contracts see the condition.
#[derive(Drop)]
pub struct JoinCond {
    alloc: Global,
    cond: Cond,
}

impl Model for JoinCond {
    ghost use Rattle.query_plan.specs.contracts.expr.Cond as cond_type;
    ghost use Rattle.query_plan.specs.declared.expr.Cond.{Cond};
    ghost use Rattle.std.specs.Coded.{codes};

    ghost Value = { Cond };

    ghost coded = { Prim.hlevel (codes, cond_type.the_row.coded) };

    ghost view = { λ c. c.cond };
}

impl JoinCond {
    /// The matches by a condition.
    ///
    /// # Errors
    /// `Memory` where there was none for a copy of the condition.
    pub fn of(alloc: Global, cond: &Cond) -> Result<Self, Memory>
        ensures { IfOk result (λ matches. matches ≡ cond.now) }
    {
        Ok(JoinCond {
            alloc,
            cond: cond.copy(alloc)?,
        })
    }
}

impl Copies for JoinCond {
    fn copy(&self) -> Result<Self, Memory> {
        JoinCond::of(self.alloc, &self.cond)
    }
}

impl Matches for JoinCond {
    ghost pairs = { passes_over };

    fn pair(
        &self,
        alloc: Global,
        left: &[Value],
        right: &[Value],
        time: Moment,
    ) -> Result<bool, Memory> {
        let values = values_of_both(alloc, left, right)?;
        let truth = holds(alloc, &self.cond, values.items(), time)?;
        Ok(truth == Some(true))
    }
}
