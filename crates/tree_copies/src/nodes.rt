//! `CopyTree` of every node of an expression.

use crate::copy_tree::CopyTree;
use crate::expressions::{
    copy_of_and, copy_of_args, copy_of_call, copy_of_case, copy_of_expr, copy_of_not, copy_of_pred,
    copy_of_primary, copy_of_prod, copy_of_prod_more, copy_of_rest, copy_of_sum, copy_of_sum_more,
    copy_of_unary, copy_of_when,
};
use event_value::Memory;
use query_tree::{
    And, Args, Call, Case, Expr, Not, Pred, PredRest, Primary, Prod, ProdMore, Sum, SumMore, Unary,
    When,
};
use std::alloc::Global;

impl CopyTree for Expr {
    fn copy(&self, alloc: Global) -> Result<Self, Memory> {
        copy_of_expr(alloc, self)
    }
}

impl CopyTree for And {
    fn copy(&self, alloc: Global) -> Result<Self, Memory> {
        copy_of_and(alloc, self)
    }
}

impl CopyTree for Not {
    fn copy(&self, alloc: Global) -> Result<Self, Memory> {
        copy_of_not(alloc, self)
    }
}

impl CopyTree for Pred {
    fn copy(&self, alloc: Global) -> Result<Self, Memory> {
        copy_of_pred(alloc, self)
    }
}

impl CopyTree for PredRest {
    fn copy(&self, alloc: Global) -> Result<Self, Memory> {
        copy_of_rest(alloc, self)
    }
}

impl CopyTree for Sum {
    fn copy(&self, alloc: Global) -> Result<Self, Memory> {
        copy_of_sum(alloc, self)
    }
}

impl CopyTree for SumMore {
    fn copy(&self, alloc: Global) -> Result<Self, Memory> {
        copy_of_sum_more(alloc, self)
    }
}

impl CopyTree for Prod {
    fn copy(&self, alloc: Global) -> Result<Self, Memory> {
        copy_of_prod(alloc, self)
    }
}

impl CopyTree for ProdMore {
    fn copy(&self, alloc: Global) -> Result<Self, Memory> {
        copy_of_prod_more(alloc, self)
    }
}

impl CopyTree for Unary {
    fn copy(&self, alloc: Global) -> Result<Self, Memory> {
        copy_of_unary(alloc, self)
    }
}

impl CopyTree for Primary {
    fn copy(&self, alloc: Global) -> Result<Self, Memory> {
        copy_of_primary(alloc, self)
    }
}

impl CopyTree for Call {
    fn copy(&self, alloc: Global) -> Result<Self, Memory> {
        copy_of_call(alloc, self)
    }
}

impl CopyTree for Args {
    fn copy(&self, alloc: Global) -> Result<Self, Memory> {
        copy_of_args(alloc, self)
    }
}

impl CopyTree for Case {
    fn copy(&self, alloc: Global) -> Result<Self, Memory> {
        copy_of_case(alloc, self)
    }
}

impl CopyTree for When {
    fn copy(&self, alloc: Global) -> Result<Self, Memory> {
        copy_of_when(alloc, self)
    }
}
