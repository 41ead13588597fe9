//! The plan of a query as data: expressions, conditions, steps and outputs, and their copies.
//! `Plan` is what the typer makes of a script, and what the running crates follow step by step.
//! What matters: each copy equals its source (`copy` of `Expr`, `Cond`, `Step` and `Plan`).
//! It says nothing of what a plan means: expr_eval and query_meaning do.
#![tactic(auto)]

mod expr;
mod expr_copies;
mod plan;
mod plan_copies;

pub use expr::{Branch, Cond, Expr, Op, Rel};
pub use plan::{Output, Plan, Step, StreamUse};
