//! What the expressions of a query mean: over the rows of a source, and over the groups of a window.
//! `read_expr` reads an expression in a `Scope` and gives its `Reading`: the plan's expression with its
//! kind or the plan's condition, once over the rows and once over the groups, each with all faults
//! where a part is refused, and the aggregate calls inside.
//! What matters: `read_expr`'s clauses. The meaning: specs/Readings.antt, a line a form of the grammar,
//! over specs/Calls.antt (calls by name), query_readings (names, keys, aggregates) and query_forms
//! (which parts fit a form, and kinds).
//! It knows no statement: query_type reads sources, groups and selects.
#![tactic(auto)]

mod calls;
mod conjunctions;
mod expressions;
mod parts;

pub use conjunctions::read_and_without;
pub use expressions::read_expr;
