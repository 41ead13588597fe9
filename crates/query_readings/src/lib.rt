//! What an expression is over the rows of a source and over the groups of a window.
//! A `Reading` holds both, each with all faults where a part is refused, and the aggregate calls
//! inside; it is made in a `Scope` of the readings of the parts (`formed`, `chain`, `operations`), of a
//! column (`column_reading`), or of an aggregate call (`aggregate`, `row_count`).
//! What matters: their clauses, over specs/Reading.antt, specs/Functions.antt (functions by name) and
//! specs/Same.antt (which expressions are the same).
//! It walks no tree: query_senses does.
#![tactic(auto)]

mod aggregates;
mod columns;
mod forming;
mod functions;
mod outcomes;
mod reading;
mod same;
mod scope;

pub use aggregates::{aggregate, row_count};
pub use columns::{Finding, column_reading, finding_of, time_reading};
pub use forming::{as_pattern, chain, formed, formed_of_one, operations, plain, refused_reading};
pub use functions::{DateOperation, Function, date_form, function_of, is_time, like_form};
pub use outcomes::take_side;
pub use reading::{AggregateCall, Face, Outcome, Part, PredicateRest, Reading, Side, push_calls};
pub use same::is_same_expr;
pub use scope::{AggregateColumn, GroupKey, Scope, ScopeColumn, ScopeSource};
