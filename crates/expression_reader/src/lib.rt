//! Expressions of a query, a function for each line of the grammar.
//! Each reads its line off the front of the lexemes that are left, as the reader of that line in
//! query_grammar does. They call each other as the lines do; inside an opening one fewer is left.
//! What matters: `expr`, clauses `ok` and `err`.
//! It reads no statements: query_parse does.
#![tactic(auto)]

mod cases;
mod conditions;
mod expressions;
mod primaries;
mod sums;

pub use expressions::expr;
