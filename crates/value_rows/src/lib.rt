//! The values of expressions, the truth of conditions, and the rows of joins, worked out by hand.
//! Tests alone.
//! What matters: the tables in expressions/operations.rt and expressions/conditions.rt, and the
//! ways of cutting rows in joins/bound.rt and joins/reference.rt.
//! It gives no function: those that it calls are expr_eval's and stream_joins'.
#![tactic(auto)]

#[cfg(test)]
mod expressions;
#[cfg(test)]
mod joins;
