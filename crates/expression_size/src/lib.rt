//! How large the plan of an expression becomes, counted on its tree before anything of it is planned.
//! BETWEEN stands for two comparisons and a CASE with a subject for one a branch, each with a copy of
//! what they compare: nested in each other they double with each level, so that a short text can ask
//! for more nodes than a machine has memory. `size_of_expr` counts them, and whoever reads an
//! expression asks first.
//! What matters: its clause, over specs/Sizes.antt. A count goes no further than one past the limit.
#![tactic(auto)]

mod sizes;

pub use sizes::{MAX_NODES, RestSize, size_of_expr};
