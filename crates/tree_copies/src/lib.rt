//! Copies of a query's tree, whole or from any node down.
//! `CopyTree` is the call: `copy` gives a node that equals its source, with the places of its parts.
//! What matters: its one clause; the tree is query_tree's.
//! Inside an expression the copies are functions that call each other, one for each node
//! (expressions.rt); the calls of the trait stand above them (nodes.rt).
//! It stands apart from query_tree so that the crates over the tree don't wait for it.
#![tactic(auto)]

mod copy_tree;
mod expressions;
mod nodes;
mod parts;
mod scripts;
mod selects;
mod sources;

pub use copy_tree::CopyTree;
