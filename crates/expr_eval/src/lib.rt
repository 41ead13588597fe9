//! The value of an expression and the truth of a condition, over the values of a row and its time.
//! `eval` and `holds` are the calls; neither has a condition, and neither fails but for want of memory.
//! What matters: their clauses. The meaning: specs/Values.antt, over the leaf rules of
//! specs/Operations.antt (numbers, texts, moments) and specs/Truths.antt (three-valued logic).
//! It types nothing: a value of a kind that an operation doesn't take gives Null.
#![tactic(auto)]

mod dates;
mod evaluation;
mod numbers;
mod operations;
mod patterns;
mod texts;
mod truths;

pub use evaluation::{column, eval, holds};
