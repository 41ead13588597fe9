//! Parts that objects in memory are made of.
//! `Failures` counts the calls of an object, and says which of them are to fail.
//! What matters: clauses `answer` and `counts` of `Failures::next_fails`.
//! The meaning: specs/FailingCalls.antt and specs/Faults.antt of outside.
#![tactic(auto)]

mod failures;

pub use failures::Failures;
