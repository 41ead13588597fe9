//! Lists in order of time, elements of equal time in the order in which they came.
//! `put_in_order` orders a list of whatever is `Timed`; its laws are in src/laws.rt.
//! What matters: `put_in_order` gives `in_order`, and `order_is_stable` says what that is.
//! The meaning: specs/InOrder.antt (the order), specs/Stretches.antt (what is at, below, from and
//! between times), specs/Merge.antt (two lists in order as one).
//! Every crate that orders rows by time cites these words, and the lemmas of proofs/.
#![tactic(auto)]

mod laws;
mod ordering;
mod timed;

pub use laws::{order_is_stable, stretches_join};
pub use ordering::put_in_order;
pub use timed::Timed;
