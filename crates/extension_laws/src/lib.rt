//! Extended inputs documents and well-formed ones.
//! What matters: laws.rt: what a well-formed document goes on from is well formed, and what goes
//! on from one is, where its segments and snapshots keep their limits and their order.
//! What well formed means stands in input_book, and what goes on in input_extension.
#![tactic(auto)]

mod laws;

pub use laws::{what_extends_is_well_formed, what_is_extended_is_well_formed};
