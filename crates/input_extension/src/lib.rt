//! When an inputs document goes on from another, so that a running job can take it over.
//! `extends` compares the two for the moment below which the job's rows are kept.
//! What matters: `extends`, clauses `ok` and `err`: Ok exactly where segments and snapshots are
//! appended and partitions ended, and else the first part that breaks a rule; and laws.rt.
//! The meaning: specs/Extension.antt, the order of the refusals: specs/Refusals.antt.
//! It reads no document: input_book does, and says which inputs are well formed.
#![tactic(auto)]

mod extend_err;
mod extending;
mod laws;
mod reference;
mod same;
mod source;
mod stream;

pub use extend_err::ExtendErr;
pub use extending::extends;
pub use laws::{
    extension_is_a_preorder, extension_keeps_lanes, extension_keeps_sources, refusals_are_exact,
};
