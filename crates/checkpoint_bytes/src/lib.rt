//! How the steps of a run and what goes on behind them are written as bytes.
//! `encode_batch` and `decode_batch` write and read a `Batch`; `encode_core` and `decode_core`
//! write and read a `CoreForm`, what a run keeps to go on without the events before.
//! What matters: the clauses of these four, and src/laws.rt: bytes spell at most one batch.
//! The meaning: specs/Batches.antt and specs/Cores.antt, each with its layout (docs/FORMATS).
//! What stands in the texts of a core's steps is left to the operators.
#![tactic(auto)]

mod batches;
mod core_form;
mod cores;
mod in_order;
mod laws;
mod rows;

pub use batches::{decode_batch, encode_batch};
pub use core_form::{CoreForm, LaneForm, Waiting};
pub use cores::{decode_core, encode_core};
pub use event_value::KeyMark;
pub use in_order::is_core_in_order;
pub use laws::bytes_spell_one_batch;
