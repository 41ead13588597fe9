//! What a plan means: the rows of its outputs over the log of its streams, and the calls that give
//! them, all at once or step by step as time goes on.
//! `ready_plan` gives a plan with what its joins take from elsewhere. `Pipeline` carries the
//! operators of its steps. `stamp_of` and `substream_of` are what a record's stream judges it by.
//! What matters: `Pipeline::advance`, and `plans_keep_to_the_past` in laws.rt.
//! The meaning: specs/Streams.antt (events and drops of the streams), specs/Steps.antt (the rows of
//! each step), specs/Meaning.antt (the rows of the outputs).
//! It reads no file, and it doesn't say when rows are final: job_core does.
#![tactic(auto)]

mod hearing;
mod laws;
mod pieces;
mod pipeline;
mod ready;
mod row_specs;
mod step_advance;
mod step_begin;
mod step_op;

pub use hearing::{stamp_of, substream_of};
pub use laws::plans_keep_to_the_past;
pub use pipeline::Pipeline;
pub use ready::{ReadyPlan, ReadyStep, ready_plan};
pub use row_specs::{RowCond, RowExprs};
pub use step_op::{JoinOp, StepOp, WindowOp};
