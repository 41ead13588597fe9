//! What a job keeps of a step of its run: the rows of each output and the dropped records that are
//! new, how far each lane was read, and up to which moment the rows are final.
//! `Batch` is such a step, `Row` a row with its printed form. Contracts see their fields.
//! How a batch is written as bytes isn't there yet.
#![tactic(auto)]

mod batch;

pub use batch::{Batch, Row};
