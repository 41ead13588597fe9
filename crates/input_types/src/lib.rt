//! What an inputs document says, as data: streams with their partitions and segments, references
//! with their snapshots, and the time policies of a job.
//! `Inputs` is the whole; its parts are copied with it.
//! It reads no document: input_book does, and says there which inputs a document has.
#![tactic(auto)]

mod inputs;

pub use inputs::{Inputs, Partition, Reference, SegmentName, SnapshotName, Stream};
