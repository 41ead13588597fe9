//! The inputs document of a job: which streams and references it reads, and by which policies.
//! `read_inputs` gives the `Inputs` that a document says, or its first cause of refusal.
//! What matters: `read_inputs`, clauses `ok` and `err`: the inputs exactly where no cause stands, and
//! else the first one with its key; and laws.rt: accepted inputs are well formed.
//! The meaning: specs/Inputs.antt, over specs/Tables.antt (a line a key) and specs/Checks.antt
//! (limits, names, the order of moments), in the words of specs/Readers.antt and specs/Ranges.antt.
//! It asks for no file: job_core does.
#![tactic(auto)]

mod column;
mod document;
mod effective_check;
mod input_err;
mod key;
mod laws;
mod limit_check;
mod limits;
mod lists;
mod members;
mod name_check;
mod order_check;
mod partition;
mod parts;
mod policy;
mod reading;
mod reference;
mod refusals;
mod root;
mod shapes;
mod source;
mod texts;

pub use input_err::InputErr;
pub use input_types::{Inputs, Partition, Reference, SegmentName, SnapshotName, Stream};
pub use laws::accepted_inputs_are_well_formed;
pub use reading::read_inputs;
