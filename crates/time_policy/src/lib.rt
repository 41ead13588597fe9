//! Which records a lane keeps, at what time, and how far its watermark is.
//! `PolicyState` carries arrival, watermark and the marks of substreams from entry to entry; `take`
//! and `mark` are its calls.
//! What matters: `take`, clause `verdict`, and the laws of src/laws.rt: no record is kept below the
//! watermark before it, and the watermark never falls.
//! The meaning: specs/Verdicts.antt, over the whole list of a lane's entries so far.
//! It reads no file and orders no lanes.
#![tactic(auto)]

mod laws;
mod moments;
mod policy_state;
mod rules;
mod substream_marks;
mod verdict;

pub use laws::{
    no_record_is_kept_below_the_watermark, substreams_are_equal_keys, the_watermark_never_falls,
};
pub use policy_state::PolicyState;
pub use verdict::Verdict;
