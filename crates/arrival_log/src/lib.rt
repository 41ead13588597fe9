//! The log of arrived records: the entries of a lane, their places, the verdict on each by all that
//! stand before it, the events that are kept and the records that are dropped.
//! What matters: the laws in src/laws.rt, of a lane that hears further entries.
//! The meaning: specs/Log.antt (entries and places), specs/Kept.antt (verdicts, events, dropped
//! records, watermarks).
//! It reads no file, puts no events in order (row_order does) and hears no lane: job_core does.
#![tactic(auto)]

mod laws;

pub use laws::{each_entry_adds_its_own, events_below_the_watermark_are_settled};
