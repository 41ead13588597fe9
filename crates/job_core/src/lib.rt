//! The core of a running job: it hears the entries of its lanes in any order, and at each cut gives
//! the rows that are final by then.
//! `Core` is the core, `Lane` a lane of it.
//! What matters: `Core::feed`, `Core::cut`, and `any_schedule` in laws.rt, which says that every
//! list of feeds and cuts gives the rows of the query's meaning.
//! The meaning: specs/Heard.antt (what was heard), specs/Core.antt (what a core stands for).
//! What a plan means stands in query_meaning; files are read and lanes shared elsewhere.
#![tactic(auto)]

mod batches;
mod job;
mod lane;
mod lanes;
mod laws;
mod lists;

pub use job::{Core, Rest};
pub use lane::{Lane, Released};
pub use laws::{any_schedule, lanes_are_fed_apart};
