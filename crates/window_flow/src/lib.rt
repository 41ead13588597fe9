//! Windows that follow the rows: sliding windows, and sessions.
//! `Sliding` and `Session` are operators on streams of rows. Both judge their rows part by part:
//! a sliding window each key by itself, a session window each value of its first columns.
//! What matters: their meaning in specs/Sliding.antt and specs/Sessions.antt, over specs/Parts.antt;
//! and the laws of src/laws.rt, which say that a session is the longest front of the rows that are
//! left, and in which order rows stand.
//! They hold the rows that later ones may still meet: a sliding window those within its size, a
//! session window all of them.
//! What an aggregate is stands in row_groups, what an operator owes in stream_op.
#![tactic(auto)]

mod aggregated;
mod groups;
mod laws;
mod parted;
mod session;
mod sliding;
mod stretch;

pub use laws::{
    latest_end_is_the_least_multiple, rows_are_by_time_and_part, sessions_are_longest_fronts,
    slides_are_at_entries_and_exits,
};
pub use parted::{Parted, Parts};
pub use session::{Session, SessionSpec};
pub use sliding::{Sliding, SlidingSpec};
