//! Moments: counts of ticks of 100 ns since 1970-01-01T00:00:00Z, their texts and their calendar.
//! `Moment` is seen by contracts as that count, `Span` as a signed one; no call takes memory, and
//! `Memory` is the refusal of the calls above that do.
//! `read_moment` is `moment_of` its text and `write_moment` is `moment_text` of its moment; laws.rt
//! says that `moment_of` is the grammar and that what is written is read.
//! The meaning: specs/Calendar.antt, specs/MomentText.antt, specs/MomentForms.antt (the grammar),
//! specs/MomentReading.antt, specs/DateArithmetic.antt; that of words: specs/Unit.antt, specs/Part.antt.
//! The days are jiff's: src/civil_date.rt joins its calendar to ours.
#![tactic(auto)]

mod civil_date;
mod date_arithmetic;
mod digits;
mod laws;
mod memory;
mod moment;
mod names;
mod part;
mod read;
mod read_time;
mod span;
mod ticks;
mod unit;
mod write;

pub use date_arithmetic::{date_add, date_diff, date_part};
pub use laws::{dates_have_their_numbers, reading_is_the_grammar, written_moments_are_read};
pub use memory::Memory;
pub use moment::{END, LIMIT, Moment};
pub use names::{is_name, part_of, unit_of};
pub use part::Part;
pub use read::read_moment;
pub use span::{Span, span_of};
pub use unit::Unit;
pub use write::write_moment;
