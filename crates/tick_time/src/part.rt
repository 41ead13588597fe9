//! `Part`, a part of a date or of a time of day.

/// A part of a date or of a time of day.
#[derive(Clone, Copy, PartialEq, Eq)]
pub enum Part {
    Year,
    Month,
    Day,
    Hour,
    Minute,
    Second,
    Millisecond,
    Microsecond,
}
