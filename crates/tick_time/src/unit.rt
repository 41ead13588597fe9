//! `Unit`, a unit of lengths, and the words that name it.

ghost use Rattle.std.specs.Prelude.{◌≡◌, ◌≤◌, pos};
ghost use Rattle.tick_time.specs.Ticks.{day_ticks};

use crate::ticks::{DAY, HOUR, MICROSECOND, MILLISECOND, MINUTE, SECOND};

/// A unit of lengths.
#[derive(Clone, Copy, PartialEq, Eq)]
pub enum Unit {
    Day,
    Hour,
    Minute,
    Second,
    Millisecond,
    Microsecond,
}

impl Unit {
    ghost use Rattle.tick_time.specs.Unit.{unit_ticks};

    // The ticks of a unit.
    pub(crate) fn ticks(self) -> i64
        ensures { result ≡ pos (unit_ticks self) }
    {
        let ticks = match self {
            Unit::Day => DAY,
            Unit::Hour => HOUR,
            Unit::Minute => MINUTE,
            Unit::Second => SECOND,
            Unit::Millisecond => MILLISECOND,
            Unit::Microsecond => MICROSECOND,
        };
        ticks as i64
    }
}
