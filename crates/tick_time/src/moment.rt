//! `Moment`, a count of ticks.

ghost use Rattle.std.specs.Prelude.{◌≡◌, ◌<◌, ◌≤◌, ◌↔◌, pos, IsSome, IfSome};
ghost use Rattle.tick_time.specs.Moment.{end_ticks, IsMomentTicks, before_end, moment_below_limit};

use std::marker::Model;

/// The first moment that no text from outside names: the year 3000, in ticks of 100 ns since 1970.
pub const LIMIT: i64 = 325_036_800_000_000_000;

/// The greatest moment, above every time of an event or a row: the year 10000, in ticks since 1970.
pub const END: i64 = 2_534_023_008_000_000_000;

/// A moment as a count of ticks of 100 ns since 1970-01-01T00:00:00Z, at most `END`.
#[derive(Clone, Copy, PartialEq, Eq, PartialOrd, Ord)]
pub struct Moment {
    ticks: u64,
}

impl Model for Moment {
    ghost use Rattle.std.specs.Prelude.{ℕ, ◌≤◌};
    ghost use Rattle.tick_time.specs.Moment.{end_ticks};

    ghost Value = { ℕ };

    ghost view = { λ m. m.ticks };

    ghost invariant = { λ m. m.ticks ≤ end_ticks };

    ghost inverse = { λ n. record { ticks = n } };
}

impl Moment {
    /// The moment 0, the start of 1970.
    pub fn zero() -> Moment
        ensures { result ≡ 0 }
    {
        Moment { ticks: 0 }
    }

    /// The moment of this number of ticks; `None` exactly where it is below 0 or above `END`.
    pub fn of_ticks(n: i64) -> Option<Moment>
        ensures exists { IsSome result ↔ IsMomentTicks n }
        ensures value { IfSome result (λ m. pos m ≡ n) }
    {
        if (0..=END).contains(&n) {
            Some(Moment { ticks: n as u64 })
        } else {
            None
        }
    }

    // The moment of this number of ticks, where it is at least 0 and below `LIMIT`.
    pub(crate) fn below_limit(n: i64) -> Option<Moment>
        ensures { result ≡ moment_below_limit n }
    {
        if (0..LIMIT).contains(&n) {
            Some(Moment { ticks: n as u64 })
        } else {
            None
        }
    }

    /// The ticks.
    pub fn ticks(self) -> i64
        ensures value { result ≡ pos self }
        ensures in_range { self ≤ end_ticks }
    {
        self.ticks as i64
    }

    /// The ticks as an unsigned number.
    pub fn count(self) -> u64
        ensures value { result ≡ self }
        ensures in_range { result ≤ end_ticks }
    {
        self.ticks
    }

    // The ticks, where `END` counts as the moment before it.
    pub(crate) fn count_before_end(self) -> u64
        ensures value { result ≡ before_end self }
        ensures in_range { result < end_ticks }
    {
        self.ticks.min(END as u64 - 1)
    }

    /// The moment of a count within the range.
    pub fn of_count(n: u64) -> Moment
        requires { n ≤ end_ticks }
        ensures { result ≡ n }
    {
        Moment { ticks: n }
    }
}
