//! `Span`, a length of at most seven days, forward or backward.

ghost use Rattle.std.specs.Prelude.{◌≡◌};
ghost use Rattle.tick_time.specs.Span.{IsSpanTicks, span_of_units};

use crate::ticks::DAY;
use crate::unit::Unit;
use std::marker::Model;

// Seven days in ticks.
const MAX_SPAN: u64 = 7 * DAY;

/// A length in ticks, at most seven days forward or backward.
#[derive(Clone, Copy, PartialEq, Eq)]
pub struct Span {
    ticks: i64,
}

impl Model for Span {
    ghost use Rattle.std.specs.Prelude.{ℤ};
    ghost use Rattle.tick_time.specs.Span.{IsSpanTicks};

    ghost Value = { ℤ };

    ghost view = { λ s. s.ticks };

    ghost invariant = { λ s. IsSpanTicks s.ticks };

    ghost inverse = { λ z. record { ticks = z } };
}

impl Span {
    /// The ticks, below 0 for a length backward.
    pub fn ticks(self) -> i64
        ensures value { result ≡ self }
        ensures in_range { IsSpanTicks self }
    {
        self.ticks
    }
}

/// The length of so many units; `None` exactly where it is above seven days, forward or backward.
#[tactic(auto, unfolding(crate::specs::Span::span_of_units))]
pub fn span_of(unit: Unit, n: i64) -> Option<Span>
    ensures { result ≡ span_of_units unit n }
{
    let ticks = n.checked_mul(unit.ticks())?;
    if ticks.unsigned_abs() <= MAX_SPAN {
        Some(Span { ticks })
    } else {
        None
    }
}
