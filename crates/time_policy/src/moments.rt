//! The later and the earlier of two moments, and a moment some ticks before another.

ghost use Rattle.std.specs.Prelude.{◌≡◌, ◌-◌, max, min};

use tick_time::Moment;

/// The later of two moments.
pub fn later(a: Moment, b: Moment) -> Moment
    ensures { result ≡ max a b }
{
    if a.count() < b.count() { b } else { a }
}

/// The earlier of two moments.
pub fn earlier(a: Moment, b: Moment) -> Moment
    ensures { result ≡ min a b }
{
    if a.count() < b.count() { a } else { b }
}

/// The moment so many ticks before, or 0.
pub fn before(moment: Moment, ticks: u64) -> Moment
    ensures { result ≡ moment - ticks }
{
    Moment::of_count(moment.count().saturating_sub(ticks))
}
