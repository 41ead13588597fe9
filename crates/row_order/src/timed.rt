//! `Timed`, what has a time.

ghost use Rattle.std.specs.Prelude.{◌≡◌, ℕ};

use event_value::{Event, Stamped};

/// What has a time.
pub trait Timed {
    /// The time, in ticks.
    ghost time_of: { Self → ℕ };

    /// The time, in ticks.
    fn ticks(&self) -> u64
        ensures { result ≡ time_of self.now };
}

impl Timed for Stamped {
    ghost time_of = { λ row. row.time };

    fn ticks(&self) -> u64 {
        self.time.count()
    }
}

impl Timed for Event {
    ghost time_of = { λ event. event.time };

    fn ticks(&self) -> u64 {
        self.time.count()
    }
}
