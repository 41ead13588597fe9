//! `MemClock`, a clock in memory.

ghost use Rattle.std.specs.Prelude.{◌≡◌, ◌<◌, length, All};
ghost use Rattle.tick_time.specs.Moment.{limit_ticks};
ghost use Rattle.clock_gate.specs.Given.{GivesNext};
ghost use Rattle.clock_gate.specs.MemClock.{fresh_clock, clock_after_call, known_given, moment_at};

use crate::Clock;
use event_value::Seq;
use std::marker::Model;
use tick_time::Moment;

/// A clock in memory: it gives the moments of a list in order, and then the last one again.
#[derive(Drop)]
pub struct MemClock {
    moments: Seq<Moment>,
    calls: u64,
}

impl Model for MemClock {
    ghost use Rattle.std.specs.Prelude.{◌<◌, length, All};
    ghost use Rattle.tick_time.specs.Moment.{limit_ticks};
    ghost use Rattle.clock_gate.specs.MemClock.{ClockInMemory};

    ghost Value = { ClockInMemory };

    ghost view = { λ c. record { moments = c.moments; calls = c.calls } };

    ghost invariant = { λ c. (0 < length c.moments) × All (λ m. m < limit_ticks) c.moments };
}

impl MemClock {
    /// The clock of at least one moment, each below `tick_time::LIMIT`. It takes no memory.
    pub fn of(moments: Seq<Moment>) -> Self
        requires some { 0 < length moments }
        requires below_limit { All (λ m. m < limit_ticks) moments }
        ensures { result ≡ fresh_clock moments }
    {
        MemClock { moments, calls: 0 }
    }

    // What the next call gives.
    fn next_moment(&self) -> Moment
        ensures moment { result ≡ moment_at self.now.moments self.now.calls }
        ensures below_limit { result < limit_ticks }
    {
        let moments = self.moments.items();
        let last = moments.len() - 1;
        moments[(self.calls as usize).min(last)]
    }

    // Counts a call.
    fn count_call(&mut self)
        ensures { self.new ≡ clock_after_call self.old }
    {
        self.calls = self.calls.saturating_add(1);
    }
}

impl Clock for MemClock {
    ghost given = { known_given };

    fn now(&mut self) -> Moment
        ensures below_limit { result < limit_ticks }
        ensures given { GivesNext result (known_given self.old) (known_given self.new) }

        // Which moment, and that the call is counted.
        ensures moment { result ≡ moment_at self.old.moments self.old.calls }
        ensures counts { self.new ≡ clock_after_call self.old }
    {
        let moment = self.next_moment();
        self.count_call();
        moment
    }
}
