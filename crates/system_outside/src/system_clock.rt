//! `SystemClock`, the system's clock. What it gives isn't known to a contract.

ghost use Rattle.std.specs.Prelude.{◌<◌, ◌≡◌, None};
ghost use Rattle.std.specs.Duration.{as_nanos};
ghost use Rattle.tick_time.specs.Moment.{limit_ticks};
ghost use Rattle.clock_gate.specs.Given.{GivesNext};
ghost use Rattle.system_outside.specs.SystemTime.{moment_of_time};

use clock_gate::Clock;
use std::rt;
use std::time::Duration;
use tick_time::{LIMIT, Moment};

// How many nanoseconds a tick has.
const TICK: u128 = 100;

/// The system's clock. It gives 0 where the time can't be read or is before 1970, and the last
/// moment below `LIMIT` where it is later.
#[derive(Drop)]
pub struct SystemClock<'a, R: rt::Clock> {
    runtime: &'a R,
}

impl<'a, R: rt::Clock> SystemClock<'a, R> {
    /// The clock of this runtime.
    pub fn of(runtime: &'a R) -> Self {
        SystemClock { runtime }
    }
}

impl<'a, R: rt::Clock> Clock for SystemClock<'a, R> {
    ghost given = { λ _. None };

    fn now(&mut self) -> Moment {
        match self.runtime.since_1970() {
            Ok(time) => moment_of(time),
            Err(_) => Moment::zero(),
        }
    }
}

// The moment of a time since 1970.
fn moment_of(time: Duration) -> Moment
    ensures { result ≡ moment_of_time (as_nanos time) }
{
    let ticks = (time.as_nanos() / TICK).min(LIMIT as u128 - 1);
    Moment::of_count(ticks as u64)
}
