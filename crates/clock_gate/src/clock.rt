//! `Clock`, which gives the present moment.

ghost use Rattle.std.specs.Prelude.{◌<◌, ℕ, List, Option};
ghost use Rattle.tick_time.specs.Moment.{limit_ticks};
ghost use Rattle.clock_gate.specs.Given.{GivesNext};

use tick_time::Moment;

/// A clock.
pub trait Clock {
    /// The moments that were given, in order, where the clock tells them.
    ghost given: { Self → Option (List ℕ) };

    /// The present moment, below `tick_time::LIMIT`. It takes no memory.
    fn now(&mut self) -> Moment
        ensures below_limit { result < limit_ticks }
        ensures given { GivesNext result (given self.old) (given self.new) };
}
