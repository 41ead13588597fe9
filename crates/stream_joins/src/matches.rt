//! `Matches`, which left rows match which right rows.

ghost use Rattle.std.specs.Prelude.{◌≡◌, ℕ, List, Bool, IfOk};
ghost use Rattle.event_value.specs.declared.value.Value.{Value};

use event_value::{Copies, Memory, Value};
use std::alloc::Global;
use tick_time::Moment;

/// Which left rows match which right rows.
pub trait Matches: Copies {
    /// Whether the values of a left and of a right row match, at a time.
    ghost pairs: { Self → List Value → List Value → ℕ → Bool };

    /// Whether the values of a left and of a right row match, at the time of the joined row.
    ///
    /// # Errors
    /// `Memory` where there was none to find out.
    fn pair(
        &self,
        alloc: Global,
        left: &[Value],
        right: &[Value],
        time: Moment,
    ) -> Result<bool, Memory>
        ensures { IfOk result (λ does. does ≡ pairs self.now left.now right.now time) };
}
