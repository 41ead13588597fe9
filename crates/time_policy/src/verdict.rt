//! `Verdict`, what becomes of a record.

use event_value::{Copies, Memory, Rule};
use tick_time::Moment;

/// What becomes of a record.
#[derive(Clone, Copy, PartialEq, Eq)]
pub enum Verdict {
    /// It is kept at this time.
    Kept(Moment),
    /// It is dropped by this rule.
    Dropped(Rule),
}

impl Copies for Verdict {
    fn copy(&self) -> Result<Self, Memory> {
        Ok(*self)
    }
}
