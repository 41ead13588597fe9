//! `Pane`, a window of one key.

use event_value::{Copies, Memory, Seq, Value};
use tick_time::Moment;

/// A window of one key. Windows are ordered by their ends, and then by their keys.
#[derive(Drop, PartialEq, Eq, PartialOrd, Ord)]
pub struct Pane {
    /// Its end.
    pub end: Moment,
    /// Its key.
    pub key: Seq<Value>,
}

impl Copies for Pane {
    fn copy(&self) -> Result<Self, Memory> {
        Ok(Pane {
            end: self.end,
            key: self.key.copy()?,
        })
    }
}
