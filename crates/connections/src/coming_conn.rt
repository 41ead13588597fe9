//! `ComingConn`, a connection in memory that is to come.

use event_value::{Seq, Text};

/// A connection in memory before it is handed out: the bytes that are read from it, and the numbers
/// of its calls that fail, counted from 0.
#[derive(Drop)]
pub struct ComingConn {
    pub bytes: Text,
    pub failing: Seq<u64>,
}
