//! Parts of the tables.

use event_value::{Memory, Seq};
use std::alloc::Global;

/// The numbers of the calls that fail.
pub fn numbers(alloc: Global, failing: &[u64]) -> Result<Seq<u64>, Memory> {
    Ok(Seq::from_vec(Vec::from_slice(alloc, failing)?))
}
