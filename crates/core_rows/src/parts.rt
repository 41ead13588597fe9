//! What plans and cores are made of: moments by their seconds, and lists of one.

use event_value::{Memory, Seq};
use std::alloc::Global;
use tick_time::Moment;

/// The moment of a second, up to the last one.
pub fn moment(second: u64) -> Moment {
    Moment::of_count(second % 253_402_300_801 * 10_000_000)
}

/// A list of one.
pub fn one<T: Drop>(alloc: Global, item: T) -> Result<Seq<T>, Memory> {
    let mut list = Seq::empty(alloc);
    list.push(item)?;
    Ok(list)
}
