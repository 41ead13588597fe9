//! The lengths of days and their parts, in ticks of 100 ns.

/// A day in ticks.
pub const DAY: u64 = 864_000_000_000;

/// An hour in ticks.
pub const HOUR: u64 = 36_000_000_000;

/// A minute in ticks.
pub const MINUTE: u64 = 600_000_000;

/// A second in ticks.
pub const SECOND: u64 = 10_000_000;

/// A millisecond in ticks.
pub const MILLISECOND: u64 = 10_000;

/// A microsecond in ticks.
pub const MICROSECOND: u64 = 10;
