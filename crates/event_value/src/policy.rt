//! The time policies of a job.

use crate::Copies;
use tick_time::Memory;

/// What is done with late and disordered records. Lengths are in ticks of 100 ns.
#[derive(Clone, Copy, PartialEq, Eq)]
pub struct Policy {
    /// How far a stamp may be behind the arrival of its record.
    pub late: i64,
    /// How far a stamp may be behind the greatest one before it.
    pub disorder: i64,
    /// Whether late and disordered records are adjusted; else they are dropped.
    pub adjust: bool,
    /// How far a partition may run ahead of the slowest one.
    pub skew: i64,
}

impl Copies for Policy {
    fn copy(&self) -> Result<Self, Memory> {
        Ok(*self)
    }
}
