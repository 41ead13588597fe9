//! The aggregates of a window: what is computed of its rows.

use crate::Copies;
use tick_time::Memory;

/// An aggregate over the rows of a window.
#[derive(Clone, Copy, PartialEq, Eq)]
pub struct Aggregate {
    /// What it computes.
    pub kind: AggKind,
    /// The column that it computes it of; none for the number of the rows.
    pub column: Option<u16>,
}

/// What an aggregate computes.
#[derive(Clone, Copy, PartialEq, Eq)]
pub enum AggKind {
    /// The number of values.
    Count,
    /// The number of different values.
    CountDistinct,
    /// The sum.
    Sum,
    /// The mean, toward zero.
    Avg,
    /// The least value.
    Min,
    /// The greatest value.
    Max,
}

impl Copies for AggKind {
    fn copy(&self) -> Result<Self, Memory> {
        Ok(*self)
    }
}

impl Copies for Aggregate {
    fn copy(&self) -> Result<Self, Memory> {
        Ok(*self)
    }
}
