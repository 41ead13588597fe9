//! The kinds of values, the columns of a source, and the formats of its files.

use crate::{Copies, Seq, Text};
use tick_time::Memory;

/// The kind of a column's values.
#[derive(Clone, Copy, PartialEq, Eq)]
pub enum Kind {
    /// Whole numbers of 64 bits, the type word `bigint`.
    Big,
    /// Decimal numbers in millionths, the type word `fixed`.
    Fixed,
    /// Texts, the type word `nvarchar(max)`.
    Text,
    /// Moments, the type word `datetime`.
    Moment,
    /// Bits, the type word `bit`.
    Bit,
}

impl Copies for Kind {
    fn copy(&self) -> Result<Self, Memory> {
        Ok(*self)
    }
}

/// A declared column of a source.
#[derive(Drop)]
pub struct Column {
    /// The name in queries.
    pub name: Text,
    /// The kind of its values.
    pub kind: Kind,
    /// Where its value stands in a record: the names of the fields to go through.
    pub path: Seq<Text>,
}

impl Copies for Column {
    fn copy(&self) -> Result<Self, Memory> {
        Ok(Column {
            name: self.name.copy()?,
            kind: self.kind,
            path: self.path.copy()?,
        })
    }
}

/// The declared columns of a source, in order.
pub type Columns = Seq<Column>;

/// The format of a source's files.
#[derive(Clone, Copy, PartialEq, Eq)]
pub enum Format {
    /// JSON, one text per line.
    Json,
    /// CSV with this delimiter.
    Csv(u8),
    /// The Avro object container file.
    Avro,
    /// JSON, one text per line, with its decimal numbers by their digits.
    JsonExact,
}

impl Copies for Format {
    fn copy(&self) -> Result<Self, Memory> {
        Ok(*self)
    }
}
