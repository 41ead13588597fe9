//! The items of a file, why one is dropped, and the events that are kept.

use crate::{Copies, Seq, Value};
use tick_time::{Memory, Moment};

/// Why a record is dropped.
#[derive(Clone, Copy, PartialEq, Eq)]
pub enum Rule {
    /// It isn't a record of its format.
    Syntax,
    /// It has no readable enqueue moment.
    Enqueued,
    /// A declared column holds a number of another form.
    Number,
    /// A declared column holds a value of another kind.
    Field,
    /// It is longer than a record may be.
    Long,
    /// The rest of the file can't be read.
    Damaged,
    /// The file is longer than a segment may be.
    SegmentTooLong,
    /// Its stamp is NULL.
    NoTime,
    /// Its stamp is too far ahead of its arrival.
    Early,
    /// Its stamp is too far behind its arrival.
    Late,
    /// Its stamp is behind the records before it.
    Disorder,
}

impl Copies for Rule {
    fn copy(&self) -> Result<Self, Memory> {
        Ok(*self)
    }
}

/// An item of a file.
#[derive(Drop)]
pub enum Item {
    /// A record: when it was enqueued, and the values of the columns.
    Good {
        /// The enqueue moment.
        enqueued: Moment,
        /// The values of the columns, in order.
        values: Seq<Value>,
    },
    /// A record that is dropped by this rule.
    Bad(Rule),
}

impl Copies for Item {
    fn copy(&self) -> Result<Self, Memory> {
        match self {
            Item::Good { enqueued, values } => Ok(Item::Good {
                enqueued: *enqueued,
                values: values.copy()?,
            }),
            Item::Bad(rule) => Ok(Item::Bad(*rule)),
        }
    }
}

/// A place in a partition: before the entry of this index in this segment, both counted from 0.
#[derive(Clone, Copy, PartialEq, Eq)]
pub struct Position {
    /// The number of the segment.
    pub segment: u32,
    /// The number of the entry in the segment.
    pub index: u32,
}

impl Copies for Position {
    fn copy(&self) -> Result<Self, Memory> {
        Ok(*self)
    }
}

/// A dropped record: where it stood, and by which rule it was dropped.
#[derive(Clone, Copy, PartialEq, Eq)]
pub struct Dropped {
    /// The number of the stream in the inputs document.
    pub stream: u16,
    /// The number of the partition in the stream.
    pub partition: u16,
    /// The number of the segment in the partition.
    pub segment: u32,
    /// The number of the item in the segment.
    pub index: u32,
    /// The rule.
    pub rule: Rule,
}

impl Copies for Dropped {
    fn copy(&self) -> Result<Self, Memory> {
        Ok(*self)
    }
}

/// A row with its time.
#[derive(Drop)]
pub struct Stamped {
    /// The time of the row.
    pub time: Moment,
    /// The values of the columns, in order.
    pub values: Seq<Value>,
}

impl Copies for Stamped {
    fn copy(&self) -> Result<Self, Memory> {
        Ok(Stamped {
            time: self.time,
            values: self.values.copy()?,
        })
    }
}

/// A kept record: its time after the policies, where it stood, and its values.
#[derive(Drop)]
pub struct Event {
    /// The time after the policies.
    pub time: Moment,
    /// The number of the partition in the stream.
    pub partition: u16,
    /// The number of the segment in the partition.
    pub segment: u32,
    /// The number of the item in the segment.
    pub index: u32,
    /// The values of the columns, in order.
    pub values: Seq<Value>,
}

impl Copies for Event {
    fn copy(&self) -> Result<Self, Memory> {
        Ok(Event {
            time: self.time,
            partition: self.partition,
            segment: self.segment,
            index: self.index,
            values: self.values.copy()?,
        })
    }
}

/// A substream of a partition, by its values of the OVER columns, and its mark: the time below which
/// it keeps no record.
#[derive(Drop)]
pub struct KeyMark {
    /// The values of the OVER columns, in order.
    pub key: Seq<Value>,
    /// The mark.
    pub mark: Moment,
}

impl Copies for KeyMark {
    fn copy(&self) -> Result<Self, Memory> {
        Ok(KeyMark {
            key: self.key.copy()?,
            mark: self.mark,
        })
    }
}
