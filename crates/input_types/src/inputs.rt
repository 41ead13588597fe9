//! What an inputs document says: the sources of a job, and its time policies.

use event_value::{Columns, Copies, Format, Policy, Seq, Text};
use tick_time::{Memory, Moment};

/// The inputs of a job.
#[derive(Drop)]
pub struct Inputs {
    /// The streams, in order.
    pub streams: Seq<Stream>,
    /// The sources of reference rows, in order.
    pub references: Seq<Reference>,
    /// The time policies.
    pub policy: Policy,
}

impl Copies for Inputs {
    fn copy(&self) -> Result<Self, Memory> {
        Ok(Inputs {
            streams: self.streams.copy()?,
            references: self.references.copy()?,
            policy: self.policy,
        })
    }
}

/// A stream of records in partitions.
#[derive(Drop)]
pub struct Stream {
    /// The name in queries.
    pub name: Text,
    /// The format of its segments.
    pub format: Format,
    /// The declared columns.
    pub columns: Columns,
    /// The partitions, in order.
    pub partitions: Seq<Partition>,
}

impl Copies for Stream {
    fn copy(&self) -> Result<Self, Memory> {
        Ok(Stream {
            name: self.name.copy()?,
            format: self.format,
            columns: self.columns.copy()?,
            partitions: self.partitions.copy()?,
        })
    }
}

/// A partition of a stream.
#[derive(Drop)]
pub struct Partition {
    /// The segments, in order.
    pub segments: Seq<SegmentName>,
    /// Whether no further segment comes.
    pub ended: bool,
}

impl Copies for Partition {
    fn copy(&self) -> Result<Self, Memory> {
        Ok(Partition {
            segments: self.segments.copy()?,
            ended: self.ended,
        })
    }
}

/// A segment of a partition.
#[derive(Drop)]
pub struct SegmentName {
    /// The name of its file.
    pub file: Text,
    /// The moment up to which the partition is known behind it.
    pub through: Moment,
}

impl Copies for SegmentName {
    fn copy(&self) -> Result<Self, Memory> {
        Ok(SegmentName {
            file: self.file.copy()?,
            through: self.through,
        })
    }
}

/// A source of reference rows.
#[derive(Drop)]
pub struct Reference {
    /// The name in queries.
    pub name: Text,
    /// The format of its snapshots.
    pub format: Format,
    /// The declared columns.
    pub columns: Columns,
    /// The snapshots, in order.
    pub snapshots: Seq<SnapshotName>,
}

impl Copies for Reference {
    fn copy(&self) -> Result<Self, Memory> {
        Ok(Reference {
            name: self.name.copy()?,
            format: self.format,
            columns: self.columns.copy()?,
            snapshots: self.snapshots.copy()?,
        })
    }
}

/// A snapshot of a source of reference rows.
#[derive(Drop)]
pub struct SnapshotName {
    /// The name of its file.
    pub file: Text,
    /// The moment from which it is in force.
    pub effective: Moment,
}

impl Copies for SnapshotName {
    fn copy(&self) -> Result<Self, Memory> {
        Ok(SnapshotName {
            file: self.file.copy()?,
            effective: self.effective,
        })
    }
}
