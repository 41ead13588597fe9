//! How long and how many the parts of a document may be.

/// The bytes of a document.
pub const MAX_DOCUMENT: usize = 1_048_576;

/// The streams of a document.
pub const MAX_STREAMS: usize = 8;

/// The partitions of all its streams.
pub const MAX_PARTITIONS: usize = 32;

/// The segments of a partition.
pub const MAX_SEGMENTS: usize = 4_096;

/// The references of a document.
pub const MAX_REFERENCES: usize = 4;

/// The snapshots of all its references.
pub const MAX_SNAPSHOTS: usize = 64;

/// The columns of a source.
pub const MAX_COLUMNS: usize = 64;

/// The bytes of the name of a source or a column.
pub const MAX_NAME: usize = 64;

/// The bytes of the name of a file.
pub const MAX_FILE: usize = 255;

/// The texts of a column's path.
pub const MAX_PATH: usize = 8;

/// The seconds of late arrival.
pub const MAX_LATE: u32 = 1_728_000;

/// The seconds of disorder.
pub const MAX_DISORDER: u32 = 600;

/// The seconds of skew.
pub const MAX_SKEW: u32 = 1_728_000;

/// The seconds of late arrival where the document says none.
pub const DEFAULT_LATE: i64 = 5;

/// The seconds of disorder where the document says none.
pub const DEFAULT_DISORDER: i64 = 0;

/// The seconds of skew where the document says none.
pub const DEFAULT_SKEW: i64 = 300;
