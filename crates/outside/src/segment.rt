//! `Segment`, a file that was read up to a limit.

use crate::FileErr;
use event_value::{Copies, Memory, Seq};
use std::alloc::AllocError;

/// The bytes of a file, if it isn't longer than the limit.
#[derive(Drop)]
pub enum Segment {
    Bytes(Seq<u8>),
    TooLong,
}

impl Copies for Segment {
    fn copy(&self) -> Result<Self, Memory> {
        match self {
            Segment::Bytes(bytes) => Ok(Segment::Bytes(bytes.copy()?)),
            Segment::TooLong => Ok(Segment::TooLong),
        }
    }
}

/// Why a file was not read.
#[derive(Clone, Copy, PartialEq, Eq)]
pub enum ReadErr {
    /// A call of the files failed.
    Fault = 1,
    /// There was no memory.
    Memory = 2,
}

impl Copies for ReadErr {
    fn copy(&self) -> Result<Self, Memory> {
        Ok(*self)
    }
}

impl From<FileErr> for ReadErr {
    ghost use Rattle.outside.specs.ReadCause.{HasSameCause};

    ghost from_gives = { HasSameCause };

    fn from(error: FileErr) -> Self {
        match error {
            FileErr::Fault => ReadErr::Fault,
            FileErr::Memory => ReadErr::Memory,
        }
    }
}

impl From<AllocError> for ReadErr {
    ghost use Rattle.std.specs.Prelude.{◌≡◌};
    ghost use Rattle.outside.specs.declared.segment.ReadErr.TheVariants.{Memory as no_memory};

    ghost from_gives = { λ _ error. error ≡ no_memory };

    fn from(_: AllocError) -> Self {
        ReadErr::Memory
    }
}
