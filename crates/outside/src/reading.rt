//! `read_file`, which reads a file up to a limit.

ghost use Rattle.std.specs.Prelude.{◌≤◌, ◌≡◌, IfOk, OnOk, IfSome, IsSome, IsErrOf};
ghost use Rattle.outside.specs.Faults.{HasRisen};
ghost use Rattle.outside.specs.KnownFiles.{file_of};
ghost use Rattle.outside.specs.Segment.{segment_of, AsksFor, IsWithin};

use crate::{Files, ReadErr, Segment};
use event_value::Seq;
use std::alloc::Global;

/// How many bytes a call of the files is asked for.
const PIECE: usize = 8192;

/// Reads a file, or finds that it has more than `limit` bytes.
///
/// # Errors
/// `Fault` only where the files' count of faults has risen in this call; `Memory`.
pub fn read_file<F: Files>(
    alloc: Global,
    files: &mut F,
    name: &[u8],
    limit: u32,
) -> Result<Segment, ReadErr>
    ensures content { IfOk result (λ segment.
        IfSome (F.known files.old) (λ known. segment ≡ segment_of limit (file_of known name.now))) }
    ensures within { IfOk result (IsWithin limit) }
    ensures held { OnOk result (
        IfSome (F.known files.old) (λ known. IsSome (known.holds name.now))) }
    ensures asked { AsksFor name.now result (F.known files.old) (F.known files.new) }
    ensures never_falls { F.faults files.old ≤ F.faults files.new }
    ensures cause { IsErrOf result ReadErr.Fault
        → HasRisen (F.faults files.old) (F.faults files.new) }
{
    files.begin(name)?;
    let mut bytes = Vec::new(alloc);
    let mut piece = [0; PIECE];
    while bytes.len() <= limit as usize {
        let count = files.read(&mut piece)?;
        if count == 0 {
            return Ok(Segment::Bytes(Seq::from_vec(bytes)));
        }
        bytes.extend_from_slice(&piece[..count])?;
    }
    Ok(Segment::TooLong)
}
