//! `read_named`, which reads one of several files.

ghost use Rattle.std.specs.Prelude.{◌≡◌, ◌≤◌, [], ◌∷◌, IfOk, IfSome};
ghost use Rattle.outside.specs.KnownFiles.{file_of};
ghost use Rattle.outside.specs.Segment.{segment_of, IsWithin};
ghost use Rattle.log_reading.specs.Asking.{AsksUntil, IsCaused};

use crate::NamedReadErr;
use event_value::Text;
use outside::{Files, ReadErr, Segment, read_file};
use std::alloc::Global;

/// Reads a file, or finds that it has more than `limit` bytes.
///
/// # Errors
/// `Fault` with its name only where the files' count of faults has risen in this call; `Memory`.
pub fn read_named<F: Files>(
    alloc: Global,
    files: &mut F,
    name: &[u8],
    limit: u32,
) -> Result<Segment, NamedReadErr>
    ensures content { IfOk result (λ segment.
        IfSome (F.known files.old) (λ known. segment ≡ segment_of limit (file_of known name.now))) }
    ensures within { IfOk result (IsWithin limit) }
    ensures asked { AsksUntil (name.now ∷ []) result (F.known files.old) (F.known files.new) }
    ensures never_falls { F.faults files.old ≤ F.faults files.new }
    ensures cause { IsCaused result (F.faults files.old) (F.faults files.new) }
{
    match read_file(alloc, files, name, limit) {
        Ok(segment) => Ok(segment),
        Err(ReadErr::Fault) => Err(NamedReadErr::Fault(Text::of(alloc, name)?)),
        Err(ReadErr::Memory) => Err(NamedReadErr::Memory),
    }
}
