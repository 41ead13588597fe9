//! `write_all`, which writes bytes piece by piece.

ghost use Rattle.std.specs.Prelude.{◌≤◌, ◌≡◌, OnOk, OnErr, IsErrOf};
ghost use Rattle.outside.specs.Faults.{HasRisen};
ghost use Rattle.outside.specs.Written.{bytes_behind, WritesPrefix};

use crate::{Sink, SinkErr};

/// Writes all the bytes behind what was written before. It takes no memory of its own.
///
/// # Errors
/// As the sink's `write`, and only by its word; a prefix of the bytes is then written.
pub fn write_all<O: Sink>(out: &mut O, bytes: &[u8]) -> Result<(), SinkErr>
    ensures ok { OnOk result (O.written out.new ≡ bytes_behind (O.written out.old) bytes.now) }
    ensures err { OnErr result (WritesPrefix bytes.now (O.written out.old) (O.written out.new)) }
    ensures never_falls { O.faults out.old ≤ O.faults out.new }
    ensures cause { IsErrOf result SinkErr.Fault
        → HasRisen (O.faults out.old) (O.faults out.new) }
{
    let mut rest = bytes;
    while !rest.is_empty() {
        let count = out.write(rest)?;
        let (_, after) = rest.split_at(count);
        rest = after;
    }
    Ok(())
}
