//! `write_all`, which writes bytes on a connection piece by piece.

ghost use Rattle.std.specs.Prelude.{◌≤◌, ◌≡◌, OnOk, OnErr, IsErrOf};
ghost use Rattle.outside.specs.Faults.{HasRisen};
ghost use Rattle.outside.specs.Written.{bytes_behind, WritesPrefix};

use crate::{Conn, ConnErr};

/// Writes all the bytes behind what was written before. It takes no memory of its own.
///
/// # Errors
/// As the connection's `write`, and only by its word; a prefix of the bytes is then written.
pub fn write_all<C: Conn>(conn: &mut C, bytes: &[u8]) -> Result<(), ConnErr>
    ensures ok { OnOk result (C.written conn.new ≡ bytes_behind (C.written conn.old) bytes.now) }
    ensures err { OnErr result (WritesPrefix bytes.now (C.written conn.old) (C.written conn.new)) }
    ensures left { C.left conn.new ≡ C.left conn.old }
    ensures never_falls { C.faults conn.old ≤ C.faults conn.new }
    ensures cause { IsErrOf result ConnErr.Fault
        → HasRisen (C.faults conn.old) (C.faults conn.new) }
{
    let mut rest = bytes;
    while !rest.is_empty() {
        let count = conn.write(rest)?;
        let (_, after) = rest.split_at(count);
        rest = after;
    }
    Ok(())
}
