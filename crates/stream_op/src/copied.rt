//! `push_rows`, which adds copies of rows to a list.

ghost use Rattle.std.specs.Prelude.{◌≡◌, ◌++◌, OnOk};

use event_value::{Copies, Memory, Seq, Stamped};

/// Adds copies of rows at the end of a list.
///
/// # Errors
/// `Memory` where there was none for a copy.
pub fn push_rows(rows: &mut Seq<Stamped>, more: &[Stamped]) -> Result<(), Memory>
    ensures { OnOk result (rows.new ≡ rows.old ++ more.now) }
{
    for row in more {
        rows.push(row.copy()?)?;
    }
    Ok(())
}
