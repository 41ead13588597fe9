//! Lists behind each other.

ghost use Rattle.std.specs.Prelude.{◌≡◌, ◌++◌, OnOk};

use event_value::{Memory, Seq};

/// Adds items at the end.
///
/// # Errors
/// `Memory` where there was none; some of the items may then stand at the end.
pub fn push_all<T: Drop>(all: &mut Seq<T>, more: Seq<T>) -> Result<(), Memory>
    ensures { OnOk result (all.new ≡ all.old ++ more) }
{
    for item in more.into_vec() {
        all.push(item)?;
    }
    Ok(())
}
