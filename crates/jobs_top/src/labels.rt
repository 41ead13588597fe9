//! Lines of a label and what it is of.

ghost use Rattle.std.specs.Prelude.{◌≡◌, ◌++◌, OnOk};
ghost use Rattle.jobs_top.specs.StatusLines.{labelled};

use event_value::{Memory, Text};

/// Adds a line of a label and what it is of.
#[tactic(auto, unfolding(crate::specs::StatusLines::labelled))]
pub fn push_labelled(line: &mut Text, label: &[u8], detail: &[u8]) -> Result<(), Memory>
    ensures { OnOk result (line.new ≡ line.old ++ labelled label.now detail.now) }
{
    line.extend(label)?;
    line.push(b' ')?;
    line.extend(detail)?;
    line.push(b'\n')
}
