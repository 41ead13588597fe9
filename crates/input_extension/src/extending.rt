//! Whether an inputs document goes on from another.

ghost use Rattle.std.specs.Prelude.{OnOk, IfErr};
ghost use Rattle.input_extension.specs.Extension.{IsExtension};
ghost use Rattle.input_extension.specs.Refusals.{IsDue, IsRefused};

use crate::ExtendErr;
use crate::same::Same;
use crate::source::extend_all;
use event_value::Text;
use input_types::Inputs;
use std::alloc::Global;
use tick_time::Moment;

/// Whether the new inputs are the old ones with segments and snapshots appended and partitions
/// ended, where a job's rows are kept below the moment `w`.
///
/// # Errors
/// The first part that breaks a rule, with the name of its source, or for a snapshot with both
/// moments; `Memory` where there was none for the name.
pub fn extends(alloc: Global, old: &Inputs, new: &Inputs, w: Moment) -> Result<(), ExtendErr>
    ensures ok { OnOk result (IsExtension old.now new.now w) }
    ensures err { IfErr result (IsDue (IsRefused old.now new.now w)) }
{
    extend_all(old.streams.items(), new.streams.items(), w)?;
    extend_all(old.references.items(), new.references.items(), w)?;
    if old.policy.is_same(&new.policy) {
        Ok(())
    } else {
        Err(ExtendErr::Changed(Text::of(alloc, b"policy")?))
    }
}
