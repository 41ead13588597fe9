//! The text of a preview: the snapshots are read, then a core is fed the log and cut once, and its batch
//! is printed.

ghost use Rattle.std.specs.Prelude.{◌≡◌, ◌≤◌, IfOk, IfSome};
ghost use Rattle.input_book.specs.Laws.{IsWellFormed};
ghost use Rattle.log_reading.specs.Asking.{AsksUntil, IsCaused};
ghost use Rattle.jobs_top.specs.Texts.{preview_files_of, preview_of};

use crate::acceptance::Accepted;
use event_value::Text;
use log_reading::{NamedReadErr, read_batch, read_references};
use outside::Files;
use preview_text::print_preview;
use std::alloc::Global;

/// The preview of an accepted query over its inputs.
///
/// # Errors
/// `Fault` with the name of a file only where the files' count of faults has risen; `Memory`.
pub fn preview<F: Files>(
    alloc: Global,
    files: &mut F,
    accepted: &Accepted,
) -> Result<Text, NamedReadErr>
    requires { IsWellFormed accepted.now.inputs }
    ensures text { IfOk result (λ text. IfSome (F.known files.old) (λ known. text ≡ preview_of known accepted.now)) }
    ensures asked { AsksUntil (preview_files_of accepted.now) result (F.known files.old) (F.known files.new) }
    ensures never_falls { F.faults files.old ≤ F.faults files.new }
    ensures cause { IsCaused result (F.faults files.old) (F.faults files.new) }
{
    let (plan, inputs) = (&accepted.plan, &accepted.inputs);
    let versions = read_references(alloc, files, inputs, plan.references.items())?;
    let batch = read_batch(alloc, files, plan, inputs, versions)?;
    let (outputs, streams) = (plan.outputs.items(), inputs.streams.items());
    let (rows, drops) = (batch.outputs.items(), batch.drops.items());
    Ok(print_preview(alloc, outputs, rows, streams, drops)?)
}
