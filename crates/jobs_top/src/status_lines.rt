//! The lines that are written with the statuses.

ghost use Rattle.std.specs.Prelude.{◌≡◌, IfOk};
ghost use Rattle.outside.specs.Written.{WritesPrefix};
ghost use Rattle.jobs_top.specs.Failures.{failure_line};

use crate::failure::Failure;
use crate::labels::push_labelled;
use crate::refusal_lines::{push_inputs_line, push_plan_line, push_query_line};
use event_value::{Memory, Text};
use outside::{Sink, write_all};
use std::alloc::Global;

/// The line of the status Usage.
pub const USAGE_LINE: &[u8] = b"error 2 Usage\n";

/// The line of the status Memory.
pub const MEMORY_LINE: &[u8] = b"error 11 Memory\n";

/// Writes the line of a failure, or a prefix of it where the sink or memory fails.
pub fn write_failure<O: Sink>(alloc: Global, out: &mut O, failure: &Failure)
    ensures { WritesPrefix (failure_line failure.now) (O.written out.old) (O.written out.new) }
{
    if let Ok(line) = line_of(alloc, failure) {
        write_line(out, line.items());
    }
}

/// Writes a line, or a prefix of it where the sink fails.
pub fn write_line<O: Sink>(out: &mut O, line: &[u8])
    ensures { WritesPrefix line.now (O.written out.old) (O.written out.new) }
{
    let _ = write_all(out, line);
}

fn line_of(alloc: Global, failure: &Failure) -> Result<Text, Memory>
    ensures { IfOk result (λ line. line ≡ failure_line failure.now) }
{
    let mut line = Text::empty(alloc);
    match failure {
        Failure::Query(error) => push_query_line(&mut line, error)?,
        Failure::Inputs(error) => push_inputs_line(&mut line, error)?,
        Failure::Plan(error) => push_plan_line(&mut line, error)?,
        Failure::Read(name) => push_labelled(&mut line, b"error 5 ReadFault", name.items())?,
        Failure::Memory => line.extend(MEMORY_LINE)?,
    }
    Ok(line)
}
