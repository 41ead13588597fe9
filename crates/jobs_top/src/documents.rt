//! The two documents of a command, as they are read.

ghost use Rattle.std.specs.Prelude.{◌≡◌, ◌≤◌, IfOk, IfSome};
ghost use Rattle.log_reading.specs.Asking.{AsksUntil, IsCaused};
ghost use Rattle.jobs_top.specs.Documents.{documents_in};
ghost use Rattle.jobs_top.specs.Words.{documents_of};
ghost use Rattle.jobs_top.specs.WordsView.{command_in};

use crate::words::CommandWords;
use log_reading::{NamedReadErr, read_named};
use outside::{Files, Segment};
use std::alloc::Global;

/// The greatest length of a query in bytes.
const MAX_QUERY: u32 = 65_536;

/// The greatest length of an inputs document in bytes.
const MAX_DOCUMENT: u32 = 1_048_576;

/// The documents of a command, each up to its greatest length.
#[derive(Drop)]
pub struct Documents {
    /// The query.
    pub query: Segment,
    /// The inputs document.
    pub inputs: Segment,
}

/// Reads both documents, the query first.
///
/// # Errors
/// `Fault` with the name of a file only where the files' count of faults has risen; `Memory`.
pub fn read_documents<F: Files>(
    alloc: Global,
    files: &mut F,
    words: &CommandWords<'_>,
) -> Result<Documents, NamedReadErr>
    ensures content { IfOk result (λ documents. IfSome (F.known files.old) (λ known.
        documents ≡ documents_in known (command_in words.now))) }
    ensures asked { AsksUntil (documents_of (command_in words.now)) result (F.known files.old) (F.known files.new) }
    ensures never_falls { F.faults files.old ≤ F.faults files.new }
    ensures cause { IsCaused result (F.faults files.old) (F.faults files.new) }
{
    let query = read_named(alloc, files, words.query, MAX_QUERY)?;
    let inputs = read_named(alloc, files, words.inputs, MAX_DOCUMENT)?;
    Ok(Documents { query, inputs })
}
