//! `text_of`, the text of a command.

ghost use Rattle.std.specs.Prelude.{◌≡◌, ◌≤◌, ◌++◌, Err, IfOk, IfSome};
ghost use Rattle.outside.specs.Faults.{HasRisen};
ghost use Rattle.log_reading.specs.Asking.{Asks};
ghost use Rattle.jobs_top.specs.Asking.{AsksInOrder, AsksUpToFile};
ghost use Rattle.jobs_top.specs.Documents.{IsRefusalOf, documents_in};
ghost use Rattle.jobs_top.specs.Failures.{status_of};
ghost use Rattle.jobs_top.specs.Texts.{IsTextOf, canonical_line};
ghost use Rattle.jobs_top.specs.Words.{documents_of};
ghost use Rattle.jobs_top.specs.WordsView.{command_in};

use crate::Status;
use crate::acceptance::{Accepted, accept};
use crate::documents::read_documents;
use crate::failure::Failure;
use crate::preview::preview;
use crate::words::{Action, CommandWords};
use event_value::{Memory, Text};
use outside::Files;
use query_print::print;
use std::alloc::Global;

/// The text of a command.
///
/// # Errors
/// The documents' refusal, the file that can't be read, or `Memory`.
pub fn text_of<F: Files>(
    alloc: Global,
    files: &mut F,
    words: &CommandWords<'_>,
) -> Result<Text, Failure>
    ensures asked { AsksInOrder (command_in words.now) (F.known files.old) (F.known files.new) }
    ensures text { IfOk result (λ text. IfSome (F.known files.old) (λ known. IsTextOf known (command_in words.now) text)) }
    ensures refused { (failure : _) → result ≡ Err failure → status_of failure ≡ Status.Refused
        → IfSome (F.known files.old) (λ known. IsRefusalOf (documents_in known (command_in words.now)) failure) }
    ensures refused_early { (failure : _) → result ≡ Err failure → status_of failure ≡ Status.Refused
        → Asks (documents_of (command_in words.now)) (F.known files.old) (F.known files.new) }
    ensures read_fault { (name : _) → result ≡ Err (Failure.Read name)
        → HasRisen (F.faults files.old) (F.faults files.new) }
    ensures faulty_file { (name : _) → result ≡ Err (Failure.Read name)
        → AsksUpToFile (command_in words.now) name (F.known files.old) (F.known files.new) }
{
    let documents = read_documents(alloc, files, words)?;
    let accepted = accept(alloc, &documents)?;
    match words.action {
        Action::Preview => Ok(preview(alloc, files, &accepted)?),
        Action::Check => Ok(canonical_line(alloc, &accepted)?),
    }
}

/// The canonical query on a line.
fn canonical_line(alloc: Global, accepted: &Accepted) -> Result<Text, Memory>
    ensures { IfOk result (λ text. text ≡ canonical_line accepted.now) }
{
    let mut text = print(alloc, accepted.script.get())?;
    text.push(b'\n')?;
    Ok(text)
}
