//! `top`, which does all that the program does, over files and a sink that are handed in.

ghost use Rattle.std.specs.Prelude.{◌≡◌, ◌↔◌, None};
ghost use Rattle.outside.specs.Faults.{HasRisen};
ghost use Rattle.outside.specs.Written.{WritesPrefix};
ghost use Rattle.jobs_top.specs.Answers.{AsksOfCommand, AsksDocumentsAlone, ReportsFaultyFile};
ghost use Rattle.jobs_top.specs.Answers.{RefusesDocuments, WritesMemoryLine, WritesText, WritesTextPrefix};
ghost use Rattle.jobs_top.specs.StatusLines.{usage_line};
ghost use Rattle.jobs_top.specs.TextStatus.{IsTextStatus};
ghost use Rattle.jobs_top.specs.Words.{command_of};

use crate::Status;
use crate::status_lines::{MEMORY_LINE, USAGE_LINE, write_failure, write_line};
use crate::texts::text_of;
use crate::words::command_words;
use event_value::Text;
use outside::{Files, Sink, SinkErr, write_all};
use std::alloc::Global;

/// Carries out the command that the words are, and writes its text, or the line that says why not.
pub fn top<F: Files, O: Sink>(alloc: Global, words: &[Text], files: &mut F, out: &mut O) -> Status
    // No file is asked for but those of the command, in their order.
    ensures asked { AsksOfCommand (command_of words.now) (F.known files.old) (F.known files.new) }

    // 2: exactly where the words are no command.
    ensures usage { (result ≡ Status.Usage) ↔ (command_of words.now ≡ None) }
    ensures usage_line { result ≡ Status.Usage → WritesPrefix usage_line (O.written out.old) (O.written out.new) }

    // 0: the text of the command, whole.
    ensures done { result ≡ Status.Done
        → WritesText (command_of words.now) (F.known files.old) (O.written out.old) (O.written out.new) }

    // 3: the documents have the refusal of the line, and no other file was asked for.
    ensures refused { result ≡ Status.Refused
        → RefusesDocuments (command_of words.now) (F.known files.old) (O.written out.old) (O.written out.new) }
    ensures refused_early { result ≡ Status.Refused
        → AsksDocumentsAlone (command_of words.now) (F.known files.old) (F.known files.new) }

    // 5: the files' count of faults has risen; the line names the last file that was asked for.
    ensures read_fault { result ≡ Status.ReadFault → HasRisen (F.faults files.old) (F.faults files.new) }
    ensures faulty_file { result ≡ Status.ReadFault → ReportsFaultyFile (command_of words.now)
        (F.known files.old) (F.known files.new) (O.written out.old) (O.written out.new) }

    // 9: the sink's count of faults has risen; a prefix of the text was written, and no line.
    ensures out_fault { result ≡ Status.OutFault → HasRisen (O.faults out.old) (O.faults out.new) }
    ensures cut_text { result ≡ Status.OutFault
        → WritesTextPrefix (command_of words.now) (F.known files.old) (O.written out.old) (O.written out.new) }

    // 11: a prefix of the text was written, and then the line.
    ensures memory { result ≡ Status.Memory
        → WritesMemoryLine (F.known files.old) (command_of words.now) (O.written out.old) (O.written out.new) }
{
    let Some(command) = command_words(words) else {
        write_line(out, USAGE_LINE);
        return Status::Usage;
    };
    match text_of(alloc, files, &command) {
        Ok(text) => write_text(out, &text),
        Err(failure) => {
            write_failure(alloc, out, &failure);
            failure.status()
        }
    }
}

/// Writes a text, and where there is no memory for it the line that says so.
fn write_text<O: Sink>(out: &mut O, text: &Text) -> Status
    ensures { IsTextStatus text.now (O.faults out.old) (O.faults out.new) (O.written out.old) (O.written out.new) result }
{
    match write_all(out, text.items()) {
        Ok(()) => Status::Done,
        Err(SinkErr::Fault) => Status::OutFault,
        Err(SinkErr::Memory) => {
            write_line(out, MEMORY_LINE);
            Status::Memory
        }
    }
}
