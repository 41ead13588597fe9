//! Words that are no command, faults of the sink, and the numbers of the statuses.

use crate::cases::{PREVIEW, files_of, is_outcome, words_of};
use crate::first::case_of;
use event_value::{Memory, Seq, Text};
use jobs_top::{Status, top};
use outside::{MemFiles, MemSink};
use std::alloc::Global;
use std::test::Fail;

const QUERY: &str = "SELECT a, b INTO out FROM src";

/// The words of a line.
fn words_in(alloc: Global, line: &str) -> Result<Seq<Text>, Memory> {
    let mut words = Seq::empty(alloc);
    for word in line.split_whitespace() {
        words.push(Text::of(alloc, word.as_bytes())?)?;
    }
    Ok(words)
}

/// Whether the words of this line are a usage fault.
fn is_usage_fault(alloc: Global, line: &str) -> Result<bool, Memory> {
    let words = words_in(alloc, line)?;
    let mut files = files_of(alloc, case_of(QUERY))?;
    let text = b"error 2 Usage\n";
    Ok(is_outcome(alloc, words.items(), &mut files, Status::Usage, text))
}

#[test]
fn words_that_are_no_command_are_a_usage_fault(rt: HostRuntime) -> Result<(), Fail> {
    let rows = [
        "",
        "-",
        "- preview q.txt",
        "- preview q.txt i.toml a.json",
        "- Preview q.txt i.toml",
        "- check q.txt",
        "- run q.txt i.toml",
        "db:x preview q.txt i.toml",
    ];
    for &line in &rows {
        assert!(rt; is_usage_fault(rt.alloc(), line)?);
    }
    Ok(())
}

/// Whether a sink whose first call fails ends these words with OutFault and nothing written.
fn ends_with_the_sinks_fault(
    alloc: Global,
    words: &[Text],
    files: &mut MemFiles,
    calls: Seq<u64>,
) -> bool {
    let mut out = MemSink::failing_at(alloc, calls);
    let status = top(alloc, words, files, &mut out);
    status == Status::OutFault && out.bytes().is_empty()
}

/// Whether a preview into a sink whose first call fails ends with OutFault and nothing written.
fn failing_sink_ends_the_preview(alloc: Global) -> Result<bool, Memory> {
    let words = words_of(alloc, &PREVIEW)?;
    let mut files = files_of(alloc, case_of(QUERY))?;
    let calls = Seq::from_vec(Vec::from_slice(alloc, &[0])?);
    Ok(ends_with_the_sinks_fault(alloc, words.items(), &mut files, calls))
}

#[test]
fn a_fault_of_the_sink_has_its_status(rt: HostRuntime) -> Result<(), Fail> {
    assert!(rt; failing_sink_ends_the_preview(rt.alloc())?);
    Ok(())
}

#[test]
fn statuses_have_their_numbers(rt: HostRuntime) {
    let rows = [
        (Status::Done, 0),
        (Status::Usage, 2),
        (Status::Refused, 3),
        (Status::ReadFault, 5),
        (Status::OutFault, 9),
        (Status::Memory, 11),
    ];
    for &(status, number) in &rows {
        assert_eq!(rt; status.number(), number);
    }
}
