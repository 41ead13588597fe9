//! Pairs of documents, each with the answer whether the second goes on from the first.
//! A case for a stream goes to streams.rt, one for a reference or a snapshot to references.rt, and one
//! for policies, the order of sources or the order of causes to walk.rt.

mod references;
mod streams;
mod walk;

use event_value::Text;
use input_book::read_inputs;
use input_extension::{ExtendErr, extends};
use input_types::Inputs;
use std::alloc::Global;
use std::process::Abort;
use std::test::Fail;
use tick_time::Moment;

/// The moment below which rows are kept: the twelfth second of 1970, in ticks.
const W: i64 = 120_000_000;

/// The inputs of a document that is accepted.
fn inputs_of(rt: &impl Abort, alloc: Global, document: &str) -> Inputs {
    match read_inputs(alloc, document.as_bytes()) {
        Ok(inputs) => inputs,
        Err(_) => panic!(rt; "{document}"),
    }
}

/// The moment of so many ticks.
fn moment_of(rt: &impl Abort, ticks: i64) -> Moment {
    match Moment::of_ticks(ticks) {
        Some(moment) => moment,
        None => panic!(rt; "{ticks}"),
    }
}

/// The name of an answer and what it is told with.
fn told(alloc: Global, answer: &Result<(), ExtendErr>) -> Result<Text, Fail> {
    let mut text = Text::empty(alloc);
    match answer {
        Ok(()) => text.extend(b"Extends")?,
        Err(ExtendErr::Changed(name)) => {
            text.extend(b"Changed ")?;
            text.extend(name.items())?;
        }
        Err(ExtendErr::AfterEnd(name)) => {
            text.extend(b"AfterEnd ")?;
            text.extend(name.items())?;
        }
        Err(ExtendErr::SnapshotTooEarly { effective, w }) => {
            let (effective, w) = (effective.ticks(), w.ticks());
            let moments = format!(in alloc; "SnapshotTooEarly {effective} {w}")?;
            text.extend(moments.as_bytes())?;
        }
        Err(ExtendErr::Memory) => text.extend(b"Memory")?,
    }
    Ok(text)
}

/// Asserts what a pair of documents is answered with.
fn check(
    rt: &impl Abort,
    alloc: Global,
    documents: (&str, &str),
    w: i64,
    wanted: &str,
) -> Result<(), Fail> {
    let (old, new) = documents;
    let before = inputs_of(rt, alloc, old);
    let after = inputs_of(rt, alloc, new);
    let found = told(alloc, &extends(alloc, &before, &after, moment_of(rt, w)))?;
    assert_eq!(rt; found.items(), wanted.as_bytes(), "{old} -> {new}");
    Ok(())
}

/// The two pieces and the answer of a line of a table.
fn case_of(line: &str) -> Option<(&str, &str, &str)> {
    let (pair, wanted) = line.split_once(" => ")?;
    let (old, new) = pair.split_once(" -> ")?;
    Some((old, new, wanted))
}

/// Asserts each line of a table: what stands between this front and this back of both documents, and
/// what the pair is answered with.
fn check_lines(
    rt: &impl Abort,
    alloc: Global,
    front: &str,
    back: &str,
    cases: &str,
) -> Result<(), Fail> {
    for line in cases.lines() {
        if let Some((old, new, wanted)) = case_of(line) {
            let old = format!(in alloc; "{front}{old}{back}")?;
            let new = format!(in alloc; "{front}{new}{back}")?;
            check(rt, alloc, (old.as_str(), new.as_str()), W, wanted)?;
        } else {
            assert!(rt; line.is_empty(), "{line}");
        }
    }
    Ok(())
}
