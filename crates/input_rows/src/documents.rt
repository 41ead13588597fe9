//! Documents, each with its first cause of refusal and the key where it stands, worked out by hand.
//! A case for a key of a stream goes to keys.rt, one of a reference to references.rt, one for the
//! length of a list or a text to lengths.rt, and one for what an accepted document gives to whole.rt.

mod keys;
mod lengths;
mod references;
mod whole;

use event_value::Text;
use input_book::{InputErr, read_inputs};
use std::alloc::Global;
use std::process::Abort;
use std::test::Fail;

/// The name of a cause and what it is told with.
fn cause(refusal: &InputErr) -> (&str, &[u8]) {
    match refusal {
        InputErr::Toml => ("Toml", b""),
        InputErr::Missing(key) => ("Missing ", key.items()),
        InputErr::Unknown(key) => ("Unknown ", key.items()),
        InputErr::Shape(key) => ("Shape ", key.items()),
        InputErr::Range(key) => ("Range ", key.items()),
        InputErr::Twice(name) => ("Twice ", name.items()),
        InputErr::ThroughOrder(key) => ("ThroughOrder ", key.items()),
        InputErr::EffectiveOrder(key) => ("EffectiveOrder ", key.items()),
        InputErr::TooMany(key) => ("TooMany ", key.items()),
        InputErr::Memory => ("Memory", b""),
        InputErr::TooLong => ("TooLong", b""),
    }
}

/// Asserts what a document is answered with.
fn check(rt: &impl Abort, alloc: Global, document: &[u8], wanted: &str) -> Result<(), Fail> {
    let mut found = Text::empty(alloc);
    match read_inputs(alloc, document) {
        Ok(_) => found.extend(b"Inputs")?,
        Err(refusal) => {
            let (name, key) = cause(&refusal);
            found.extend(name.as_bytes())?;
            found.extend(key)?;
        }
    }
    assert_eq!(rt; found.items(), wanted.as_bytes(), "{document:?}");
    Ok(())
}

/// Asserts each line of a table: what stands between this front and this back of a document, and
/// what the document is answered with.
fn check_lines(
    rt: &impl Abort,
    alloc: Global,
    front: &str,
    back: &str,
    cases: &str,
) -> Result<(), Fail> {
    for line in cases.lines() {
        if let Some((case, wanted)) = line.split_once(" => ") {
            let document = format!(in alloc; "{front}{case}{back}")?;
            check(rt, alloc, document.as_bytes(), wanted)?;
        }
    }
    Ok(())
}
