//! Cases: a query, an inputs document and the files of its segments. What the words over them end
//! with is looked at in helpers that answer a truth value.

use event_value::{Memory, Seq, Text};
use jobs_top::{Status, top};
use outside::{HeldFile, MemFiles, MemSink};
use std::alloc::Global;

/// A file of a segment: its name and its bytes.
pub type File<'a> = (&'a str, &'a [u8]);

/// A query, an inputs document, and the files of segments.
#[derive(Clone, Copy)]
pub struct Case<'a> {
    pub query: &'a [u8],
    pub inputs: &'a [u8],
    pub files: &'a [File<'a>],
}

pub const PREVIEW: [&str; 4] = ["-", "preview", "q.txt", "i.toml"];

pub const CHECK: [&str; 4] = ["-", "check", "q.txt", "i.toml"];

/// A file of this name and these bytes.
fn held(alloc: Global, name: &[u8], bytes: &[u8]) -> Result<HeldFile, Memory> {
    Ok(HeldFile {
        name: Text::of(alloc, name)?,
        bytes: Text::of(alloc, bytes)?,
    })
}

/// The files q.txt and i.toml with the documents of a case, and those of its segments.
pub fn files_of(alloc: Global, case: Case<'_>) -> Result<MemFiles, Memory> {
    let mut files = Seq::empty(alloc);
    files.push(held(alloc, b"q.txt", case.query)?)?;
    files.push(held(alloc, b"i.toml", case.inputs)?)?;
    for (name, bytes) in case.files {
        files.push(held(alloc, name.as_bytes(), bytes)?)?;
    }
    Ok(MemFiles::of(alloc, files))
}

/// The words of a command.
pub fn words_of(alloc: Global, words: &[&str]) -> Result<Seq<Text>, Memory> {
    let mut texts = Seq::empty(alloc);
    for word in words {
        texts.push(Text::of(alloc, word.as_bytes())?)?;
    }
    Ok(texts)
}

/// Whether the words over the files end with this status, and this is what was written.
pub fn is_outcome(
    alloc: Global,
    words: &[Text],
    files: &mut MemFiles,
    status: Status,
    written: &[u8],
) -> bool {
    let mut out = MemSink::of(alloc);
    let found = top(alloc, words, files, &mut out);
    found == status && out.bytes() == written
}

/// Whether the words over a case end with this status, and this is what was written.
pub fn ends(
    alloc: Global,
    words: &[&str],
    case: Case<'_>,
    status: Status,
    written: &str,
) -> Result<bool, Memory> {
    let words = words_of(alloc, words)?;
    let mut files = files_of(alloc, case)?;
    let written = written.as_bytes();
    Ok(is_outcome(alloc, words.items(), &mut files, status, written))
}

/// Whether the preview of a case is this text.
pub fn previews(alloc: Global, case: Case<'_>, text: &str) -> Result<bool, Memory> {
    ends(alloc, &PREVIEW, case, Status::Done, text)
}
