//! The lines of a file of texts.

ghost use Rattle.std.specs.Prelude.{◌≡◌, ◌∷◌, ◌<◌, ◌≤◌, length};
ghost use Rattle.arrival_text.specs.Lines.{lines, is_line_blank, is_blank, without_mark};
ghost use Rattle.arrival_text.specs.LineEnds.{without_return};

use memchr::memchr;

/// The text without the mark that one in UTF-8 may begin with.
pub fn after_mark(bytes: &[u8]) -> &[u8]
    ensures value { result.now ≡ without_mark bytes.now }
    ensures no_longer { length result.now ≤ length bytes.now }
{
    match bytes {
        [0xEF, 0xBB, 0xBF, rest @ ..] => rest,
        _ => bytes,
    }
}

/// The first line, without its end, and what follows it.
pub fn split_line(bytes: &[u8]) -> (&[u8], &[u8])
    requires { 0 < length bytes.now }
    ensures lines { lines bytes.now ≡ result.0.now ∷ lines result.1.now }
    ensures shorter { length result.1.now < length bytes.now }
{
    match memchr(b'\n', bytes) {
        Some(at) => (before_return(&bytes[..at]), &bytes[at + 1..]),
        None => (bytes, &[]),
    }
}

fn before_return(line: &[u8]) -> &[u8]
    ensures { result.now ≡ without_return line.now }
{
    match line {
        [front @ .., b'\r'] => front,
        _ => line,
    }
}

/// Whether the line has spaces and tabs alone.
pub fn is_line_blank(line: &[u8]) -> bool
    ensures { result ≡ is_line_blank line.now }
{
    line.iter().all(|byte| is_blank(*byte))
}

fn is_blank(byte: u8) -> bool
    ensures { result ≡ is_blank byte }
{
    byte == b' ' || byte == b'\t'
}
