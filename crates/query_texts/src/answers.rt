//! What a text is answered with.

use query_parse::{ParseErr, parse};
use std::alloc::Global;

/// Whether the text is refused so.
pub fn is_refused(alloc: Global, text: &[u8], wanted: ParseErr) -> bool {
    match parse(alloc, text) {
        Ok(_) => false,
        Err(error) => error == wanted,
    }
}

/// Whether the text is read.
pub fn is_read(alloc: Global, text: &[u8]) -> bool {
    parse(alloc, text).is_ok()
}
