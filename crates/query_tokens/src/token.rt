//! `Token`, where a token of a text starts and ends.

use event_value::{Copies, Memory};

/// What kind of token it is.
#[derive(Clone, Copy, PartialEq, Eq)]
pub enum TokenKind {
    /// A letter or `_`, then letters, digits and `_`.
    Word,
    /// A name in `[` and `]`.
    Bracketed,
    /// Digits, perhaps with a point and further digits.
    Number,
    /// A text in single quotes.
    Text,
    /// A sign of one or two bytes.
    Sign,
}

/// A token, by the places of its first byte and behind its last one.
#[derive(Clone, Copy, PartialEq, Eq)]
pub struct Token {
    pub kind: TokenKind,
    pub start: u32,
    pub end: u32,
}

impl Copies for Token {
    fn copy(&self) -> Result<Self, Memory> {
        Ok(*self)
    }
}
