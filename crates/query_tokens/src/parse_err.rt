//! `ParseErr`, why a text is no query.

/// Why a text is no query. A place is a number of bytes from the text's start. `TooLong` is tested
/// first, then the others in their order, `Expected` and `Deep` together by the least place.
#[derive(Clone, Copy, PartialEq, Eq)]
pub enum ParseErr {
    /// The text isn't UTF-8; the place is the length of its longest front that is.
    Utf8(u32),
    /// No token begins at the place.
    Token(u32),
    /// The token at the place, or the end of the text there, can't follow those before it.
    Expected(u32),
    /// The token at the place could follow those before it but for the limits of a query.
    Deep(u32),
    /// The text has more than `MAX_TEXT` bytes.
    TooLong,
    /// There was no memory for the answer.
    Memory,
}

impl From<event_value::Memory> for ParseErr {
    ghost use Rattle.std.specs.Prelude.{◌≡◌};
    ghost use Rattle.query_tokens.specs.declared.parse_err.ParseErr.TheVariants.{Memory as no_memory};

    ghost from_gives = { λ _ error. error ≡ no_memory };

    fn from(_: event_value::Memory) -> Self {
        ParseErr::Memory
    }
}
