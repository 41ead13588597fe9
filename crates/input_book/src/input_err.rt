//! Why an inputs document is refused.

ghost use Rattle.std.specs.Prelude.{◌≡◌};
ghost use Rattle.input_book.specs.declared.input_err.InputErr.TheVariants.{Memory};

use event_value::{Copies, Text};
use std::alloc::{AllocError, AllocFailed};

/// The first cause of a document's refusal: `TooLong`, `Toml`, then `Unknown`, `Missing`, `Shape` and
/// `Range` where they stand in the tables, then `TooMany`, `Twice`, `ThroughOrder`, `EffectiveOrder`.
/// A key is a path in the document, as `stream[0].partition[1].segments[2].through`.
#[derive(Drop, PartialEq, Eq)]
pub enum InputErr {
    /// The text is no TOML.
    Toml,
    /// A key that is needed isn't there.
    Missing(Text),
    /// A key that a table doesn't have.
    Unknown(Text),
    /// A value of another type.
    Shape(Text),
    /// A value outside its range.
    Range(Text),
    /// The name of a source, or of a column within its source, that stands earlier too.
    Twice(Text),
    /// A `through` below the one before it.
    ThroughOrder(Text),
    /// An effective moment that isn't above the one before it.
    EffectiveOrder(Text),
    /// The first list at which a limit is exceeded.
    TooMany(Text),
    /// There was no memory.
    Memory,
    /// The text is longer than a document may be.
    TooLong,
}

impl Copies for InputErr {
    fn copy(&self) -> Result<Self, event_value::Memory> {
        Ok(match self {
            InputErr::Toml => InputErr::Toml,
            InputErr::Missing(key) => InputErr::Missing(key.copy()?),
            InputErr::Unknown(key) => InputErr::Unknown(key.copy()?),
            InputErr::Shape(key) => InputErr::Shape(key.copy()?),
            InputErr::Range(key) => InputErr::Range(key.copy()?),
            InputErr::Twice(name) => InputErr::Twice(name.copy()?),
            InputErr::ThroughOrder(key) => InputErr::ThroughOrder(key.copy()?),
            InputErr::EffectiveOrder(key) => InputErr::EffectiveOrder(key.copy()?),
            InputErr::TooMany(key) => InputErr::TooMany(key.copy()?),
            InputErr::Memory => InputErr::Memory,
            InputErr::TooLong => InputErr::TooLong,
        })
    }
}

impl From<event_value::Memory> for InputErr {
    ghost from_gives = { λ _ e. e ≡ Memory };

    fn from(_: event_value::Memory) -> Self {
        InputErr::Memory
    }
}

impl From<AllocError> for InputErr {
    ghost from_gives = { λ _ e. e ≡ Memory };

    fn from(_: AllocError) -> Self {
        InputErr::Memory
    }
}

impl<T: Drop> From<AllocFailed<T>> for InputErr {
    ghost from_gives = { λ _ e. e ≡ Memory };

    fn from(_: AllocFailed<T>) -> Self {
        InputErr::Memory
    }
}
