//! `Unreadable`, why no value is read.

ghost use Rattle.std.specs.Prelude.{◌≡◌};
ghost use Rattle.field_forms.specs.declared.unreadable.Unreadable.TheVariants.{Memory as no_memory};

use event_value::Memory;

/// Why no value is read off the front of bytes.
#[derive(Clone, Copy, PartialEq, Eq)]
pub enum Unreadable {
    /// There was no memory for the value.
    Memory,
    /// The bytes begin with no value's spelling.
    Malformed,
}

impl From<Memory> for Unreadable {
    ghost from_gives = { λ _ e. e ≡ no_memory };

    fn from(_: Memory) -> Self {
        Unreadable::Memory
    }
}
