//! `Stop`, why reading stops at a token.

use std::alloc::AllocError;

/// Why reading stops at a token.
#[derive(Clone, Copy, PartialEq, Eq)]
pub enum Stop {
    /// The token can't follow those before it.
    Expected,
    /// The token could follow those before it but for the limits.
    Deep,
    /// There was no memory.
    Memory,
}

impl From<event_value::Memory> for Stop {
    ghost use Rattle.std.specs.Prelude.{◌≡◌};
    ghost use Rattle.grammar_rules.specs.declared.stop.Stop.TheVariants.{Memory as no_memory};

    ghost from_gives = { λ _ stop. stop ≡ no_memory };

    fn from(_: event_value::Memory) -> Self {
        Stop::Memory
    }
}

impl From<AllocError> for Stop {
    ghost use Rattle.std.specs.Prelude.{◌≡◌};
    ghost use Rattle.grammar_rules.specs.declared.stop.Stop.TheVariants.{Memory as no_memory};

    ghost from_gives = { λ _ stop. stop ≡ no_memory };

    fn from(_: AllocError) -> Self {
        Stop::Memory
    }
}

/// What was read, or a way out that stops where reading stopped; what is named behind it was read
/// before and is given up then. It does what `?` does, but matches what was read and drops by a
/// call: a `?` is a call for the type of the node, and a drop in place takes the node apart, which
/// the proof writes out anew at each of them.
#[macro_export]
macro_rules! read_or_stop {
    ($read:expr $(, $before:ident)?) => {
        match $read {
            Ok(read) => read,
            Err(stop) => {
                $(drop($before);)?
                return Err(stop);
            }
        }
    };
}
